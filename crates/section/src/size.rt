// How long a device's section is.
ghost use Rattle.std.specs.Prelude.{◌≡◌, ◌≤◌};
ghost use Rattle.device.specs.Format.{section_by};
ghost use Rattle.section.specs.Layout.{size};

use device::{Device, Movable};

// The bytes of a section besides its name, body and subsections: type, identity, version, tag and leaf number.
const SECTION_FRAME: usize = 19;

// The bytes of a subsection besides its name and body: tag, name length and version.
const SUBSECTION_FRAME: usize = 6;

pub fn section_size<D: Movable>(device: &D, edition: u32) -> usize
    ensures value { result ≡ size D.Device.kind D.Movable.format (section_by D.Movable.format edition (D.Device.meaning device.now)) }
    ensures bound { result ≤ 10000 }
{
    D::lawful();
    let mut n = SECTION_FRAME + D::name().len() + D::body_size(D::writes(edition));
    // A loop and no chain: of `filter`, `map` and `sum` with the device in their closures the check says that "a call gives two
    // lifetimes to a callee", which it does not cover.
    for subsection in D::subsections() {
        if device.needs(*subsection) {
            n += SUBSECTION_FRAME + D::title(*subsection).len() + D::subsection_size(*subsection);
        }
    }
    n
}

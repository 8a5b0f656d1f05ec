// Writing a device's section.
ghost use Rattle.std.specs.Prelude.{◌≡◌, ◌+◌, ◌<◌, ◌≤◌, [], ◌∷◌, length};
ghost use Rattle.device.specs.Format.{count, title as title_of, needed, section_by};
ghost use Rattle.section.specs.Layout.{over, subsections, laid, size};
ghost use Rattle.section.specs.Writer.{HasRoom, with_bytes};

use crate::buffer::Writer;
use crate::marks;
use crate::names::NamesBefore;
use device::{Device, Movable};

// Writes a subsection: tag, name, version and body. It asks for a known one, since a kind without any has a value of the type too.
#[tactic(auto, using(crate::proofs::Writers::writes))]
fn put_subsection<D: Movable>(device: &D, subsection: D::Subsection, writer: &mut Writer<'_>)
    requires known { D.Movable.numbered subsection < count D.Movable.format }
    requires room { HasRoom writer.old (6 + length (title_of D.Movable.format (D.Movable.numbered subsection)) + length (D.Movable.format.sub (D.Movable.numbered subsection) (D.Device.meaning device.now))) }
    ensures { writer.new ≡ with_bytes writer.old (subsections D.Movable.format ((D.Movable.numbered subsection, D.Movable.format.sub (D.Movable.numbered subsection) (D.Device.meaning device.now)) ∷ [])) }
{
    D::lawful();
    let title = D::title(subsection);
    writer.put(&[marks::SUBSECTION, title.len() as u8]);
    writer.put(title);
    writer.put_number(marks::SUBSECTION_VERSION);
    writer.put_subsection_body(device, subsection);
}

// Writes the subsections that the state needs, in the order of their numbers.
#[tactic(auto, using(crate::proofs::Writers::writes))]
fn put_subsections<D: Movable>(device: &D, writer: &mut Writer<'_>)
    requires { HasRoom writer.old (length (subsections D.Movable.format (needed D.Movable.format (D.Device.meaning device.now)))) }
    ensures { writer.new ≡ with_bytes writer.old (subsections D.Movable.format (needed D.Movable.format (D.Device.meaning device.now))) }
{
    let all = D::subsections();
    for subsection in all {
        if device.needs(*subsection) {
            put_subsection(device, *subsection, writer);
        }
    }
}

// Writes a device's section, for the leaf after these names.
#[tactic(auto, using(crate::proofs::Writers::writes, crate::proofs::Sizes::lengths))]
pub fn put_section<D: Movable>(
    device: &D,
    edition: u32,
    before: &NamesBefore,
    out: &mut [u8],
) -> usize
    requires { size D.Device.kind D.Movable.format (section_by D.Movable.format edition (D.Device.meaning device.now)) ≤ length out.old }
    ensures count { result ≡ length (laid D.Device.kind D.Movable.format before.now (section_by D.Movable.format edition (D.Device.meaning device.now))) }
    ensures size { result ≡ size D.Device.kind D.Movable.format (section_by D.Movable.format edition (D.Device.meaning device.now)) }
    ensures buffer { out.new ≡ over (laid D.Device.kind D.Movable.format before.now (section_by D.Movable.format edition (D.Device.meaning device.now))) out.old }
{
    D::lawful();
    let version = D::writes(edition);
    let mut writer = Writer::new(out);
    writer.put(&[marks::SECTION]);
    writer.put_identity(before, D::name());
    writer.put_number(version);
    writer.put_body(device, version);
    put_subsections(device, &mut writer);
    writer.put(&[marks::CLOSING]);
    writer.put_leaf_number(before);
    writer.written()
}

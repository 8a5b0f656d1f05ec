// How the dial's state travels.
ghost use Rattle.std.specs.Prelude.{◌≡◌, ◌<◌, length, slice_index, IfOk};
ghost use Rattle.std.specs.Result.{result_err};
ghost use Rattle.device.specs.Format.{body_size};
ghost use Rattle.device.specs.Table.{Table, standing};
ghost use Rattle.sample.specs.Dial as rules;
ghost use native.Mathlib.Omega.{arith};

use crate::state::{DialState, DialSubsection};
use crate::{Dial, PLACES};
use device::Movable;
use device::adoption::NotAdopted;
use device::bits::bit;
use device::bytes::padded;

// The versions: the last has every field.
const FIRST: u32 = 1;

const LAST: u32 = 2;

// The first edition that writes the last version.
const WRITES_LAST: u32 = 3;

// The first edition that knows dial/latch.
const KNOWS_LATCH: u32 = 2;

// The fields of a body, each of a byte, so that a field's number is its place; a check answers a number, whatever the kind. No
// From leads from a place to a number: `as`.
const INDEX: usize = 0;

const TURNED: usize = 1;

const END: usize = 2;

// The field of dial/latch.
const LATCH: usize = 0;

const LATCH_SIZE: usize = 1;

const FLAG_MAX: u8 = 1;

// A body with every field: by default the dial was not turned. Each kind has this row of its own table of versions.
fn complete(version: u32, body: &[u8]) -> [u8; END]
    requires { length body.now ≡ body_size rules.dial_format version }
    ensures { result ≡ rules.complete version body.now }
{
    padded(body)
}

// Passes a complete body, or answers its first refused field; the index of one that passes is small.
fn check(body: [u8; END]) -> Result<(), u16>
    ensures value { result_err result ≡ rules.refused body }
    ensures small { IfOk result (λ _. slice_index body 0 < 64) }
{
    if body[INDEX] >= PLACES {
        Err(INDEX as u16)
    } else if body[TURNED] > FLAG_MAX {
        Err(TURNED as u16)
    } else {
        Ok(())
    }
}

// The latch by default: the lowest bit of the index.
fn usual(body: [u8; END]) -> bool
    ensures { result ≡ rules.usual body }
{
    bit(0, body[INDEX])
}

// The latch that the table of a section gives, or else the usual one.
fn latch_of(body: [u8; END], subsections: &[Option<&[u8]>]) -> bool
    requires { Table rules.dial_format subsections.now }
    ensures { result ≡ rules.latch_of (standing 0 subsections.now) (rules.usual body) }
{
    let default = [u8::from(usual(body))];
    let own = subsections[0].unwrap_or(&default);
    own[LATCH] == 1
}

impl Movable for Dial {
    type Subsection = DialSubsection;

    ghost format = { rules.dial_format };

    ghost numbered = { λ _. 0 };

    fn lawful() {}

    fn writes(edition: u32) -> u32 {
        if edition >= WRITES_LAST { LAST } else { FIRST }
    }

    fn takes(edition: u32, version: u32) -> bool {
        (FIRST..=Dial::writes(edition)).contains(&version)
    }

    fn subsections() -> &'static [DialSubsection] {
        &[DialSubsection::Latch]
    }

    fn number(subsection: DialSubsection) -> u8 {
        subsection as u8
    }

    fn knows(edition: u32, subsection: DialSubsection) -> bool {
        match subsection {
            DialSubsection::Latch => edition >= KNOWS_LATCH,
        }
    }

    fn title(subsection: DialSubsection) -> &'static [u8] {
        match subsection {
            DialSubsection::Latch => b"dial/latch",
        }
    }

    fn body_size(version: u32) -> usize {
        if version >= LAST { END } else { TURNED }
    }

    fn subsection_size(subsection: DialSubsection) -> usize {
        match subsection {
            DialSubsection::Latch => LATCH_SIZE,
        }
    }

    fn needs(&self, subsection: DialSubsection) -> bool {
        match subsection {
            DialSubsection::Latch => self.state.latch != bit(0, self.state.index),
        }
    }

    fn off_default(&self, version: u32) -> Option<u16> {
        (version < LAST && self.state.turned).then_some(TURNED as u16)
    }

    // A body with every field begins with that of any version.
    fn write_body(&self, version: u32, out: &mut [u8]) {
        let body = [self.state.index, u8::from(self.state.turned)];
        out.copy_from_slice(&body[..Dial::body_size(version)]);
    }

    fn write_subsection(&self, subsection: DialSubsection, out: &mut [u8]) {
        match subsection {
            DialSubsection::Latch => out.copy_from_slice(&[u8::from(self.state.latch)]),
        }
    }

    fn check_body(version: u32, body: &[u8]) -> Result<(), u16> {
        check(complete(version, body))
    }

    fn check_subsection(
        version: u32,
        body: &[u8],
        subsection: DialSubsection,
        own: &[u8],
    ) -> Result<(), u16> {
        match subsection {
            DialSubsection::Latch if own[LATCH] > FLAG_MAX => Err(LATCH as u16),
            DialSubsection::Latch => Ok(()),
        }
    }

    fn is_needed(version: u32, body: &[u8], subsection: DialSubsection, own: &[u8]) -> bool {
        match subsection {
            DialSubsection::Latch => own[LATCH] != u8::from(usual(complete(version, body))),
        }
    }

    fn adopt(
        &mut self,
        version: u32,
        body: &[u8],
        subsections: &[Option<&[u8]>],
    ) -> Result<(), NotAdopted> {
        let body = complete(version, body);
        check(body).map_err(|_| NotAdopted)?;
        self.state = DialState {
            index: body[INDEX],
            turned: body[TURNED] == 1,
            latch: latch_of(body, subsections),
        };
        Ok(())
    }

    ghost known = { λ _ _. Prim.omega arith };
}

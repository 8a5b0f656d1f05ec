// How the clock's state travels.
ghost use Rattle.rtc.specs.Rtc.{ticks_per_second};
ghost use Rattle.rtc.specs.Stream as stream;
ghost use native.Mathlib.Omega.{arith};

use crate::Rtc;
use crate::body::{self, FIRST, LAST};
use crate::state::RtcState;
use device::Movable;
use device::adoption::NotAdopted;

// The first edition that writes the last version.
const WRITES_LAST: u32 = 3;

impl Movable for Rtc {
    // There are no subsections. What is said of one by its number is said here of every number.
    type Subsection = u8;

    ghost format = { stream.format ticks_per_second };

    ghost numbered = { λ number. number };

    fn lawful() {}

    fn writes(edition: u32) -> u32 {
        if edition >= WRITES_LAST { LAST } else { FIRST }
    }

    fn takes(edition: u32, version: u32) -> bool {
        (FIRST..=Rtc::writes(edition)).contains(&version)
    }

    fn subsections() -> &'static [u8] {
        &[]
    }

    fn number(subsection: u8) -> u8 {
        subsection
    }

    fn knows(edition: u32, subsection: u8) -> bool {
        false
    }

    fn title(subsection: u8) -> &'static [u8] {
        b""
    }

    fn body_size(version: u32) -> usize {
        body::size(version)
    }

    fn subsection_size(subsection: u8) -> usize {
        0
    }

    fn needs(&self, subsection: u8) -> bool {
        false
    }

    fn off_default(&self, version: u32) -> Option<u16> {
        self.state.left_out(version)
    }

    // A body with every field begins with that of any version.
    fn write_body(&self, version: u32, out: &mut [u8]) {
        out.copy_from_slice(&self.state.body()[..body::size(version)]);
    }

    fn write_subsection(&self, subsection: u8, out: &mut [u8]) {}

    fn check_body(version: u32, body: &[u8]) -> Result<(), u16> {
        RtcState::read(&body::complete(version, body))?;
        Ok(())
    }

    fn check_subsection(version: u32, body: &[u8], subsection: u8, own: &[u8]) -> Result<(), u16> {
        Ok(())
    }

    fn is_needed(version: u32, body: &[u8], subsection: u8, own: &[u8]) -> bool {
        false
    }

    fn adopt(
        &mut self,
        version: u32,
        body: &[u8],
        subsections: &[Option<&[u8]>],
    ) -> Result<(), NotAdopted> {
        let body = body::complete(version, body);
        self.state = RtcState::read(&body).map_err(|_| NotAdopted)?;
        Ok(())
    }

    ghost known = { λ _ few. Prim.omega arith };
}

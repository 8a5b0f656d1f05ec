// A body of the clock: its fields, one after another.
ghost use Rattle.std.specs.Prelude.{◌≡◌, length, IfOk};
ghost use Rattle.std.specs.Result.{result_ok, result_err};
ghost use Rattle.device.specs.Bytes.{total};
ghost use Rattle.rtc.specs.Rtc.{Sound, ticks_per_second};
ghost use Rattle.rtc.specs.Stream as stream;

use crate::RATE;
use crate::registers::{REG_A, REG_B, UF, stored_b};
use crate::state::{PLACES, RtcState};
use device::bytes::padded;
use device::numbers::{number, put_number};

// The versions: the last has every field, the first has no flags.
pub(crate) const FIRST: u32 = 1;

pub(crate) const LAST: u32 = 2;

// Where each field begins, and where the last field ends.
const INDEX: usize = 0;

const REGISTERS: usize = 1;

const PHASE: usize = 63;

const FLAGS: usize = 67;

const END: usize = 68;

// The numbers of the fields that can be refused. They stay numbers: a check answers one, whatever the kind.
const INDEX_FIELD: u16 = 0;

const A_FIELD: u16 = 11;

const B_FIELD: u16 = 12;

const PHASE_FIELD: u16 = 63;

const FLAGS_FIELD: u16 = 64;

// The highest index, and the highest byte in register A.
const INDEX_MAX: u8 = 63;

const A_MAX: u8 = 127;

// How many bytes a body has. One without flags ends where they would begin.
pub(crate) fn size(version: u32) -> usize
    ensures { result ≡ total (stream.fields version) }
{
    if version >= LAST { END } else { FLAGS }
}

// A body with every field: absent flags are 0. Each kind has this row of its own table of versions. The version says how many bytes
// are taken, so that a body is not read as one of another version.
pub(crate) fn complete(version: u32, body: &[u8]) -> [u8; END]
    requires { length body.now ≡ total (stream.fields version) }
    ensures { result ≡ stream.complete version body.now }
{
    padded(&body[..size(version)])
}

impl RtcState {
    // The body with every field.
    pub(crate) fn body(&self) -> [u8; END]
        ensures { result ≡ stream.body 2 self.now }
    {
        let mut body = [0; END];
        body[INDEX] = self.index;
        put_number(&mut body[PHASE..FLAGS], self.phase);
        body[FLAGS] = self.flags();
        body[REGISTERS..PHASE].copy_from_slice(&self.registers);
        body
    }

    // The field that a version leaves out, if it is off its default.
    pub(crate) fn left_out(&self, version: u32) -> Option<u16>
        ensures { result ≡ stream.left_out version self.now }
    {
        (version < LAST && self.updated).then_some(FLAGS_FIELD)
    }

    // The state that a complete body gives, or the first refused field.
    pub(crate) fn read(body: &[u8; END]) -> Result<RtcState, u16>
        ensures adopted { result_ok result ≡ stream.adopted ticks_per_second body.now }
        ensures refused { result_err result ≡ stream.refused ticks_per_second body.now }
        ensures sound { IfOk result (Sound ticks_per_second) }
    {
        let state = RtcState::of_fields(body);
        state.check(body[FLAGS])?;
        Ok(state)
    }

    // The state that a complete body stands for, whether or not its fields pass.
    fn of_fields(body: &[u8; END]) -> RtcState
        ensures { result ≡ stream.state_of body.now }
    {
        // Copied out: by `*array(..)` a check took three times as long.
        let mut registers = [0; PLACES];
        registers.copy_from_slice(&body[REGISTERS..PHASE]);
        RtcState {
            index: body[INDEX],
            registers,
            phase: number(&body[PHASE..FLAGS]),
            updated: body[FLAGS] == UF,
        }
    }

    // Refuses the first field of the state, or the flags that it was read with, that does not pass.
    fn check(&self, flags: u8) -> Result<(), u16>
        ensures is { result_err result ≡ stream.first_refused (stream.checks ticks_per_second self.now flags) }
        ensures sound { IfOk result (λ _. Sound ticks_per_second self.now) }
    {
        if self.index > INDEX_MAX {
            return Err(INDEX_FIELD);
        }
        if self.registers[REG_A] > A_MAX {
            return Err(A_FIELD);
        }
        let b = self.registers[REG_B];
        if stored_b(b) != b {
            return Err(B_FIELD);
        }
        if self.phase >= RATE {
            return Err(PHASE_FIELD);
        }
        if flags != 0 && flags != UF {
            return Err(FLAGS_FIELD);
        }
        Ok(())
    }
}

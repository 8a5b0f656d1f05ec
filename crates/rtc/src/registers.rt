// The registers of the clock, and what its guest's calls do to them.
ghost use Rattle.std.specs.Prelude.{◌≡◌, ◌≢◌, ◌<◌};
ghost use Rattle.device.specs.Bytes.{bit as bit_of};
ghost use Rattle.rtc.specs.Rtc as rules;
ghost use Rattle.rtc.specs.declared.registers.Register.TheVariants.{Index, Held, Flags, Valid};

use crate::state::{PLACES, RtcState};
use crate::time::{self, Coding};
use crate::{RATE, Rtc};
use device::bits::bit;

// The places of the date's registers, which stand at 1 in a fresh clock, and of the control registers A and B.
const WEEKDAY: usize = 6;

const DAY: usize = 7;

const MONTH: usize = 8;

pub(crate) const REG_A: usize = 10;

pub(crate) const REG_B: usize = 11;

// The numbers of the control registers C and D, which have no place.
const REG_C: u8 = 12;

const REG_D: u8 = 13;

// Bits of register B: SET holds updates off, UIE asks for an interrupt after each, DM makes codes binary.
const SET: u8 = 7;

const UIE: u8 = 4;

const DM: u8 = 2;

// What a write to register B keeps of a byte, what it keeps with SET, and what stands there always.
const B_KEPT: u8 = 0xb4;

const B_KEPT_HELD: u8 = 0xa4;

const B_ALWAYS: u8 = 0x02;

// Register C: the update flag UF, and the interrupt flag IRQF. Register D: time and memory are valid, VRT.
pub(crate) const UF: u8 = 0x10;

const IRQF: u8 = 0x80;

pub(crate) const VRT: u8 = 0x80;

// What a guest's call reaches.
pub(crate) enum Register {
    Index,
    // A register that holds something, by its place among those that do.
    Held(usize),
    // Register C.
    Flags,
    // Register D.
    Valid,
}

// What a write to register B stores.
pub(crate) fn stored_b(value: u8) -> u8
    ensures { result ≡ rules.stored_b value }
{
    let kept = if bit(SET, value) { B_KEPT_HELD } else { B_KEPT };
    value & kept | B_ALWAYS
}

// What a write stores at a place.
pub(crate) fn stored(place: usize, value: u8) -> u8
    ensures { result ≡ rules.stored place value }
{
    match place {
        REG_A => value % 128,
        REG_B => stored_b(value),
        _ => value,
    }
}

impl Rtc {
    // What a call at an offset reaches.
    pub(crate) fn register(&self, offset: u32) -> Register
        ensures { elim result [
          | Index ↦ offset ≡ 0
          | Held place ↦ (offset ≢ 0) × (self.now.state.index ≢ rules.reg_c) × (self.now.state.index ≢ rules.reg_d) × (place ≡ rules.slot self.now.state.index)
          | Flags ↦ (offset ≢ 0) × (self.now.state.index ≡ rules.reg_c)
          | Valid ↦ (offset ≢ 0) × (self.now.state.index ≡ rules.reg_d)
        ] }
    {
        if offset == 0 {
            return Register::Index;
        }
        match self.state.index {
            REG_C => Register::Flags,
            REG_D => Register::Valid,
            number if number < REG_C => Register::Held(usize::from(number)),
            number => Register::Held(usize::from(number) - 2),
        }
    }
}

impl RtcState {
    pub(crate) fn fresh() -> RtcState
        ensures { result ≡ rules.fresh }
    {
        let mut registers = [0; PLACES];
        registers[WEEKDAY] = 1;
        registers[DAY] = 1;
        registers[MONTH] = 1;
        registers[REG_A] = 0x26;
        registers[REG_B] = B_ALWAYS;
        RtcState {
            index: 0,
            registers,
            phase: 0,
            updated: false,
        }
    }

    // Bit k of register B.
    fn control(&self, k: u8) -> bool
        requires { k < 8 }
        ensures { result ≡ bit_of k (rules.register self.now rules.reg_b) }
    {
        bit(k, self.registers[REG_B])
    }

    pub(crate) fn line(&self) -> bool
        ensures { result ≡ rules.line self.now }
    {
        self.updated && self.control(UIE)
    }

    // Register C without its highest bit.
    pub(crate) fn flags(&self) -> u8
        ensures { result ≡ rules.flags self.now }
    {
        if self.updated { UF } else { 0 }
    }

    // Register C; reading it clears the update flag.
    pub(crate) fn read_flags(&mut self) -> u8
        ensures { (result, self.new) ≡ rules.read_register self.old rules.reg_c }
    {
        let asking = if self.line() { IRQF } else { 0 };
        let flags = self.flags();
        self.updated = false;
        flags + asking
    }

    // Ends a second: an update runs, unless register B holds it off.
    fn end_second(&mut self)
        ensures { self.new ≡ rules.ended self.old }
    {
        if self.control(SET) {
            return;
        }
        let coding = Coding {
            binary: self.control(DM),
        };
        time::advance_second(coding, &mut self.registers);
        self.updated = true;
    }

    // Passes clock ticks.
    pub(crate) fn tick(&mut self, ticks: u16)
        requires { self.old.phase < rules.ticks_per_second }
        ensures { self.new ≡ rules.tick rules.ticks_per_second self.old ticks }
    {
        self.phase += u32::from(ticks);
        if self.phase >= RATE {
            self.phase -= RATE;
            self.end_second();
        }
    }
}

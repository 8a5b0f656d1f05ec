// The clock chip, after the MC146818: an index register, and the registers behind it.
#![tactic(auto)]

mod body;
mod registers;
pub mod state;
mod stream;
mod time;

ghost use Rattle.std.specs.Prelude.{◌≡◌};
ghost use Rattle.rtc.specs.Rtc as rules;
ghost use Rattle.rtc.specs.Rtc.{Sound, ticks_per_second};
ghost use Rattle.rtc.specs.Time.{KeepsTime};
ghost use Rattle.rtc.specs.Worked.{Midnight};
ghost use native.Mathlib.Omega.{arith};

use self::registers::{Register, VRT, stored};
use self::state::RtcState;
use device::Device;

// The clock ticks of a second.
const RATE: u32 = 1193182;

// The offsets: the index, and the register that it points to.
const WIDTH: u32 = 2;

#[derive(Drop)]
pub struct Rtc {
    state: RtcState,
    ghost sound: { Sound ticks_per_second state },
}

impl Rtc {
    pub fn new() -> Rtc
        ensures { result.state ≡ rules.fresh }
    {
        Rtc {
            state: RtcState::fresh(),
        }
    }
}

impl Device for Rtc {
    type State = RtcState;

    ghost kind = { rules.kind ticks_per_second };

    ghost meaning = { λ s. s.state };

    fn closed() {}

    fn name() -> &'static [u8] {
        b"rtc"
    }

    fn width() -> u32 {
        WIDTH
    }

    fn has_input() -> bool {
        false
    }

    fn reset(&mut self) {
        self.state = RtcState::fresh();
    }

    fn read(&mut self, offset: u32) -> u8 {
        match self.register(offset) {
            Register::Index => self.state.index,
            Register::Held(place) => self.state.registers[place],
            Register::Flags => self.state.read_flags(),
            Register::Valid => VRT,
        }
    }

    fn write(&mut self, offset: u32, byte: u8) -> Option<u8> {
        match self.register(offset) {
            Register::Index => self.state.index = byte % 64,
            Register::Held(place) => self.state.registers[place] = stored(place, byte),
            Register::Flags | Register::Valid => {}
        }
        None
    }

    // A clock has no input; it asks for none here, so that this is a call that can be made.
    fn feed(&mut self, byte: u8)
        ensures { self.new.state ≡ (rules.kind ticks_per_second).feed self.old.state byte }
    {}

    fn tick(&mut self, ticks: u16) {
        self.state.tick(ticks)
    }

    fn line(&self) -> bool {
        self.state.line()
    }

    ghost span = { (Prim.omega arith, Prim.omega arith) };

    ghost sound = { λ clock. clock.sound };
}

// Does nothing: it promises a theorem on the rules, that an update shows the next second of the day.
pub fn keeps_time()
    ensures { KeepsTime }
{}

// Does nothing: it promises a theorem on the rules, what an update at 23:59:59 gives.
pub fn midnight()
    ensures { Midnight }
{}

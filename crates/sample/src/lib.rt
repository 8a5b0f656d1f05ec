// A small device, as an example for those who make one: a dial that is read, turned and ticked.
#![tactic(auto)]

pub mod state;
mod stream;

ghost use Rattle.std.specs.Prelude.{◌≡◌, ◌<◌};
ghost use Rattle.sample.specs.Dial.{dial};
ghost use native.Mathlib.Omega.{arith};

use device::Device;
use state::DialState;

// How many places a dial has.
const PLACES: u8 = 64;

#[derive(Drop)]
pub struct Dial {
    state: DialState,
    ghost small: { state.index < 64 },
}

impl Device for Dial {
    type State = DialState;

    ghost kind = { dial };

    ghost meaning = { λ d. d.state };

    fn closed() {}

    fn name() -> &'static [u8] {
        b"dial"
    }

    fn width() -> u32 {
        1
    }

    fn has_input() -> bool {
        false
    }

    fn reset(&mut self) {
        self.state = DialState::default();
    }

    fn read(&mut self, offset: u32) -> u8 {
        self.state.index
    }

    fn write(&mut self, offset: u32, byte: u8) -> Option<u8> {
        self.state.index = byte % PLACES;
        self.state.turned = true;
        None
    }

    // A dial has no input; it asks for none here, so that this is a call that can be made.
    fn feed(&mut self, byte: u8)
        ensures { self.new ≡ self.old }
    {}

    fn tick(&mut self, ticks: u16) {
        self.state.latch = true;
    }

    fn line(&self) -> bool {
        self.state.turned
    }

    ghost span = { (Prim.omega arith, Prim.omega arith) };

    ghost sound = { λ d. d.small };
}

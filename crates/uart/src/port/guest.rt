// What the guest sees of the serial port.
ghost use Rattle.std.specs.Prelude.{◌≡◌};
ghost use native.Mathlib.Omega.{arith};
ghost use Rattle.uart.specs.Uart as rules;
ghost use Rattle.uart.specs.View.{view};

use super::Uart;
use crate::queue::Queue;
use crate::state::{Register, UartState};
use device::Device;

// What the modem status always is.
const MODEM_READY: u8 = 0xB0;

impl Uart {
    // A serial port in its fresh state.
    pub fn new() -> Uart
        ensures { view result ≡ rules.fresh }
    {
        Uart {
            state: UartState {
                dll: 0,
                dlm: 0,
                ier: 0,
                lcr: 0,
                mcr: 0,
                scr: 0,
                oe: false,
                fe: false,
                ti: false,
                queue: Queue::new(),
            },
        }
    }
}

// How many bytes the queue can hold, by FE.
pub(super) fn capacity(fe: bool) -> u8
    ensures { result ≡ rules.capacity fe }
{
    if fe { 16 } else { 1 }
}

impl Device for Uart {
    type State = UartState;

    ghost kind = { rules.kind };

    ghost meaning = { view };

    fn closed() {}

    fn name() -> &'static [u8] {
        b"uart"
    }

    fn width() -> u32 {
        8
    }

    fn has_input() -> bool {
        true
    }

    fn reset(&mut self) {
        *self = Uart::new();
    }

    fn read(&mut self, offset: u32) -> u8 {
        match self.register(offset) {
            Register::Data => self.state.queue.pop().unwrap_or(0),
            Register::InterruptEnable => self.state.ier,
            Register::DivisorLow => self.state.dll,
            Register::DivisorHigh => self.state.dlm,
            Register::Identification => self.read_identification(),
            Register::LineControl => self.state.lcr,
            Register::ModemControl => self.state.mcr,
            Register::LineStatus => self.read_line_status(),
            Register::ModemStatus => MODEM_READY,
            Register::Scratch => self.state.scr,
        }
    }

    fn write(&mut self, offset: u32, byte: u8) -> Option<u8> {
        match self.register(offset) {
            Register::Data => {
                self.state.ti = true;
                return Some(byte);
            }
            Register::InterruptEnable => self.write_enable(byte),
            Register::DivisorLow => self.state.dll = byte,
            Register::DivisorHigh => self.state.dlm = byte,
            Register::Identification => self.write_control(byte),
            Register::LineControl => self.state.lcr = byte,
            Register::ModemControl => self.state.mcr = byte % 32,
            Register::LineStatus | Register::ModemStatus => {}
            Register::Scratch => self.state.scr = byte,
        }
        None
    }

    fn feed(&mut self, byte: u8) {
        if self.state.queue.len() < usize::from(capacity(self.state.fe)) {
            self.state.queue.push(byte);
        } else {
            self.state.oe = true;
            if !self.state.fe {
                self.state.queue = Queue::filled(&[byte]);
            }
        }
    }

    fn tick(&mut self, ticks: u16) {}

    fn line(&self) -> bool {
        self.pending().is_some()
    }

    ghost span = { (omega arith, omega arith) };

    ghost sound = { λ port. port.sound };
}

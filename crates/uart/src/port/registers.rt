// The registers of the serial port.
ghost use Rattle.std.specs.Prelude.{◌≡◌, ◌<◌};
ghost use Rattle.uart.specs.Uart as rules;
ghost use Rattle.uart.specs.View.{view};

use super::Uart;
use crate::queue::Queue;
use crate::state::{Interrupt, Register};
use device::bits::bit;

// Bits of the interrupt enable register.
const RECEIVED_ENABLE: u8 = 0;

pub(super) const TRANSMITTER_ENABLE: u8 = 1;

const OVERRUN_ENABLE: u8 = 2;

// Bits that are written to control the queue.
const QUEUE_ENABLE: u8 = 0;

const QUEUE_CLEAR: u8 = 1;

// The bit of the line control register that gives access to the divisor.
const DIVISOR_ACCESS: u8 = 7;

// What is added to the identification while the queue is enabled.
const QUEUE_ENABLED: u8 = 0xC0;

// What a guest reads while no interrupt is pending.
const NO_INTERRUPT: u8 = 1;

// What the line status is made of.
const TRANSMITTER_IDLE: u8 = 0x60;

const DATA_READY: u8 = 1;

const OVERRUN: u8 = 2;

impl Register {
    // What an offset reaches, by the divisor access bit. No From: a pair would lose the names of its two values.
    fn at(access: bool, offset: u32) -> Register
        ensures { result ≡ rules.register access offset }
    {
        match (offset, access) {
            (0, true) => Register::DivisorLow,
            (0, false) => Register::Data,
            (1, true) => Register::DivisorHigh,
            (1, false) => Register::InterruptEnable,
            (2, _) => Register::Identification,
            (3, _) => Register::LineControl,
            (4, _) => Register::ModemControl,
            (5, _) => Register::LineStatus,
            (6, _) => Register::ModemStatus,
            _ => Register::Scratch,
        }
    }
}

// The number that a guest reads for the pending interrupt. No From: it stands for none too.
fn identification(pending: Option<Interrupt>) -> u8
    ensures number { result ≡ rules.identification pending }
    ensures small { result < 8 }
{
    pending.map_or(NO_INTERRUPT, |interrupt| interrupt as u8)
}

impl Uart {
    // The register that an offset reaches.
    pub(super) fn register(&self, offset: u32) -> Register
        ensures { result ≡ rules.register (rules.divisor_access (view self.now)) offset }
    {
        Register::at(bit(DIVISOR_ACCESS, self.state.lcr), offset)
    }

    // Whether a byte waits.
    pub(super) fn waiting(&self) -> bool
        ensures { result ≡ rules.waiting (view self.now) }
    {
        self.state.queue.len() > 0
    }

    // The enabled interrupt that comes first.
    pub(super) fn pending(&self) -> Option<Interrupt>
        ensures { result ≡ rules.pending (view self.now) }
    {
        if bit(OVERRUN_ENABLE, self.state.ier) && self.state.oe {
            Some(Interrupt::Overrun)
        } else if bit(RECEIVED_ENABLE, self.state.ier) && self.waiting() {
            Some(Interrupt::Received)
        } else if bit(TRANSMITTER_ENABLE, self.state.ier) && self.state.ti {
            Some(Interrupt::TransmitterEmpty)
        } else {
            None
        }
    }

    // Answers the pending interrupt's number. That of the transmitter is over once it has been answered.
    pub(super) fn read_identification(&mut self) -> u8
        ensures { (result, view self.new) ≡ rules.read_identification (view self.old) }
    {
        let pending = self.pending();
        if let Some(Interrupt::TransmitterEmpty) = pending {
            self.state.ti = false;
        }
        let number = identification(pending);
        if self.state.fe {
            number + QUEUE_ENABLED
        } else {
            number
        }
    }

    pub(super) fn read_line_status(&mut self) -> u8
        ensures { (result, view self.new) ≡ rules.read_line_status (view self.old) }
    {
        let mut status = TRANSMITTER_IDLE;
        if self.waiting() {
            status += DATA_READY;
        }
        if self.state.oe {
            status += OVERRUN;
        }
        self.state.oe = false;
        status
    }

    // Enabling the transmitter's interrupt sets its latch.
    pub(super) fn write_enable(&mut self, byte: u8)
        ensures { view self.new ≡ rules.write_enable (view self.old) byte }
    {
        if bit(TRANSMITTER_ENABLE, byte) && !bit(TRANSMITTER_ENABLE, self.state.ier) {
            self.state.ti = true;
        }
        self.state.ier = byte % 16;
    }

    // Enables or disables the queue, and empties it where that changes or the guest asks for it.
    pub(super) fn write_control(&mut self, byte: u8)
        ensures { view self.new ≡ rules.write_control (view self.old) byte }
    {
        let enable = bit(QUEUE_ENABLE, byte);
        if self.state.fe != enable || enable && bit(QUEUE_CLEAR, byte) {
            self.state.queue = Queue::new();
        }
        self.state.fe = enable;
    }
}

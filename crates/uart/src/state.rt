// The words of the serial port's rules.
use crate::queue::Queue;

// A state of the serial port.
#[derive(Drop)]
pub struct UartState {
    pub dll: u8,
    pub dlm: u8,
    pub ier: u8,
    pub lcr: u8,
    pub mcr: u8,
    pub scr: u8,
    pub oe: bool,
    pub fe: bool,
    pub ti: bool,
    pub queue: Queue,
}

// What an offset reaches.
#[derive(Clone, Copy)]
pub enum Register {
    Data,
    InterruptEnable,
    DivisorLow,
    DivisorHigh,
    // Read, it identifies the pending interrupt; written, it controls the queue.
    Identification,
    LineControl,
    ModemControl,
    LineStatus,
    ModemStatus,
    Scratch,
}

// Why the line is raised; the number is what a guest reads.
#[derive(Clone, Copy)]
pub enum Interrupt {
    Overrun = 6,
    Received = 4,
    TransmitterEmpty = 2,
}

// What travels beside the body, where it is needed.
#[derive(Clone, Copy, PartialEq, Eq, Debug)]
pub enum UartSubsection {
    Fifo,
    Latch,
}

// The 16550A serial port.
#![tactic(auto)]

pub use port::Uart;
pub use state::{Interrupt, Register, UartState, UartSubsection};

mod port;
mod queue;
mod state;

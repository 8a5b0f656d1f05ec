// The serial port.
ghost use Rattle.uart.specs.Uart.{Sound};

use crate::state::UartState;

mod guest;
mod registers;
mod stream;

#[derive(Drop)]
pub struct Uart {
    state: UartState,
    ghost sound: { Sound state },
}

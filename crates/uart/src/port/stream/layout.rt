// The layout of the serial port's section: where its fields stand, its subsections and their defaults.
ghost use Rattle.std.specs.Prelude.{◌≡◌};
ghost use Rattle.device.specs.Format.{title as title_of, sub_size};
ghost use Rattle.uart.specs.Stream as stream;
ghost use Rattle.uart.specs.declared.state.UartSubsection.TheVariants.{Latch};

use crate::port::registers::TRANSMITTER_ENABLE;
use crate::state::UartSubsection;
use device::bits::bit;

// The one version of the section.
pub const VERSION: u32 = 1;

// The fields of the body that are checked, by their places: a check answers a number, whatever the kind.
pub const IER: usize = 2;

pub const MCR: usize = 4;

pub const OE: usize = 6;

pub const BODY_SIZE: usize = 7;

// The fields of uart/fifo. From BYTES on there is one for each byte that can wait.
pub const FE: usize = 0;

pub const COUNT: usize = 1;

pub const BYTES: usize = 2;

pub const FIFO_SIZE: usize = 18;

// What stands for uart/fifo where it is absent.
pub const FIFO_DEFAULT: [u8; FIFO_SIZE] = [0; FIFO_SIZE];

// The field of uart/latch.
pub const TI: usize = 0;

pub const LATCH_SIZE: usize = 1;

// What stands for uart/latch where it is absent beside a body.
pub fn latch_default(body: &[u8; BODY_SIZE]) -> [u8; LATCH_SIZE]
    ensures { result ≡ stream.default Latch body.now }
{
    [u8::from(bit(TRANSMITTER_ENABLE, body[IER]))]
}

// Columns of one table: their types and contracts differ.
impl UartSubsection {
    // The first edition that knows it.
    pub(super) fn known_from(self) -> u32
        ensures { result ≡ stream.known_from self }
    {
        match self {
            UartSubsection::Fifo => 1,
            UartSubsection::Latch => 2,
        }
    }

    // Its name in a stream.
    pub(super) fn title(self) -> &'static [u8]
        ensures { result.now ≡ title_of stream.format (stream.number self) }
    {
        match self {
            UartSubsection::Fifo => b"uart/fifo",
            UartSubsection::Latch => b"uart/latch",
        }
    }

    // How many bytes it has.
    pub(super) fn size(self) -> usize
        ensures { result ≡ sub_size stream.format (stream.number self) }
    {
        match self {
            UartSubsection::Fifo => FIFO_SIZE,
            UartSubsection::Latch => LATCH_SIZE,
        }
    }
}

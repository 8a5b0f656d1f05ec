// Which bodies and subsections of the serial port pass.
ghost use Rattle.std.specs.Prelude.{◌≡◌, ◌+◌, ◌^◌, ◌<◌, length, drop};
ghost use Rattle.std.specs.Result.{result_err};
ghost use Rattle.uart.specs.Stream as stream;
ghost use Rattle.uart.specs.declared.state.UartSubsection.TheVariants.{Fifo, Latch};

use super::layout::{BODY_SIZE, BYTES, COUNT, FE, FIFO_SIZE, IER, LATCH_SIZE, MCR, OE, TI};
use crate::port::guest::capacity;

// The highest values of fields that do not take every byte.
const IER_MAX: u8 = 15;

const MCR_MAX: u8 = 31;

const FLAG_MAX: u8 = 1;

// A field, refused where it is above `top`. No From leads from a place to a field's number: `as`.
fn above(fields: &[u8], field: usize, top: u8) -> Result<(), u16>
    requires { (field < length fields.now) × (field < 2 ^ 16) }
    ensures { result_err result ≡ stream.within fields.now field top None }
{
    if fields[field] > top {
        return Err(field as u16);
    }
    Ok(())
}

// The first field from number `from` on that is not 0. Its number is narrowed as above.
fn nonzero(from: usize, fields: &[u8]) -> Option<u16>
    requires { from + length fields.now < 2 ^ 16 }
    ensures { result ≡ stream.zeros from (drop from fields.now) }
{
    let place = fields.iter().skip(from).position(|field| *field != 0)?;
    Some((from + place) as u16)
}

// Passes a body, or answers its first refused field.
pub fn check_body(body: &[u8; BODY_SIZE]) -> Result<(), u16>
    ensures { result_err result ≡ stream.check_body body.now }
{
    above(body, IER, IER_MAX)?;
    above(body, MCR, MCR_MAX)?;
    above(body, OE, FLAG_MAX)
}

// Passes uart/fifo, or answers its first refused field.
pub fn check_fifo(fifo: &[u8; FIFO_SIZE]) -> Result<(), u16>
    ensures { result_err result ≡ stream.check_sub Fifo fifo.now }
{
    above(fifo, FE, FLAG_MAX)?;
    above(fifo, COUNT, capacity(fifo[FE] == 1))?;
    nonzero(BYTES + usize::from(fifo[COUNT]), fifo).map_or(Ok(()), Err)
}

// Passes uart/latch, or answers its first refused field.
pub fn check_latch(latch: &[u8; LATCH_SIZE]) -> Result<(), u16>
    ensures { result_err result ≡ stream.check_sub Latch latch.now }
{
    above(latch, TI, FLAG_MAX)
}

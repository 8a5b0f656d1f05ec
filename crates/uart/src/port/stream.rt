// How the serial port's state travels.
ghost use Rattle.std.specs.Prelude.{◌≡◌, length};
ghost use Rattle.device.specs.Format.{needs as needs_in};
ghost use Rattle.uart.specs.Stream as stream;
ghost use Rattle.uart.specs.View.{view};
ghost use Rattle.uart.specs.declared.state.UartSubsection.TheVariants.{Fifo, Latch};
ghost use native.Mathlib.Omega.{arith};

use super::Uart;
use super::registers::TRANSMITTER_ENABLE;
use crate::state::UartSubsection;
use check::{check_body, check_fifo, check_latch};
use device::adoption::NotAdopted;
use device::bits::bit;
use device::bytes::array;
use device::{Device, Movable};
use layout::{BODY_SIZE, BYTES, COUNT, FE, FIFO_DEFAULT, VERSION, latch_default};

mod adopt;
mod check;
mod layout;

impl Uart {
    // Whether the queue is enabled or a byte waits.
    fn needs_fifo(&self) -> bool
        ensures { result ≡ needs_in stream.format (view self.now) (stream.number Fifo) }
    {
        self.state.fe || self.waiting()
    }

    // Whether the latch is not what IER makes of it.
    fn needs_latch(&self) -> bool
        ensures { result ≡ needs_in stream.format (view self.now) (stream.number Latch) }
    {
        self.state.ti != bit(TRANSMITTER_ENABLE, self.state.ier)
    }

    // Here and in `write_latch` a slice with a `requires` stays, as the trait lends it: an array would only be copied to it.
    fn write_fifo(&self, out: &mut [u8])
        requires { length out.old ≡ 18 }
        ensures { out.new ≡ stream.sub Fifo (view self.now) }
    {
        out[FE] = u8::from(self.state.fe);
        // At most 16 bytes wait, and no From narrows.
        out[COUNT] = self.state.queue.len() as u8;
        self.state.queue.write(&mut out[BYTES..]);
    }

    fn write_latch(&self, out: &mut [u8])
        requires { length out.old ≡ 1 }
        ensures { out.new ≡ stream.sub Latch (view self.now) }
    {
        out.copy_from_slice(&[u8::from(self.state.ti)]);
    }
}

impl Movable for Uart {
    type Subsection = UartSubsection;

    ghost format = { stream.format };

    ghost numbered = { stream.number };

    fn lawful() {}

    fn writes(edition: u32) -> u32 {
        VERSION
    }

    fn takes(edition: u32, version: u32) -> bool {
        version == VERSION
    }

    fn knows(edition: u32, subsection: UartSubsection) -> bool {
        edition >= subsection.known_from()
    }

    fn subsections() -> &'static [UartSubsection] {
        &[UartSubsection::Fifo, UartSubsection::Latch]
    }

    fn number(subsection: UartSubsection) -> u8 {
        subsection as u8
    }

    fn title(subsection: UartSubsection) -> &'static [u8] {
        subsection.title()
    }

    fn body_size(version: u32) -> usize {
        BODY_SIZE
    }

    fn subsection_size(subsection: UartSubsection) -> usize {
        subsection.size()
    }

    fn needs(&self, subsection: UartSubsection) -> bool {
        match subsection {
            UartSubsection::Fifo => self.needs_fifo(),
            UartSubsection::Latch => self.needs_latch(),
        }
    }

    // Every version has every field.
    fn off_default(&self, version: u32) -> Option<u16> {
        None
    }

    fn write_body(&self, version: u32, out: &mut [u8]) {
        out.copy_from_slice(&[
            self.state.dll,
            self.state.dlm,
            self.state.ier,
            self.state.lcr,
            self.state.mcr,
            self.state.scr,
            u8::from(self.state.oe),
        ]);
    }

    fn write_subsection(&self, subsection: UartSubsection, out: &mut [u8]) {
        match subsection {
            UartSubsection::Fifo => self.write_fifo(out),
            UartSubsection::Latch => self.write_latch(out),
        }
    }

    fn check_body(version: u32, body: &[u8]) -> Result<(), u16> {
        check_body(array(body))
    }

    fn check_subsection(
        version: u32,
        body: &[u8],
        subsection: UartSubsection,
        own: &[u8],
    ) -> Result<(), u16> {
        match subsection {
            UartSubsection::Fifo => check_fifo(array(own)),
            UartSubsection::Latch => check_latch(array(own)),
        }
    }

    fn is_needed(version: u32, body: &[u8], subsection: UartSubsection, own: &[u8]) -> bool {
        match subsection {
            UartSubsection::Fifo => own != FIFO_DEFAULT.as_slice(),
            UartSubsection::Latch => own != latch_default(array(body)).as_slice(),
        }
    }

    fn adopt(
        &mut self,
        version: u32,
        body: &[u8],
        subsections: &[Option<&[u8]>],
    ) -> Result<(), NotAdopted> {
        self.adopt_section(array(body), subsections)
    }

    ghost known = { elim [ Fifo ↦ λ some. omega arith | Latch ↦ λ some. omega arith ] };
}

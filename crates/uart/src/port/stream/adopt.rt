// How a serial port takes on what a section says.
ghost use Rattle.std.specs.Prelude.{◌≡◌, ◌<◌, ◌≤◌, ◌↔◌, true, take, drop, ◌==◌, slice_index, IsOk, OnOk};
ghost use Rattle.device.specs.Table.{Table, section_of, adopting};
ghost use Rattle.uart.specs.Stream as stream;
ghost use Rattle.uart.specs.Uart.{capacity};
ghost use Rattle.uart.specs.View.{view};

use super::check::{check_body, check_fifo, check_latch};
use super::layout::{
    BODY_SIZE, BYTES, COUNT, FE, FIFO_DEFAULT, FIFO_SIZE, LATCH_SIZE, TI, latch_default,
};
use crate::port::Uart;
use crate::queue::Queue;
use crate::state::{UartState, UartSubsection};
use device::adoption::NotAdopted;
use device::bytes::array;

// What a section says: its body, and its subsections or what stands for them.
#[derive(Clone, Copy)]
struct Parts<'a> {
    body: &'a [u8; BODY_SIZE],
    fifo: &'a [u8; FIFO_SIZE],
    latch: &'a [u8; LATCH_SIZE],
}

impl Parts<'_> {
    // Passes where all three pass; then the fields are in their spans.
    fn check(&self) -> Result<(), NotAdopted>
        ensures answer { IsOk result ↔ (stream.passing self.now.body.now self.now.fifo.now self.now.latch.now ≡ true) }
        ensures ier { OnOk result (slice_index self.now.body.now 2 < 16) }
        ensures mcr { OnOk result (slice_index self.now.body.now 4 < 32) }
        ensures count { OnOk result (slice_index self.now.fifo.now 1 ≤ capacity (slice_index self.now.fifo.now 0 == 1)) }
    {
        check_body(self.body).map_err(|_| NotAdopted)?;
        check_fifo(self.fifo).map_err(|_| NotAdopted)?;
        check_latch(self.latch).map_err(|_| NotAdopted)
    }

    // The queue of a uart/fifo that has passed.
    fn queue(&self) -> Queue
        requires { slice_index self.now.fifo.now 1 ≤ 16 }
        ensures { result ≡ take (slice_index self.now.fifo.now 1) (drop 2 self.now.fifo.now) }
    {
        let fifo = self.fifo;
        Queue::filled(&fifo[BYTES..BYTES + usize::from(fifo[COUNT])])
    }
}

impl Uart {
    // Takes on what passes.
    fn adopt_parts(&mut self, parts: &Parts<'_>) -> Result<(), NotAdopted>
        ensures { (result, view self.new) ≡ adopting (stream.adopt_parts parts.now.body.now parts.now.fifo.now parts.now.latch.now) (view self.old) }
    {
        parts.check()?;
        let [dll, dlm, ier, lcr, mcr, scr, oe] = *parts.body;
        self.state = UartState {
            dll,
            dlm,
            ier,
            lcr,
            mcr,
            scr,
            oe: oe == 1,
            fe: parts.fifo[FE] == 1,
            ti: parts.latch[TI] == 1,
            queue: parts.queue(),
        };
        Ok(())
    }

    // Takes on a body and the subsections beside it, an absent one at its default.
    pub(super) fn adopt_section(
        &mut self,
        body: &[u8; BODY_SIZE],
        subsections: &[Option<&[u8]>],
    ) -> Result<(), NotAdopted>
        requires { Table stream.format subsections.now }
        ensures { (result, view self.new) ≡ adopting (stream.adopt (section_of 1 body.now subsections.now)) (view self.old) }
    {
        // A subsection's number is its place: `as` gives the discriminant as an index.
        let default = latch_default(body);
        let fifo = subsections[UartSubsection::Fifo as usize].unwrap_or(&FIFO_DEFAULT);
        let latch = subsections[UartSubsection::Latch as usize].unwrap_or(&default);
        self.adopt_parts(&Parts {
            body,
            fifo: array(fifo),
            latch: array(latch),
        })
    }
}

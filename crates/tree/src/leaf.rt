// A device as a tree of its own.
ghost use Rattle.std.specs.Prelude.{◌≡◌};
ghost use Rattle.tree.specs.Calls.{leaf_calls};
ghost use Rattle.tree.specs.Tree.{leaf};

use crate::node::Node;
use device::{Device, Movable};
use fault::Fault;
use section::carrying;
use section::names::NamesBefore;
use section::size::section_size;
use section::writing::put_section;

#[derive(Drop)]
pub struct Leaf<D> {
    device: D,
}

impl<D> Leaf<D> {
    pub fn new(device: D) -> Leaf<D>
        ensures { result.device ≡ device }
    {
        Leaf { device }
    }
}

impl<D: Movable> Node for Leaf<D> {
    ghost model = { leaf D.Device.kind D.Movable.format };

    ghost calls = { leaf_calls D.Device.kind D.Movable.format };

    ghost state = { λ s. D.Device.meaning s.device };

    fn lawful() {
        D::lawful();
    }

    fn closed() {
        D::closed();
    }

    fn leaves() -> u64 {
        1
    }

    fn width() -> u64 {
        u64::from(D::width())
    }

    fn route(address: u32) -> (u32, u32) {
        (0, address)
    }

    fn has_input(address: u32) -> bool {
        D::has_input()
    }

    fn reset(&mut self) {
        self.device.reset();
    }

    fn read(&mut self, address: u32) -> u8 {
        self.device.read(address)
    }

    fn write(&mut self, address: u32, byte: u8) -> Option<u8> {
        self.device.write(address, byte)
    }

    fn feed(&mut self, address: u32, byte: u8) {
        self.device.feed(byte);
    }

    fn tick(&mut self, ticks: u16) {
        self.device.tick(ticks);
    }

    fn lines(&self) -> u16 {
        u16::from(self.device.line())
    }

    fn carried(&self, first: u8, edition: u32) -> Result<(), Fault> {
        carrying::carried(&self.device, first, edition)
    }

    fn sections_size(&self, edition: u32) -> usize {
        section_size(&self.device, edition)
    }

    fn write_sections(&self, edition: u32, before: &mut NamesBefore, out: &mut [u8]) -> usize {
        let n = put_section(&self.device, edition, before, out);
        before.push(D::name());
        n
    }

    ghost addressed = { D.Device.span.0 };

    ghost sound = { λ leaf. D.Device.sound leaf.device };
}

// Two trees side by side.
ghost use native.Mathlib.Omega.{arith};
ghost use Rattle.std.specs.Prelude.{◌≡◌, ◌+◌, ◌-◌, ◌*◌, ◌%◌, ◌^◌, ◌≤◌};
ghost use Rattle.std.specs.Option.{SomeIff};
ghost use Rattle.tree.specs.Calls.{bus_calls};
ghost use Rattle.tree.specs.Tree.{bus, leaves, lines, width};

use crate::node::Node;
use fault::Fault;
use section::names::NamesBefore;

// The right tree's addresses and leaves follow those of the left.
#[derive(Drop)]
pub struct Bus<L, R> {
    left: L,
    right: R,
}

impl<L, R> Bus<L, R> {
    pub fn new(left: L, right: R) -> Bus<L, R>
        ensures { (result.left ≡ left) × (result.right ≡ right) }
    {
        Bus { left, right }
    }
}

// The address inside the right tree of a bus over L, or none where the address is the left tree's. Here and below `as` narrows
// what is known to fit, since no From does.
fn beyond<L: Node>(address: u32) -> Option<u32>
    ensures { SomeIff result (width L.Node.model ≤ address) (address - width L.Node.model) }
{
    let rest = u64::from(address).checked_sub(L::width())?;
    Some(rest as u32)
}

// The lines of two trees side by side, of the first sixteen leaves.
fn lines_beside<L: Node, R: Node>(left: &L, right: &R) -> u16
    ensures { result ≡ (lines L.Node.model (L.Node.state left.now) + lines R.Node.model (R.Node.state right.now) * 2 ^ leaves L.Node.model) % 65536 }
{
    let below = L::leaves();
    if below >= 16 {
        return left.lines();
    }
    left.lines().wrapping_add(right.lines() << below)
}

// Each call asks `beyond` for itself: with the two sides as closures each would still name both.
impl<L: Node, R: Node> Node for Bus<L, R> {
    ghost model = { bus L.Node.model R.Node.model };

    ghost calls = { bus_calls L.Node.model R.Node.model L.Node.calls R.Node.calls };

    ghost state = { λ s. (L.Node.state s.left, R.Node.state s.right) };

    fn lawful() {
        L::lawful();
        R::lawful();
    }

    fn closed() {
        L::closed();
        R::closed();
    }

    fn leaves() -> u64 {
        L::leaves().saturating_add(R::leaves())
    }

    fn width() -> u64 {
        L::width().saturating_add(R::width())
    }

    fn route(address: u32) -> (u32, u32) {
        match beyond::<L>(address) {
            None => L::route(address),
            Some(rest) => {
                let (leaf, offset) = R::route(rest);
                (L::leaves() as u32 + leaf, offset)
            }
        }
    }

    fn has_input(address: u32) -> bool {
        match beyond::<L>(address) {
            None => L::has_input(address),
            Some(rest) => R::has_input(rest),
        }
    }

    fn reset(&mut self) {
        self.left.reset();
        self.right.reset();
    }

    fn read(&mut self, address: u32) -> u8 {
        match beyond::<L>(address) {
            None => self.left.read(address),
            Some(rest) => self.right.read(rest),
        }
    }

    fn write(&mut self, address: u32, byte: u8) -> Option<u8> {
        match beyond::<L>(address) {
            None => self.left.write(address, byte),
            Some(rest) => self.right.write(rest, byte),
        }
    }

    fn feed(&mut self, address: u32, byte: u8) {
        match beyond::<L>(address) {
            None => self.left.feed(address, byte),
            Some(rest) => self.right.feed(rest, byte),
        }
    }

    fn tick(&mut self, ticks: u16) {
        self.left.tick(ticks);
        self.right.tick(ticks);
    }

    fn lines(&self) -> u16 {
        lines_beside(&self.left, &self.right)
    }

    fn carried(&self, first: u8, edition: u32) -> Result<(), Fault> {
        self.left.carried(first, edition)?;
        self.right.carried(first + L::leaves() as u8, edition)
    }

    fn sections_size(&self, edition: u32) -> usize {
        self.left.sections_size(edition) + self.right.sections_size(edition)
    }

    // The right tree is lent what the left one leaves of the buffer.
    fn write_sections(&self, edition: u32, before: &mut NamesBefore, out: &mut [u8]) -> usize {
        let n = self.left.write_sections(edition, before, out);
        n + self.right.write_sections(edition, before, &mut out[n..])
    }

    ghost addressed = { omega (arith, L.Node.addressed, R.Node.addressed) };

    ghost sound = { λ bus. (L.Node.sound bus.left, R.Node.sound bus.right) };
}

// A board whose guest runs.
ghost use Rattle.std.specs.Prelude.{◌≡◌, ◌≤◌, false, IfErr, Ok, Err};
ghost use Rattle.board.specs.Guest.{making, reading, writing, feeding, ticking, lining, performing, mapped, Addressed};
ghost use Rattle.board.specs.Saving.{sized};
ghost use Rattle.tree.specs.Tree.{leaves, width, lines};

use crate::call::{Answer, Call};
use crate::slip::PauseSlip;
use crate::stopped::Stopped;
use fault::Fault;
use section::names::MOST_LEAVES;
use tree::node::Node;

// A board has at most 16 leaves; the clauses below say so where they need it. As a ghost field over a bound `T: Node` it was
// tried: of a function that only holds such a board, the check says that it "cannot read" a type of the bound.
#[derive(Drop)]
pub struct Running<T> {
    pub(crate) tree: T,
}

// Refuses a tree of more leaves than a board has.
pub(crate) fn few_leaves<T: Node>() -> Result<(), Fault>
    ensures { result ≡ sized T.Node.model (Ok tt) }
{
    let leaves = T::leaves();
    // There is no From of a usize for a u64.
    if leaves > MOST_LEAVES as u64 {
        let leaves = u8::try_from(leaves).unwrap_or(u8::MAX);
        return Err(Fault::TooManyLeaves { leaves });
    }
    Ok(())
}

// Refuses an address that the tree does not have.
fn addressed<T: Node>(address: u32) -> Result<(), Fault>
    ensures { result ≡ Addressed T.Node.model address }
{
    if u64::from(address) >= T::width() {
        return Err(Fault::NoAddress { address });
    }
    Ok(())
}

impl<T: Node> Running<T> {
    // Makes a running board of a tree, which takes its fresh state. A tree of too many leaves is given back.
    pub fn new(mut tree: T) -> Result<Running<T>, (Fault, T)>
        ensures value { mapped (λ b. T.Node.state b.tree) (λ e. e.0) result ≡ making T.Node.model }
        ensures back { IfErr result (λ e. e.1 ≡ tree) }
    {
        // No `map_err`: its closure would take the tree.
        if let Err(fault) = few_leaves::<T>() {
            return Err((fault, tree));
        }
        tree.reset();
        Ok(Running { tree })
    }

    pub fn read(&mut self, address: u32) -> Result<u8, Fault>
        ensures { (result, T.Node.state self.new.tree) ≡ reading T.Node.calls (T.Node.state self.old.tree) address }
    {
        addressed::<T>(address)?;
        Ok(self.tree.read(address))
    }

    // Answers the byte that leaves the panel, or none.
    pub fn write(&mut self, address: u32, byte: u8) -> Result<Option<u8>, Fault>
        ensures { (result, T.Node.state self.new.tree) ≡ writing T.Node.calls (T.Node.state self.old.tree) address byte }
    {
        addressed::<T>(address)?;
        Ok(self.tree.write(address, byte))
    }

    // Brings a byte from outside to the leaf at an address.
    pub fn feed(&mut self, address: u32, byte: u8) -> Result<(), Fault>
        ensures { (result, T.Node.state self.new.tree) ≡ feeding T.Node.calls (T.Node.state self.old.tree) address byte }
    {
        addressed::<T>(address)?;
        if !T::has_input(address) {
            let (leaf, _) = T::route(address);
            return Err(Fault::NoInput { leaf });
        }
        self.tree.feed(address, byte);
        Ok(())
    }

    // Passes clock ticks to every leaf.
    pub fn tick(&mut self, ticks: u32) -> Result<(), Fault>
        ensures { (result, T.Node.state self.new.tree) ≡ ticking T.Node.calls (T.Node.state self.old.tree) ticks }
    {
        match u16::try_from(ticks) {
            Ok(passed) if passed > 0 => {
                self.tree.tick(passed);
                Ok(())
            }
            _ => Err(Fault::TickCount { ticks }),
        }
    }

    // The line of leaf k as bit k. Sixteen bits show all of them, since a board has at most 16 leaves.
    pub fn lines(&self) -> u16
        ensures answer { result ≡ lining T.Node.calls (T.Node.state self.now.tree) }
        ensures all { leaves T.Node.model ≤ 16 → result ≡ lines T.Node.model (T.Node.state self.now.tree) }
    {
        self.tree.lines()
    }

    // Performs a call.
    pub fn perform(&mut self, call: Call) -> Result<Answer, Fault>
        ensures { (result, T.Node.state self.new.tree) ≡ performing T.Node.calls (T.Node.state self.old.tree) call }
    {
        Ok(match call {
            Call::Read { address } => Answer::Byte(self.read(address)?),
            Call::Write { address, byte } => Answer::Written(self.write(address, byte)?),
            Call::Feed { address, byte } => {
                self.feed(address, byte)?;
                Answer::Done
            }
            Call::Tick { ticks } => {
                self.tick(ticks)?;
                Answer::Done
            }
            Call::Lines => Answer::Lines(self.lines()),
        })
    }

    // Holds the board still. The slip is owed to whoever lets it go on.
    pub fn stop(self) -> (Stopped<T>, PauseSlip)
        ensures devices { result.0.tree ≡ self.tree }
        ensures slip { result.1.resumed ≡ false }
    {
        let Running { tree } = self;
        (Stopped { tree }, PauseSlip::new())
    }
}

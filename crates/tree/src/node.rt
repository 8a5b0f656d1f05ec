// What code over any tree of devices can ask of it.
ghost use Rattle.std.specs.Prelude.{◌≡◌, ◌+◌, ◌*◌, ◌%◌, ◌<◌, ◌≤◌, min, true, ◌++◌, length};
ghost use Rattle.section.specs.Carrying.{result_of};
ghost use Rattle.section.specs.Layout.{over};
ghost use Rattle.tree.specs.Carrying.{uncarried};
ghost use Rattle.tree.specs.Calls.{Calls, Keeps};
ghost use Rattle.tree.specs.Stream.{written, layout, size as size_of, names as names_of};
ghost use Rattle.tree.specs.Tree as on;
ghost use Rattle.tree.specs.Tree.{Tree, State, Sound, Lawful};

use fault::Fault;
use section::names::NamesBefore;

// A device, or a bus of two nodes.
pub trait Node {
    // The tree, by its shape and kinds.
    ghost model: { Tree };

    // What a guest's calls do to it.
    ghost calls: { Calls model };

    // The state that its devices are in.
    ghost state: { Self → State model };

    // Does nothing: it promises that every device of the tree meets its obligations. It rests on what each
    // device's function promises, as `closed` does, and so is no law.
    fn lawful()
        ensures { Lawful model };

    // Does nothing: it promises that the calls leave a sound tree sound.
    fn closed()
        ensures { Keeps model calls };

    // The number of leaves, or the greatest that the type holds.
    fn leaves() -> u64
        ensures { result ≡ min (on.leaves model) 18446744073709551615 };

    // The number of addresses, or the greatest that the type holds.
    fn width() -> u64
        ensures { result ≡ min (on.width model) 18446744073709551615 };

    // The leaf that an address belongs to, and the offset inside it. Here and below an address stays a number with a
    // `requires`: with a struct `Address<Self>` that keeps it below the width the check "cannot give this method the clauses of its
    // trait yet", and each `impl` would write them again.
    fn route(address: u32) -> (u32, u32)
        requires { address < on.width model }
        ensures value { result ≡ on.route model address }
        ensures bound { (on.route model address).0 ≤ address };

    // Whether the leaf at an address has an input.
    fn has_input(address: u32) -> bool
        ensures { result ≡ on.has_input model address };

    // Every device takes its fresh state.
    fn reset(&mut self)
        ensures { state self.new ≡ on.fresh model };

    fn read(&mut self, address: u32) -> u8
        requires { address < on.width model }
        ensures { (result, state self.new) ≡ calls.read (state self.old) address };

    // Answers the byte that leaves the panel, or none. Address and byte are what a guest hands in; nothing else holds the two.
    fn write(&mut self, address: u32, byte: u8) -> Option<u8>
        requires { address < on.width model }
        ensures { (result, state self.new) ≡ calls.write (state self.old) address byte };

    // Brings a byte from outside to the leaf at an address.
    fn feed(&mut self, address: u32, byte: u8)
        requires { (address < on.width model) × (on.has_input model address ≡ true) }
        ensures { state self.new ≡ calls.feed (state self.old) address byte };

    // Passes clock ticks to every leaf.
    fn tick(&mut self, ticks: u16)
        requires { 1 ≤ ticks }
        ensures { state self.new ≡ calls.tick (state self.old) ticks };

    // The line of leaf k as bit k, for the first sixteen leaves.
    fn lines(&self) -> u16
        ensures { result ≡ on.lines model (state self.now) % 65536 };

    // Refuses an edition that does not carry the state, by the first leaf whose state it does not carry. `first` leaves stand
    // before the tree.
    fn carried(&self, first: u8, edition: u32) -> Result<(), Fault>
        requires { first + on.leaves model ≤ 16 }
        ensures { result ≡ result_of (uncarried model first edition (state self.now)) };

    // How many bytes the sections have, which the leaves before do not change.
    fn sections_size(&self, edition: u32) -> usize
        requires { on.leaves model ≤ 16 }
        ensures value { result ≡ size_of model (written model edition (state self.now)) }
        ensures bound { result ≤ 10000 * on.leaves model };

    // Writes a section for each leaf to the front of a buffer, and adds the leaves' names to those before.
    fn write_sections(&self, edition: u32, before: &mut NamesBefore, out: &mut [u8]) -> usize
        requires few { length before.old + on.leaves model ≤ 16 }
        requires room { size_of model (written model edition (state self.now)) ≤ length out.old }
        ensures count { result ≡ length (layout model before.old (written model edition (state self.now))) }
        ensures size { result ≡ size_of model (written model edition (state self.now)) }
        ensures buffer { out.new ≡ over (layout model before.old (written model edition (state self.now))) out.old }
        ensures names { before.new ≡ before.old ++ names_of model };

    // A leaf has an address at least.
    ghost addressed: { on.leaves model ≤ on.width model };

    // Every device of a tree is in a sound state.
    ghost sound: { (tree : Self) → Sound model (state tree) };
}

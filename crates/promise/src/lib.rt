// What boards of any tree promise about moving: theorems on the definitions.
#![tactic(auto)]

ghost use Rattle.promise.specs.Editions.{Carriage};
ghost use Rattle.promise.specs.Promise.{Promise};

use tree::node::Node;

// An edition that serves every kind of the tree carries it fresh and takes what it wrote itself; the latest carries every
// state; a later edition is at odds by a version only.
pub fn carriage<N: Node>()
    ensures { Carriage N.Node.model }
{
    N::lawful();
}

// What is saved is accepted at another edition exactly where no section is at odds with it, and the board then answers as the
// one that was saved.
pub fn promise<N: Node>()
    ensures { Promise N.Node.model N.Node.calls }
{
    N::lawful();
    N::closed();
}

// What holds of streams, whatever the tree.
#![tactic(auto)]

ghost use Rattle.reading.specs.Accepting.{Streams};

use tree::node::Node;

// A theorem on the definitions: a stream is accepted exactly where layout and checks allow it, is then adopted as a state that is written as that stream,
// and has a greatest length.
pub fn streams<N: Node>()
    ensures { Streams N.Node.model }
{
    N::lawful();
}

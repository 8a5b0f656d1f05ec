// Saving a tree of devices as a stream.
ghost use Rattle.std.specs.Prelude.{◌≡◌, ◌+◌, ◌≤◌, length, Ok};
ghost use Rattle.board.specs.Saving.{served as served_at, saving, answer_of, buffer_of};
ghost use Rattle.section.specs.Layout.{over};
ghost use Rattle.tree.specs.Stream.{stream, written, size as size_of};
ghost use Rattle.tree.specs.Tree.{leaves};

use crate::running::few_leaves;
use crate::stopped::Stopped;
use fault::Fault;
use section::buffer::put;
use section::marks;
use section::names::NamesBefore;
use tree::node::Node;

// The highest edition.
const LATEST: u32 = 3;

// The bytes of a stream besides its sections: header, configuration and end.
const FRAME: usize = marks::HEADER.len() + marks::CONFIGURATION.len() + 1;

// Refuses an edition that there is not.
fn served(edition: u32) -> Result<(), Fault>
    ensures { result ≡ served_at edition (Ok tt) }
{
    if !(1..=LATEST).contains(&edition) {
        return Err(Fault::NoEdition { edition });
    }
    Ok(())
}

impl<T: Node> Stopped<T> {
    fn stream_size(&self, edition: u32) -> usize
        requires { leaves T.Node.model ≤ 16 }
        ensures value { result ≡ length (stream T.Node.model edition (T.Node.state self.now.tree)) }
        ensures parts { result ≡ 19 + size_of T.Node.model (written T.Node.model edition (T.Node.state self.now.tree)) }
    {
        FRAME + self.tree.sections_size(edition)
    }

    // Writes the stream to the front of a buffer. The count stays beside it, since the tree is lent what is left.
    fn write_stream(&self, edition: u32, out: &mut [u8]) -> usize
        requires few { leaves T.Node.model ≤ 16 }
        requires room { 19 + size_of T.Node.model (written T.Node.model edition (T.Node.state self.now.tree)) ≤ length out.old }
        ensures count { result ≡ length (stream T.Node.model edition (T.Node.state self.now.tree)) }
        ensures buffer { out.new ≡ over (stream T.Node.model edition (T.Node.state self.now.tree)) out.old }
    {
        let mut before = NamesBefore::none();
        let mut n = put(&marks::HEADER, out);
        n += put(&marks::CONFIGURATION, &mut out[n..]);
        n += self
            .tree
            .write_sections(edition, &mut before, &mut out[n..]);
        n += put(&[marks::END], &mut out[n..]);
        n
    }

    // The tests in their order, then the stream. `save` adds what the obligations give.
    pub(crate) fn save_stream(&self, edition: u32, buffer: &mut [u8]) -> Result<usize, Fault>
        ensures answer { result ≡ answer_of (saving T.Node.model (T.Node.state self.now.tree) edition buffer.old) }
        ensures buffer { buffer.new ≡ buffer_of buffer.old (saving T.Node.model (T.Node.state self.now.tree) edition buffer.old) }
    {
        few_leaves::<T>()?;
        served(edition)?;
        self.tree.carried(0, edition)?;
        let needed = self.stream_size(edition);
        if buffer.len() < needed {
            return Err(Fault::ShortBuffer { needed });
        }
        Ok(self.write_stream(edition, buffer))
    }
}

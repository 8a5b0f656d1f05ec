// A board that is held still, so that it can be saved.
ghost use Rattle.std.specs.Prelude.{◌≡◌, ◌≤◌};
ghost use Rattle.board.specs.Saving.{saving, answer_of, buffer_of, Judged};
ghost use Rattle.tree.specs.Tree.{leaves};

use crate::running::Running;
use crate::slip::PauseSlip;
use fault::Fault;
use tree::node::Node;

#[derive(Drop)]
pub struct Stopped<T> {
    pub(crate) tree: T,
}

impl<T: Node> Stopped<T> {
    // Writes the board's stream at an edition to the front of a buffer, and answers the stream's length.
    pub fn save(&self, edition: u32, buffer: &mut [u8]) -> Result<usize, Fault>
        ensures answer { result ≡ answer_of (saving T.Node.model (T.Node.state self.now.tree) edition buffer.old) }
        ensures buffer { buffer.new ≡ buffer_of buffer.old (saving T.Node.model (T.Node.state self.now.tree) edition buffer.old) }
        ensures judged { leaves T.Node.model ≤ 16 → Judged T.Node.model (T.Node.state self.now.tree) edition buffer.old result }
    {
        T::lawful();
        self.save_stream(edition, buffer)
    }

    // The guest goes on where it was stopped.
    pub fn resume(self, slip: PauseSlip) -> Running<T>
        ensures { result.tree ≡ self.tree }
    {
        slip.spend();
        let Stopped { tree } = self;
        Running { tree }
    }
}

// A base board at a point of its life, and what a command makes of it.
use crate::reply::Reply;
use base::{BaseTree, base_board};
use board::call::Call;
use board::running::Running;
use board::slip::PauseSlip;
use board::stopped::Stopped;
use fault::Fault;
use script::line::Command;

pub enum Life {
    Running(Running<BaseTree>),
    Stopped(Stopped<BaseTree>, PauseSlip),
}

impl Life {
    // A fresh base board that runs.
    pub fn new() -> Life {
        Life::Running(base_board())
    }

    // The state that the board is in.
    pub fn state(&self) -> Reply {
        match self {
            Life::Running(_) => Reply::Running,
            Life::Stopped(_, _) => Reply::Stopped,
        }
    }

    // Carries out a command that changes the board; others leave it as it is.
    pub fn perform(self, command: Command<'_>) -> (Reply, Life) {
        match command {
            Command::Guest(call) => self.guest(call),
            Command::Stop => self.stop(),
            Command::Resume => self.resume(),
            _ => (self.state(), self),
        }
    }

    // Performs a call of the guest, which only a running board has.
    pub(crate) fn guest(self, call: Call) -> (Reply, Life) {
        match self {
            Life::Running(mut board) => {
                let reply = board
                    .perform(call)
                    .map_or_else(Reply::Refused, Reply::Answered);
                (reply, Life::Running(board))
            }
            stopped => (Reply::NotAdmitted, stopped),
        }
    }

    pub(crate) fn stop(self) -> (Reply, Life) {
        match self {
            Life::Running(board) => {
                let (board, slip) = board.stop();
                (Reply::Stopped, Life::Stopped(board, slip))
            }
            stopped => (Reply::NotAdmitted, stopped),
        }
    }

    pub(crate) fn resume(self) -> (Reply, Life) {
        match self {
            Life::Stopped(board, slip) => (Reply::Running, Life::Running(board.resume(slip))),
            running => (Reply::NotAdmitted, running),
        }
    }

    // Saves into a buffer; none where the board's state does not admit it, which is no fault.
    pub fn save(&self, edition: u32, buffer: &mut [u8]) -> Option<Result<usize, Fault>> {
        match self {
            Life::Running(_) => None,
            Life::Stopped(board, _) => Some(board.save(edition, buffer)),
        }
    }
}

impl Drop for Life {
    // A stopped board is resumed first, which takes its slip back.
    fn drop(self) {
        match self {
            Life::Running(_) => {}
            Life::Stopped(board, slip) => {
                let _ = board.resume(slip);
            }
        }
    }
}

// What came of a command, in words.
use board::call::Answer;
use fault::Fault;
use std::fmt;

#[derive(Clone, Copy)]
pub enum Reply {
    // The state that the board at hand is in.
    Running,
    Stopped,
    Answered(Answer),
    // The stream's length.
    Saved(usize),
    Refused(Fault),
    // The board's state does not name the call.
    NotAdmitted,
}

// The words of an answer stand here and not with `Answer`, so that all replies are in one place.
impl fmt::Display for Reply {
    fn fmt<W: fmt::Write>(&self, f: &mut fmt::Formatter<W>) -> fmt::Result {
        match *self {
            Reply::Running => write!(f, "running"),
            Reply::Stopped => write!(f, "stopped"),
            Reply::Answered(Answer::Byte(byte)) => write!(f, "{byte:#04x}"),
            Reply::Answered(Answer::Written(Some(byte))) => write!(f, "out {byte:#04x}"),
            Reply::Answered(Answer::Written(None)) => write!(f, "none"),
            Reply::Answered(Answer::Done) => write!(f, "ok"),
            Reply::Answered(Answer::Lines(lines)) => write!(f, "{lines:#04x}"),
            Reply::Saved(length) => write!(f, "{length} bytes"),
            Reply::NotAdmitted => write!(f, "not admitted"),
            Reply::Refused(fault) => {
                let numbers = fault.numbers();
                write!(f, "fault {numbers}: {fault}")
            }
        }
    }
}

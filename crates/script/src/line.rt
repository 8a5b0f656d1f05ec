// A line of a script, read.
use crate::mistake::Mistake;
use crate::words::Words;
use board::call::Call;
use std::fmt;

// What a line asks for.
#[derive(Clone, Copy)]
pub enum Command<'a> {
    // Makes a running board of that name, and goes on with it.
    Board {
        name: &'a str,
    },
    // Goes on with the board of that name.
    On {
        name: &'a str,
    },
    // A call of the guest of the board at hand.
    Guest(Call),
    Stop,
    // Saves at an edition into a buffer of that size, and keeps the stream in a file.
    Save {
        edition: u32,
        size: u32,
        path: &'a str,
    },
    Resume,
}

// Reads a line: a command, or none where it is empty or only a comment.
pub fn read_line(line: &str) -> Result<Option<Command<'_>>, Mistake<'_>> {
    let mut words = Words::of(line);
    let Some(word) = words.take() else {
        return Ok(None);
    };
    let command = match word {
        "board" => board(&mut words)?,
        "on" => Command::On {
            name: words.word("the board's name")?,
        },
        "stop" => Command::Stop,
        "save" => save(&mut words)?,
        "resume" => Command::Resume,
        _ => Command::Guest(call(word, &mut words)?),
    };
    words.end()?;
    Ok(Some(command))
}

fn board<'a>(words: &mut Words<'a>) -> Result<Command<'a>, Mistake<'a>> {
    let name = words.word("the board's name")?;
    match words.word("`running`")? {
        "running" => Ok(Command::Board { name }),
        word => Err(Mistake::NotAState(word)),
    }
}

fn save<'a>(words: &mut Words<'a>) -> Result<Command<'a>, Mistake<'a>> {
    Ok(Command::Save {
        edition: words.number("the edition")?,
        size: words.number("the size of the buffer")?,
        path: words.word("the file for the stream")?,
    })
}

fn call<'a>(word: &'a str, words: &mut Words<'a>) -> Result<Call, Mistake<'a>> {
    Ok(match word {
        "read" => Call::Read {
            address: words.number("the address")?,
        },
        "write" => Call::Write {
            address: words.number("the address")?,
            byte: words.byte()?,
        },
        "feed" => Call::Feed {
            address: words.number("the address")?,
            byte: words.byte()?,
        },
        "tick" => Call::Tick {
            ticks: words.number("the number of ticks")?,
        },
        "lines" => Call::Lines,
        _ => return Err(Mistake::UnknownCall(word)),
    })
}

// A command as a line that asks for it. The words of a call stand here, where they are read, and not with `Call`.
impl fmt::Display for Command<'_> {
    fn fmt<W: fmt::Write>(&self, f: &mut fmt::Formatter<W>) -> fmt::Result {
        match *self {
            Command::Board { name } => write!(f, "board {name} running"),
            Command::On { name } => write!(f, "on {name}"),
            Command::Guest(Call::Read { address }) => write!(f, "read {address}"),
            Command::Guest(Call::Write { address, byte }) => write!(
                f,
                "write {address} {byte:#04x}"
            ),
            Command::Guest(Call::Feed { address, byte }) => write!(f, "feed {address} {byte:#04x}"),
            Command::Guest(Call::Tick { ticks }) => write!(f, "tick {ticks}"),
            Command::Guest(Call::Lines) => write!(f, "lines"),
            Command::Stop => write!(f, "stop"),
            Command::Save {
                edition,
                size,
                path,
            } => write!(f, "save {edition} {size} {path}"),
            Command::Resume => write!(f, "resume"),
        }
    }
}

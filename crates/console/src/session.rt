// The boards that a script has made, and the one at hand.
ghost use Rattle.std.specs.Prelude.{◌<◌, IfSome, vec_len};

use crate::life::Life;
use crate::reply::Reply;
use script::line::Command;
use std::alloc::{AllocError, Global};
use std::fs;
use thiserror::Error;

#[derive(Drop)]
struct Named {
    name: String,
    life: Life,
}

#[derive(Drop)]
pub struct Session {
    // The board at hand stands last. The boards stay a list: beside a map the name at hand would be kept a second time.
    boards: Vec<Named>,
}

// Why a command cannot be carried out.
#[derive(Clone, Copy, Debug, Error)]
pub enum Trouble<'a> {
    #[error("there is no board yet: make one by `board NAME running`")]
    NoBoard,
    #[error("there is no board `{0}`")]
    UnknownBoard(&'a str),
    #[error("there is a board `{0}` already")]
    NameTaken(&'a str),
    #[error("the file `{0}` cannot be written")]
    Unwritable(&'a str),
    #[error("out of memory")]
    NoMemory(#[from(alloc)] AllocError),
}

impl Session {
    pub fn new(heap: Global) -> Session {
        Session {
            boards: Vec::new(heap),
        }
    }

    // Carries out a command.
    pub fn perform<'a>(
        &mut self,
        rt: &HostRuntime,
        command: Command<'a>,
    ) -> Result<Reply, Trouble<'a>> {
        match command {
            Command::Board { name } => self.make(rt.alloc(), name),
            Command::On { name } => self.go_on(name),
            Command::Guest(call) => self.change(|life| life.guest(call)),
            Command::Stop => self.change(Life::stop),
            Command::Resume => self.change(Life::resume),
            // There is no From of a u32 for a usize.
            Command::Save {
                edition,
                size,
                path,
            } => self.save(rt, edition, size as usize, path),
        }
    }

    // Puts a board at hand, and answers.
    fn put<'a>(&mut self, named: Named, reply: Reply) -> Result<Reply, Trouble<'a>> {
        self.boards.push(named)?;
        Ok(reply)
    }

    // Carries out what changes the board at hand.
    fn change<'a, F: FnOnce(Life) -> (Reply, Life)>(
        &mut self,
        step: F,
    ) -> Result<Reply, Trouble<'a>>
        requires { F.IsAlwaysCallable step }
    {
        let Named { name, life } = self.boards.pop().ok_or(Trouble::NoBoard)?;
        let (reply, life) = step(life);
        self.put(Named { name, life }, reply)
    }

    // The place of the board of a name.
    fn find(&self, name: &str) -> Option<usize>
        ensures { IfSome result (λ i. i < vec_len self.now.boards) }
    {
        self.boards
            .iter()
            .position(|named| named.name.as_str() == name)
    }

    fn make<'a>(&mut self, heap: Global, name: &'a str) -> Result<Reply, Trouble<'a>> {
        if self.find(name).is_some() {
            return Err(Trouble::NameTaken(name));
        }
        let name = String::from_str(heap, name)?;
        let life = Life::new();
        self.put(Named { name, life }, Reply::Running)
    }

    fn go_on<'a>(&mut self, name: &'a str) -> Result<Reply, Trouble<'a>> {
        let place = self.find(name).ok_or(Trouble::UnknownBoard(name))?;
        let named = self.boards.remove(place);
        let state = named.life.state();
        self.put(named, state)
    }

    // Saves the board at hand, and keeps the stream in a file.
    fn save<'a>(
        &self,
        rt: &HostRuntime,
        edition: u32,
        size: usize,
        path: &'a str,
    ) -> Result<Reply, Trouble<'a>> {
        let named = self.boards.last().ok_or(Trouble::NoBoard)?;
        let mut buffer = vec![in rt.alloc(); 0u8; size]?;
        Ok(match named.life.save(edition, buffer.as_mut_slice()) {
            None => Reply::NotAdmitted,
            Some(Err(fault)) => Reply::Refused(fault),
            Some(Ok(length)) => {
                buffer.truncate(length);
                fs::write(rt, path, buffer.as_slice()).map_err(|_| Trouble::Unwritable(path))?;
                Reply::Saved(length)
            }
        })
    }
}

// A script from beginning to end, line by line.
use crate::session::Session;
use anyhow::anyhow;
use script::line::read_line;
use std::convert::AsStr;
use std::io::{self, BufRead, BufReader};
use std::process::ExitCode;
use std::{env, fs};

// A session of boards, and the runtime that its script is read and its replies are printed with.
#[derive(Drop)]
struct Terminal<'a> {
    rt: &'a HostRuntime,
    session: Session,
}

impl Terminal<'_> {
    // Carries out one line, and prints it with its reply.
    fn obey(&mut self, at: u64, line: &str) -> anyhow::Result<()> {
        let Some(command) = read_line(line).map_err(|mistake| anyhow!("line {at}: {mistake}"))?
        else {
            return Ok(());
        };
        let reply = self
            .session
            .perform(self.rt, command)
            .map_err(|trouble| anyhow!("line {at}: {trouble}"))?;
        println!(self.rt; "{command} -> {reply}")?;
        Ok(())
    }

    // Carries out each line as soon as it comes.
    fn obey_lines<L: AsStr + Drop, I: Iterator<Item = io::Result<L>> + Drop>(
        &mut self,
        lines: I,
    ) -> anyhow::Result<()>
        requires { I.can_next lines }
    {
        for (at, line) in (1..=u64::MAX).zip(lines) {
            self.obey(at, line?.as_str())?;
        }
        Ok(())
    }

    // A file is read whole before its first line is carried out. Its lines stay where they were read: read as those of any `BufRead`
    // each would be copied, and a long one take its memory twice.
    fn obey_script(&mut self) -> anyhow::Result<()> {
        match env::args(self.rt)?.nth(1) {
            Some(path) => {
                let text = fs::read_to_string(self.rt, path)?;
                self.obey_lines(text.lines().map(Ok))
            }
            None => {
                let input = BufReader::new(self.rt.alloc(), self.rt.stdin())?;
                self.obey_lines(input.lines(self.rt.alloc()))
            }
        }
    }
}

// Performs the script in the file that the first argument names, or else in standard input, and prints each command with
// its reply. A failure goes to standard error, and is handed on.
pub fn run(rt: &HostRuntime) -> anyhow::Result<()> {
    let session = Session::new(rt.alloc());
    let result = Terminal { rt, session }.obey_script();
    if let Err(e) = &result {
        let _ = eprintln!(rt; "panel: {e}");
    }
    result
}

// Performs a script as `run` does; a failure ends the program with status 1.
pub fn main(rt: &HostRuntime) -> ExitCode {
    run(rt).map_or(ExitCode::FAILURE, |()| ExitCode::SUCCESS)
}

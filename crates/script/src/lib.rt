// The lines of a script: what a technician asks of boards, one call to a line.
#![tactic(auto)]

pub mod line;
pub mod mistake;
mod words;

// Performs a script's commands on boards, and says in words what came of each.
#![tactic(auto)]

pub mod life;
pub mod program;
pub mod reply;
pub mod session;

// Boards: a tree of devices at a point of its life.
#![tactic(auto)]

pub mod call;
pub mod running;
mod saving;
pub mod slip;
pub mod stopped;

// Trees of devices, as a guest and a stream see them.
#![tactic(auto)]

pub mod bus;
pub mod leaf;
pub mod node;

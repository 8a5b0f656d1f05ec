// One leaf's section of a stream: how it is written, how long it is, and why an edition cannot write it. The functions take a
// device and an edition: a struct of the two would be made for each call and hold nothing else.
#![tactic(auto)]

pub mod buffer;
pub mod carrying;
pub mod marks;
pub mod names;
pub mod size;
pub mod writing;

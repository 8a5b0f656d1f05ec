// The states of a dial.

// Where the dial stands, whether it was ever turned, and its latch.
#[derive(Clone, Copy, Default)]
pub struct DialState {
    pub index: u8,
    pub turned: bool,
    pub latch: bool,
}

// What travels beside the body, where it is needed.
#[derive(Clone, Copy)]
pub enum DialSubsection {
    Latch,
}

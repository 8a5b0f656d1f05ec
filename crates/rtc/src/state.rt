// What the clock's rules speak of: its state, and the registers that count time.

// How many registers hold something.
pub const PLACES: usize = 62;

// Registers 0 to 11 and 14 to 63 stand in `registers`, ascending; registers 12 and 13 hold nothing of their own.
#[derive(Clone, Copy)]
pub struct RtcState {
    pub index: u8,
    pub registers: [u8; PLACES],
    // Clock ticks since the last second ended.
    pub phase: u32,
    // An update ran since register 12 was last read.
    pub updated: bool,
}

// A register that counts: where it stands, and its first and last number.
#[derive(Clone, Copy)]
pub struct Counter {
    pub at: usize,
    pub first: u8,
    pub last: u8,
}

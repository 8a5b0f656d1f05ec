// Calls of a guest with what they hand in, and the answers to them.

#[derive(Clone, Copy, PartialEq, Eq, Debug)]
pub enum Call {
    Read { address: u32 },
    Write { address: u32, byte: u8 },
    Feed { address: u32, byte: u8 },
    Tick { ticks: u32 },
    Lines,
}

#[derive(Clone, Copy, PartialEq, Eq, Debug)]
pub enum Answer {
    // The byte that was read.
    Byte(u8),
    // The byte that left the panel, or none.
    Written(Option<u8>),
    // A byte was fed, or ticks have passed.
    Done,
    // The line of leaf k as bit k.
    Lines(u16),
}

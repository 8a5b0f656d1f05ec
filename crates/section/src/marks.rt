// The fixed bytes of a stream.

pub const HEADER: [u8; 8] = [0x51, 0x45, 0x56, 0x4d, 0, 0, 0, 3];

pub const CONFIGURATION: [u8; 10] = [7, 0, 0, 0, 5, 0x70, 0x61, 0x6e, 0x65, 0x6c];

// The type byte that opens a section, and the one that ends the stream.
pub const SECTION: u8 = 0x04;

pub const END: u8 = 0x00;

// The tag that opens a subsection, and the one that closes a section.
pub const SUBSECTION: u8 = 0x05;

pub const CLOSING: u8 = 0x7e;

// The version of every subsection.
pub const SUBSECTION_VERSION: u32 = 1;

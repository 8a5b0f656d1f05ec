// Why a call is refused: the cause with what it names, and the six numbers that a console shows.
#![tactic(auto)]

mod numbering;
mod wording;

use thiserror::Error;
use wording::Part;

// A refusal, by its cause. Its sentence says what is wrong and where, with the way out.
#[derive(Clone, Copy, PartialEq, Eq, Debug, Error)]
pub enum Fault {
    // The board has no such address.
    #[error("address {address} is past the last address of this board")]
    NoAddress {
        address: u32,
    },
    // A byte was fed to a leaf that has no input.
    #[error("leaf {leaf} has no input, so no byte can be fed to it")]
    NoInput {
        leaf: u32,
    },
    // A tick call passes 1 to 65,535 ticks.
    #[error("one tick call passes 1 to 65535 ticks, not {ticks}")]
    TickCount {
        ticks: u32,
    },
    // There is no such edition.
    #[error("there is no edition {edition}: the editions are 1 to 3")]
    NoEdition {
        edition: u32,
    },
    // A save at an edition that does not write this field, which is off its default.
    #[error("leaf {leaf} is in a state that this edition does not write, by field {field}; save at a later edition")]
    FieldNotCarried {
        leaf: u8,
        field: u16,
    },
    // A save at an edition that does not know this subsection, which the state needs.
    #[error("leaf {leaf} needs subsection {subsection}, which this edition does not know; save at a later edition")]
    SubsectionNotCarried {
        leaf: u8,
        subsection: u8,
    },
    // The buffer is too short for the stream.
    #[error("the stream has {needed} bytes, and the buffer fewer")]
    ShortBuffer {
        needed: usize,
    },
    // A board has at most 16 leaves; a count over 255 shows as 255.
    #[error("a board has at most 16 leaves, not {leaves}")]
    TooManyLeaves {
        leaves: u8,
    },
    // Fewer bytes are left than the item at this place has. In the frame both are none. They stay two options, as the
    // definition of the six numbers has them.
    #[error("the stream ends inside {part}, in the item at byte {place}; load all of it", part = Part::new(*.section, *.subsection))]
    EndOfStream {
        section: Option<u8>,
        subsection: Option<u8>,
        place: usize,
    },
    // The stream does not begin with the header.
    #[error("these bytes do not begin as a stream does; load what a save wrote")]
    Header,
    // The configuration does not follow the header.
    #[error("the configuration at byte 8 is not a panel's; load what a panel saved")]
    Configuration,
    // Another type byte was due: of a section, or of the end.
    #[error("byte {place} is {found}, where a section begins with 4 and the stream ends with 0; load it into a board of its tree")]
    SectionType {
        section: Option<u8>,
        place: usize,
        found: u8,
    },
    // Another identity was due.
    #[error("section {section} is of another leaf, by its identity at byte {place}; load it into a board of its tree")]
    Identity {
        section: u8,
        place: usize,
    },
    // The edition does not take this version.
    #[error("{part} has version {version} at byte {place}, which this edition does not take; load it at a later edition", part = Part::new(Some(*.section), *.subsection))]
    Version {
        section: u8,
        subsection: Option<u8>,
        place: usize,
        version: u32,
    },
    // The edition knows no subsection of the name at this place.
    #[error("section {section} has a subsection, named at byte {place}, that this edition does not know; load it at a later edition")]
    UnknownSubsection {
        section: u8,
        place: usize,
        length: u8,
    },
    // The subsection was due earlier, if at all.
    #[error("subsection {subsection} of section {section}, named at byte {place}, comes twice or too late; save the board again")]
    SubsectionOrder {
        section: u8,
        subsection: u8,
        place: usize,
        length: u8,
    },
    // The device's check refuses a field of the body at this place.
    #[error("field {field} of {part}, whose body is at byte {place}, has a value that no state has; save the board again", part = Part::new(Some(*.section), *.subsection))]
    Field {
        section: u8,
        subsection: Option<u8>,
        place: usize,
        field: u16,
    },
    // The subsection passes the check, but its fields are at their defaults.
    #[error("subsection {subsection} of section {section}, whose body is at byte {place}, says nothing but its defaults; save the board again")]
    NotNeeded {
        section: u8,
        subsection: u8,
        place: usize,
    },
    // Neither a subsection nor the end of the section follows.
    #[error("byte {place} is {found}, where section {section} goes on with 5 or closes with 126; save the board again")]
    Tag {
        section: u8,
        place: usize,
        found: u8,
    },
    // The section closes with another leaf's number.
    #[error("section {section} closes at byte {place} with leaf number {found}; save the board again")]
    ClosingLeaf {
        section: u8,
        place: usize,
        found: u32,
    },
    // Bytes follow the end.
    #[error("the stream has ended at byte {place}, and bytes follow; load it alone")]
    TrailingBytes {
        place: usize,
    },
    // The device does not adopt what its check passed.
    #[error("leaf {section} passes the body at byte {place} but does not adopt it; its device has to be corrected")]
    NotAdopted {
        section: u8,
        place: usize,
    },
}

// A fault as six numbers. A section or subsection of 255 is none.
// The fields stay plain numbers, as their definition has them and a console prints them.
#[derive(Clone, Copy, PartialEq, Eq, Debug)]
pub struct Numbers {
    pub number: u8,
    // 1 board, 2 stream, 3 section, 4 device
    pub layer: u8,
    pub section: u32,
    pub subsection: u8,
    pub place: usize,
    pub detail: u64,
}

// The six numbers of a fault.
ghost use Rattle.std.specs.Prelude.{◌≡◌};
ghost use Rattle.fault.specs.Numbers.{numbers_of, named as named_by};

use crate::{Fault, Numbers};

// A section or subsection that is none.
const NONE: u8 = 255;

// A subsection whose name is unknown.
const UNKNOWN: u8 = 254;

// Where the configuration stands, behind the header.
const CONFIGURATION_PLACE: usize = 8;

// The layer that refuses.
#[derive(Clone, Copy)]
enum Layer {
    Board = 1,
    Stream = 2,
    Section = 3,
    Device = 4,
}

fn named(number: Option<u8>) -> u8
    ensures { result ≡ named_by number }
{
    number.unwrap_or(NONE)
}

impl Fault {
    pub fn numbers(&self) -> Numbers
        ensures { result ≡ numbers_of self.now }
    {
        Numbers {
            number: self.number(),
            layer: self.layer(),
            section: self.section(),
            subsection: self.subsection(),
            place: self.place(),
            detail: self.detail(),
        }
    }

    // A fault carries values and some share a number, so `as u8` does not give it.
    fn number(&self) -> u8
        ensures { result ≡ (numbers_of self.now).number }
    {
        match *self {
            Fault::NoAddress { .. } => 1,
            Fault::NoInput { .. } => 2,
            Fault::TickCount { .. } => 3,
            Fault::NoEdition { .. } => 4,
            Fault::FieldNotCarried { .. } | Fault::SubsectionNotCarried { .. } => 5,
            Fault::ShortBuffer { .. } => 6,
            Fault::TooManyLeaves { .. } => 7,
            Fault::EndOfStream { .. } => 8,
            Fault::Header => 9,
            Fault::Configuration => 10,
            Fault::SectionType { .. } | Fault::Identity { .. } => 11,
            Fault::Version { .. } => 12,
            Fault::UnknownSubsection { .. } | Fault::SubsectionOrder { .. } => 13,
            Fault::Field { .. } => 14,
            Fault::NotNeeded { .. } => 15,
            Fault::Tag { .. } | Fault::ClosingLeaf { .. } => 16,
            Fault::TrailingBytes { .. } => 17,
            Fault::NotAdopted { .. } => 18,
        }
    }

    fn layer(&self) -> u8
        ensures { result ≡ (numbers_of self.now).layer }
    {
        let layer = match *self {
            Fault::NoAddress { .. }
            | Fault::NoInput { .. }
            | Fault::TickCount { .. }
            | Fault::NoEdition { .. }
            | Fault::ShortBuffer { .. }
            | Fault::TooManyLeaves { .. } => Layer::Board,
            Fault::EndOfStream { .. }
            | Fault::Header
            | Fault::Configuration
            | Fault::TrailingBytes { .. } => Layer::Stream,
            Fault::SectionType { .. }
            | Fault::Identity { .. }
            | Fault::Version { .. }
            | Fault::UnknownSubsection { .. }
            | Fault::SubsectionOrder { .. }
            | Fault::Tag { .. }
            | Fault::ClosingLeaf { .. } => Layer::Section,
            Fault::FieldNotCarried { .. }
            | Fault::SubsectionNotCarried { .. }
            | Fault::Field { .. }
            | Fault::NotNeeded { .. }
            | Fault::NotAdopted { .. } => Layer::Device,
        };
        layer as u8
    }

    // Here and below, `_` is each fault that names no such thing: the contract finds one left out.
    fn section(&self) -> u32
        ensures { result ≡ (numbers_of self.now).section }
    {
        match *self {
            Fault::NoInput { leaf } => leaf,
            Fault::FieldNotCarried { leaf, .. } | Fault::SubsectionNotCarried { leaf, .. } => {
                u32::from(leaf)
            }
            Fault::EndOfStream { section, .. } | Fault::SectionType { section, .. } => {
                u32::from(named(section))
            }
            Fault::Identity { section, .. }
            | Fault::Version { section, .. }
            | Fault::UnknownSubsection { section, .. }
            | Fault::SubsectionOrder { section, .. }
            | Fault::Field { section, .. }
            | Fault::NotNeeded { section, .. }
            | Fault::Tag { section, .. }
            | Fault::ClosingLeaf { section, .. }
            | Fault::NotAdopted { section, .. } => u32::from(section),
            _ => u32::from(NONE),
        }
    }

    fn subsection(&self) -> u8
        ensures { result ≡ (numbers_of self.now).subsection }
    {
        match *self {
            Fault::SubsectionNotCarried { subsection, .. }
            | Fault::SubsectionOrder { subsection, .. }
            | Fault::NotNeeded { subsection, .. } => subsection,
            Fault::EndOfStream { subsection, .. }
            | Fault::Version { subsection, .. }
            | Fault::Field { subsection, .. } => named(subsection),
            Fault::UnknownSubsection { .. } => UNKNOWN,
            _ => NONE,
        }
    }

    fn place(&self) -> usize
        ensures { result ≡ (numbers_of self.now).place }
    {
        match *self {
            Fault::EndOfStream { place, .. }
            | Fault::SectionType { place, .. }
            | Fault::Identity { place, .. }
            | Fault::Version { place, .. }
            | Fault::UnknownSubsection { place, .. }
            | Fault::SubsectionOrder { place, .. }
            | Fault::Field { place, .. }
            | Fault::NotNeeded { place, .. }
            | Fault::Tag { place, .. }
            | Fault::ClosingLeaf { place, .. }
            | Fault::TrailingBytes { place }
            | Fault::NotAdopted { place, .. } => place,
            Fault::Configuration => CONFIGURATION_PLACE,
            _ => 0,
        }
    }

    fn detail(&self) -> u64
        ensures { result ≡ (numbers_of self.now).detail }
    {
        match *self {
            Fault::NoAddress { address } => u64::from(address),
            Fault::TickCount { ticks } => u64::from(ticks),
            Fault::NoEdition { edition } => u64::from(edition),
            Fault::FieldNotCarried { field, .. } | Fault::Field { field, .. } => u64::from(field),
            // u64 has no From of a usize.
            Fault::ShortBuffer { needed } => needed as u64,
            Fault::TooManyLeaves { leaves } => u64::from(leaves),
            Fault::SectionType { found, .. } | Fault::Tag { found, .. } => u64::from(found),
            Fault::Version { version, .. } => u64::from(version),
            Fault::UnknownSubsection { length, .. } | Fault::SubsectionOrder { length, .. } => {
                u64::from(length)
            }
            Fault::ClosingLeaf { found, .. } => u64::from(found),
            _ => 0,
        }
    }
}

// What the sentences of faults name, and the six numbers in a row.
use crate::Numbers;
use std::fmt;

// A part of a stream, as a sentence names it.
#[derive(Clone, Copy)]
pub enum Part {
    Frame,
    Section(u8),
    Subsection { section: u8, subsection: u8 },
}

impl Part {
    // The frame is in no section.
    pub fn new(section: Option<u8>, subsection: Option<u8>) -> Part {
        match (section, subsection) {
            (None, _) => Part::Frame,
            (Some(section), None) => Part::Section(section),
            (Some(section), Some(subsection)) => Part::Subsection {
                section,
                subsection,
            },
        }
    }
}

impl fmt::Display for Part {
    fn fmt<W: fmt::Write>(&self, f: &mut fmt::Formatter<W>) -> fmt::Result {
        match *self {
            Part::Frame => write!(f, "its frame"),
            Part::Section(section) => write!(f, "section {section}"),
            Part::Subsection {
                section,
                subsection,
            } => write!(f, "subsection {subsection} of section {section}"),
        }
    }
}

// The six numbers with blanks between them.
impl fmt::Display for Numbers {
    fn fmt<W: fmt::Write>(&self, f: &mut fmt::Formatter<W>) -> fmt::Result {
        let Numbers {
            number,
            layer,
            section,
            subsection,
            place,
            detail,
        } = *self;
        write!(
            f,
            "{number} {layer} {section} {subsection} {place} {detail}"
        )
    }
}

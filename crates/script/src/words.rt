// The words of a line, one after the other.
use crate::mistake::Mistake;
use std::num::IntErrorKind;
use std::str::SplitWhitespace;

#[derive(Drop)]
pub struct Words<'a> {
    rest: SplitWhitespace<'a>,
}

impl<'a> Words<'a> {
    // The words of a line before its comment, which begins with `#`.
    pub fn of(line: &'a str) -> Words<'a> {
        let text = line.split_once('#').map_or(line, |(before, _)| before);
        Words {
            rest: text.split_whitespace(),
        }
    }

    pub fn take(&mut self) -> Option<&'a str> {
        self.rest.next()
    }

    // The next word, or what is missing.
    pub fn word(&mut self, what: &'static str) -> Result<&'a str, Mistake<'a>> {
        self.take().ok_or(Mistake::Missing(what))
    }

    // The next word as a number.
    pub fn number(&mut self, what: &'static str) -> Result<u32, Mistake<'a>> {
        number(self.word(what)?)
    }

    // The next word as a byte.
    pub fn byte(&mut self) -> Result<u8, Mistake<'a>> {
        byte(self.word("the byte")?)
    }

    // Refuses a word that is left over.
    pub fn end(&mut self) -> Result<(), Mistake<'a>> {
        self.take()
            .map_or(Ok(()), |word| Err(Mistake::TooManyWords(word)))
    }
}

// The number that a word stands for.
fn number(word: &str) -> Result<u32, Mistake<'_>> {
    let (digits, radix) = word
        .strip_prefix("0x")
        .map_or((word, 10), |digits| (digits, 16));
    if digits.starts_with('+') {
        return Err(Mistake::NotANumber(word));
    }
    u32::from_str_radix(digits, radix).map_err(|e| match e.kind() {
        IntErrorKind::PosOverflow => Mistake::TooLarge(word),
        _ => Mistake::NotANumber(word),
    })
}

// The byte that a word stands for.
fn byte(word: &str) -> Result<u8, Mistake<'_>> {
    u8::try_from(number(word)?).map_err(|_| Mistake::NotAByte(word))
}

// Why a line is no call.
use thiserror::Error;

#[derive(Clone, Copy, Debug, Error)]
pub enum Mistake<'a> {
    #[error("`{0}` is no call")]
    UnknownCall(&'a str),
    // What is missing at the end of the line.
    #[error("{0} is missing")]
    Missing(&'static str),
    #[error("`{0}` is no number: write digits, or hexadecimal ones after 0x")]
    NotANumber(&'a str),
    #[error("`{0}` is too large: the greatest number is {greatest}", greatest = u32::MAX)]
    TooLarge(&'a str),
    #[error("`{0}` is no byte: the greatest is 255")]
    NotAByte(&'a str),
    #[error("a board is made `running`, not `{0}`")]
    NotAState(&'a str),
    #[error("`{0}` is a word too many")]
    TooManyWords(&'a str),
}

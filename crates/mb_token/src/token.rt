// Tokens and where they stand.
use crate::mark::Mark;
use crate::word::{Soft, Word};
use mb_base::StrId;

/// A token (ECMA-262, 12).
#[derive(Clone, Copy, Debug, PartialEq, Eq)]
pub enum Token {
    /// An identifier by its text.
    Name(StrId),
    /// An identifier that is a keyword in some places, with its text.
    Soft(Soft, StrId),
    /// A word that is no identifier, with its text.
    Reserved(Word, StrId),
    /// A numeric literal, from 0 to 2^53 - 1.
    Whole(i64),
    /// A string literal by its value.
    Text(StrId),
    /// A punctuator.
    Mark(Mark),
}

/// A token, the offsets of its first byte and of the byte after its last, and whether a line end parts it from the
/// token before it, or from the start of the text.
#[derive(Clone, Copy, Debug, PartialEq, Eq)]
pub struct Spanned {
    pub token: Token,
    pub from: u32,
    pub to: u32,
    pub after_line: bool,
}

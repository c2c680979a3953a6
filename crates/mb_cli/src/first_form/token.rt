// The tokens of the first form of a script.
use mb_base::StrId;

/// A token of the first form. The id of a text is of the table that `lex` was given.
#[derive(Clone, Copy, Debug, PartialEq, Eq)]
pub enum Token {
    Print,
    OpenParen,
    CloseParen,
    Semicolon,
    Whole(i64),
    Text(StrId),
}

/// A token with the byte offsets of its first byte and of the byte behind its last;
/// `after_line` tells whether a line end stands between it and the token before.
#[derive(Clone, Copy, Debug, PartialEq, Eq)]
pub struct Spanned {
    pub token: Token,
    pub from: u32,
    pub to: u32,
    pub after_line: bool,
}

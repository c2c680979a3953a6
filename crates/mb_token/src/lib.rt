//! Tokens of a script (ECMA-262, 12), as the lexer gives them and the parsers read them.
#![tactic(auto)]

mod mark;
mod token;
mod word;

pub use mark::Mark;
pub use token::{Spanned, Token};
pub use word::{Soft, Word};

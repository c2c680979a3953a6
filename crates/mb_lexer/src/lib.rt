//! The lexer: from the bytes of a script to its tokens (ECMA-262, 12, in this profile).
#![tactic(auto)]

mod fault;
mod laws;
mod lexer;
mod state;
#[cfg(test)]
mod tests;
mod unfinished;

ghost use Rattle.std.specs.Prelude.{ℕ, ◌≤◌, List, Err, length};
ghost use Rattle.mb_text.specs.Texts.{AreDistinct, KeepsIds};
ghost use Rattle.mb_lexer.specs.Shown.{IsLexed};

pub use fault::LexFault;
pub use laws::{
    a_place_has_one_token, bytes_have_tokens_or_a_fault, each_byte_belongs_to_one_token_or_part,
    fed_stays_where_texts_grow, marks_are_the_longest, never_tokens_and_a_fault,
    the_first_fault_is_one, tokens_are_one,
};
pub use lexer::Lexer;
use mb_base::NoMemory;
use mb_text::Texts;
use mb_token::Spanned;
use std::alloc::Global;

/// The most bytes that a script may have.
pub const LONGEST_SCRIPT: usize = 1_048_576;

/// The tokens of a script, in order, with the texts of names and string literals put into `texts`. After a refusal
/// `texts` may have more texts, and has those of before under their ids. The time is linear in the bytes.
pub fn lex(alloc: Global, bytes: &[u8], texts: &mut Texts) -> Result<Vec<Spanned>, LexFault>
    requires { length bytes.now ≤ 1048576 }
    ensures answer { IsLexed texts.new bytes.now result }
    ensures texts { KeepsIds texts.old texts.new }
    ensures distinct { AreDistinct texts.old → AreDistinct texts.new }
{
    let mut lexer = Lexer::begin(alloc);
    match lexer.feed(bytes, texts) {
        Ok(()) => lexer.finish(texts),
        Err(NoMemory) => Err(without_memory(bytes)),
    }
}

// Bytes that aren't UTF-8 are refused as such even where memory ran out before.
fn without_memory(bytes: &[u8]) -> LexFault
    requires { length bytes.now ≤ 1048576 }
    ensures answer { (texts : List (List ℕ)) → IsLexed {A = Global} texts bytes.now (Err result) }
{
    match str::from_utf8(bytes) {
        Ok(_) => LexFault::NoMemory,
        Err(error) => LexFault::Utf8 {
            at: error.valid_up_to() as u32,
        },
    }
}

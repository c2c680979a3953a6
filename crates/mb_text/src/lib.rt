//! The texts of the language: a table that gives each text one id, the array index that a text spells, and how a
//! text is written for a reader.
#![tactic(auto)]

mod index;
mod spelling;
#[cfg(test)]
mod tests;
mod texts;

pub use index::an_index_is_of_its_decimal_text;
pub use spelling::{a_plain_text_is_spelled_as_itself, spell};
pub use texts::{LONGEST, TextFault, Texts, equal_texts_have_equal_ids};

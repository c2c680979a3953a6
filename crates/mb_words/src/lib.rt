//! The words of a command line, and the settings that they give: our rules decide which words are accepted,
//! and `clap` reads the accepted ones.
#![tactic(auto)]

mod asked;
mod command;
mod fault;
mod laws;
mod parse;
mod role;
mod scan;
#[cfg(test)]
mod tests;
mod value;
mod values;
mod words;

ghost use Rattle.std.specs.Prelude.{map, string_bytes};
ghost use Rattle.mb_words.specs.Settings.{SettingsOf, Answers};

use command::Command;
pub use fault::{WordsFault, WordsKind};
pub use laws::{an_option_may_change_places, the_order_of_options_does_not_matter};
use parse::by_clap;
use scan::{USAGE, scan};
use std::alloc::Global;
pub use values::Settings;

/// The settings of the words after the program's name. `Usage` goes before `Schedule`, and that before `Budget`.
pub fn settings(alloc: Global, words: &[String]) -> Result<Settings, WordsFault>
    ensures { Answers result (SettingsOf (map string_bytes words.now)) }
{
    let (first, rest) = match words.split_first() {
        Some((first, rest)) => (first, rest),
        None => return Err(USAGE),
    };
    let command = match Command::of_word(first.as_str()) {
        Some(command) => command,
        None => return Err(USAGE),
    };
    let chosen = scan(alloc, command.options(), rest)?;
    if !command.takes(chosen.operands.as_slice()) {
        return Err(USAGE);
    }
    by_clap(alloc, command, &chosen)
}

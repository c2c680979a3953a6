// The words of a command line.
ghost use Rattle.std.specs.Prelude.{map, string_bytes};
ghost use Rattle.mb_cli.specs.Settings.{settings_of};
ghost use Rattle.mb_cli.specs.machine.Commands.{Commands};

use mb_words::{Settings, WordsFault, WordsKind, settings};
use std::alloc::Global;

// Two scripts that are to share one graph, by their names. Each letter of the schedule is a turn.
#[derive(Drop)]
pub struct Sharing {
    pub left: String,
    pub right: String,
    pub schedule: String,
    pub budget: u32,
    pub traced: bool,
}

// A command whose lines are all made before the first is put, with the names of its files.
#[derive(Drop)]
pub enum Listing {
    Run { left: String, right: String },
    Check { file: String },
}

#[derive(Drop)]
pub enum Command {
    List(Listing),
    Share(Sharing),
}

// What the words behind the program's name ask for, of what the program can do today.
pub fn command_of(alloc: Global, words: &[String]) -> Result<Command, WordsFault>
    ensures { Commands result (settings_of (map string_bytes words.now)) }
{
    match settings(alloc, words)? {
        Settings::Check { file } => Ok(Command::List(Listing::Check { file })),
        Settings::Shared {
            left,
            right,
            schedule,
            budget,
            traced,
        } => Ok(Command::Share(Sharing {
            left,
            right,
            schedule,
            budget,
            traced,
        })),
        Settings::Run {
            left,
            right,
            policy,
            schedule,
            budget,
            traced,
        } => {
            if policy.is_none() && schedule.is_empty() && budget == 1_000_000 && !traced {
                Ok(Command::List(Listing::Run { left, right }))
            } else {
                Err(WordsFault::Refused(WordsKind::Usage))
            }
        }
        _ => Err(WordsFault::Refused(WordsKind::Usage)),
    }
}

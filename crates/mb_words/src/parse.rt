// What `clap` makes of words in one order.
ghost use Rattle.std.specs.Prelude.{◌≡◌, IfOk, option_map, map, true, false};
ghost use Rattle.clap.specs.Words.{app_of, rule_of, found_of, rows_of};
ghost use Rattle.mb_words.specs.Settings.{Answers, asked};
ghost use Rattle.mb_words.specs.machine.Matching.{app_for, value_in, takes_operands};
ghost use Rattle.mb_words.specs.machine.Matching.{IsOwn, IsFlag};
ghost use Rattle.mb_words.specs.machine.Matching.{option_rule as rule_for, operand_rule as operands_for};
ghost use Rattle.mb_words.specs.machine.Matching.{with_options as options_for};
ghost use Rattle.mb_words.specs.machine.Scanning.{text, slots_of, chosen_by};

use crate::asked::settings_of;
use crate::command::{Command, OptionName};
use crate::fault::WordsFault;
use crate::scan::{Chosen, Slots, USAGE};
use crate::values::Settings;
use crate::words::words_in_order;
use clap::error::ErrorKind;
use clap::{Arg, ArgAction, ArgMatches};
use std::alloc::{AllocError, Global};

fn option_rule<'a>(alloc: Global, name: OptionName) -> Arg<'a>
    ensures rule { rule_of result ≡ rule_for name }
    ensures local { result.global ≡ false }
{
    let action = match name {
        OptionName::Trace => ArgAction::SetTrue,
        _ => ArgAction::Set,
    };
    Arg::new(alloc, name.label())
        .long(name.label())
        .action(action)
}

fn operand_rule<'a>(alloc: Global, command: Command) -> Arg<'a>
    ensures rule { rule_of result ≡ operands_for command }
    ensures local { result.global ≡ false }
{
    Arg::new(alloc, "operand")
        .required(true)
        .num_args(command.fewest()..=command.most())
        .action(ArgAction::Set)
}

fn with_options<'a>(alloc: Global, command: Command) -> Result<clap::Command<'a>, AllocError>
    ensures { IfOk result (λ app. app_of app ≡ options_for command) }
{
    let mut app = clap::Command::new(alloc, command.name());
    for name in command.options() {
        app = app.arg(option_rule(alloc, *name))?;
    }
    Ok(app)
}

fn app<'a>(alloc: Global, command: Command) -> Result<clap::Command<'a>, AllocError>
    ensures { IfOk result (λ app. app_of app ≡ app_for command) }
{
    with_options(alloc, command)?.arg(operand_rule(alloc, command))
}

fn value<'a>(command: Command, name: OptionName, matches: &ArgMatches<'a>) -> Option<&'a str>
    ensures { option_map text result ≡ value_in command name (rows_of (found_of matches.now)) }
{
    if command.has(name) {
        matches.get_str(name.label())
    } else {
        None
    }
}

fn flag(command: Command, name: OptionName, matches: &ArgMatches<'_>) -> bool
    ensures { IsFlag command name (rows_of (found_of matches.now)) result }
{
    command.has(name) && matches.get_flag(name.label())
}

// The values that `clap` found of the command's options.
fn slots_in<'a>(command: Command, matches: &ArgMatches<'a>) -> Slots<'a>
    ensures { IsOwn command (rows_of (found_of matches.now)) (slots_of result) }
{
    Slots {
        policy: value(command, OptionName::Policy, matches),
        schedule: value(command, OptionName::Schedule, matches),
        budget: value(command, OptionName::Budget, matches),
        traced: flag(command, OptionName::Trace, matches),
    }
}

/// What the command asks for, by what `clap` makes of its words in order.
pub fn by_clap(alloc: Global, command: Command, chosen: &Chosen<'_>) -> Result<Settings, WordsFault>
    requires { takes_operands command (map text chosen.now.operands.items) ≡ true }
    ensures { Answers result (asked command (chosen_by chosen.now)) }
{
    let words = words_in_order(alloc, command, chosen)?;
    let matches = match app(alloc, command)?.try_get_matches_from(words.as_slice()) {
        Ok(matches) => matches,
        Err(error) => match error.kind() {
            ErrorKind::OutOfMemory => return Err(WordsFault::NoMemory),
            _ => return Err(USAGE),
        },
    };
    match matches.get_strs("operand") {
        Some(operands) => settings_of(alloc, command, operands, slots_in(command, &matches)),
        None => Err(USAGE),
    }
}

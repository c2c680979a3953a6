// The settings of a command's options and operands.
ghost use Rattle.std.specs.Prelude.{◌≡◌, IfOk, map, string_bytes, Option, option_map, MatchOption, [], ◌∷◌};
ghost use Rattle.mb_words.specs.Settings.{Answers, asked, check_asked, load_asked};
ghost use Rattle.mb_words.specs.machine.Scanning.{text, slots_of, whole};
ghost use Rattle.mb_words.specs.machine.Timing.{Times, HasTexts, IsNoPair};
ghost use Rattle.mb_words.specs.Values.{schedule_of};

use crate::command::Command;
use crate::fault::{WordsFault, WordsKind};
use crate::scan::{Slots, USAGE};
use crate::value::{budget, number, schedule_fault};
use crate::values::Settings;
use std::alloc::{AllocError, Global};

// A schedule and a budget.
#[derive(Drop)]
pub struct Timing {
    pub schedule: String,
    pub budget: u32,
}

fn schedule<'a>(word: Option<&'a str>) -> &'a str
    ensures { result.now ≡ schedule_of (option_map text word.entry) }
{
    match word {
        Some(word) => word,
        None => "",
    }
}

fn timed(
    alloc: Global,
    command: Command,
    sides: usize,
    slots: Slots<'_>,
) -> Result<Timing, WordsFault>
    ensures { Times result command sides (slots_of slots.entry) }
{
    let schedule = schedule(slots.schedule);
    if let Some(at) = schedule_fault(command, sides, schedule) {
        return Err(WordsFault::Refused(WordsKind::Schedule { at }));
    }
    let budget = match budget(slots.budget) {
        Some(budget) => budget,
        None => return Err(WordsFault::Refused(WordsKind::Budget)),
    };
    Ok(Timing {
        schedule: String::from_str(alloc, schedule)?,
        budget,
    })
}

fn own_text(alloc: Global, word: Option<&str>) -> Result<Option<String>, AllocError>
    ensures { IfOk result (λ own. option_map string_bytes own ≡ option_map text word.entry) }
{
    match word {
        Some(word) => Ok(Some(String::from_str(alloc, word)?)),
        None => Ok(None),
    }
}

fn own_texts(alloc: Global, words: &[&str]) -> Result<Vec<String>, WordsFault>
    ensures { HasTexts result (map text words.now) }
{
    let mut own = Vec::new(alloc);
    for word in words {
        own.push(String::from_str(alloc, *word)?)?;
    }
    Ok(own)
}

// The two words of a list of two.
fn pair<'a>(words: &[&'a str]) -> Option<(&'a str, &'a str)>
    ensures { MatchOption result (IsNoPair (map text words.now))
        (λ p. map text words.now ≡ p.0.now ∷ p.1.now ∷ []) }
{
    if words.len() == 2 {
        Some((words[0], words[1]))
    } else {
        None
    }
}

fn run(alloc: Global, operands: &[&str], slots: Slots<'_>) -> Result<Settings, WordsFault>
    ensures { Answers result (asked Command.Run (whole (map text operands.now) (slots_of slots.entry))) }
{
    let (left, right) = match pair(operands) {
        Some(pair) => pair,
        None => return Err(USAGE),
    };
    let timing = timed(alloc, Command::Run, 2, slots)?;
    Ok(Settings::Run {
        left: String::from_str(alloc, left)?,
        right: String::from_str(alloc, right)?,
        policy: own_text(alloc, slots.policy)?,
        schedule: timing.schedule,
        budget: timing.budget,
        traced: slots.traced,
    })
}

fn shared(alloc: Global, operands: &[&str], slots: Slots<'_>) -> Result<Settings, WordsFault>
    ensures { Answers result (asked Command.Shared (whole (map text operands.now) (slots_of slots.entry))) }
{
    let (left, right) = match pair(operands) {
        Some(pair) => pair,
        None => return Err(USAGE),
    };
    let timing = timed(alloc, Command::Shared, 2, slots)?;
    Ok(Settings::Shared {
        left: String::from_str(alloc, left)?,
        right: String::from_str(alloc, right)?,
        schedule: timing.schedule,
        budget: timing.budget,
        traced: slots.traced,
    })
}

fn check(alloc: Global, operands: &[&str]) -> Result<Settings, WordsFault>
    ensures { Answers result (check_asked (map text operands.now)) }
{
    if operands.len() != 1 {
        return Err(USAGE);
    }
    Ok(Settings::Check {
        file: String::from_str(alloc, operands[0])?,
    })
}

fn load(operands: &[&str]) -> Result<Settings, WordsFault>
    ensures { Answers result (load_asked (map text operands.now)) }
{
    let (start, size) = match pair(operands) {
        Some(pair) => pair,
        None => return Err(USAGE),
    };
    let start = match number(start, 0, u32::MAX) {
        Some(start) => start,
        None => return Err(USAGE),
    };
    match number(size, 1, 5000) {
        Some(size) => Ok(Settings::Load { start, size }),
        None => Err(USAGE),
    }
}

fn sides(alloc: Global, operands: &[&str], slots: Slots<'_>) -> Result<Settings, WordsFault>
    ensures { Answers result (asked Command.Sides (whole (map text operands.now) (slots_of slots.entry))) }
{
    if operands.len() < 2 || 8 < operands.len() {
        return Err(USAGE);
    }
    let timing = timed(alloc, Command::Sides, operands.len(), slots)?;
    Ok(Settings::Sides {
        scripts: own_texts(alloc, operands)?,
        policy: own_text(alloc, slots.policy)?,
        schedule: timing.schedule,
        budget: timing.budget,
        traced: slots.traced,
    })
}

/// What the command asks for with these operands and options.
pub fn settings_of(
    alloc: Global,
    command: Command,
    operands: &[&str],
    slots: Slots<'_>,
) -> Result<Settings, WordsFault>
    ensures { Answers result (asked command (whole (map text operands.now) (slots_of slots.entry))) }
{
    match command {
        Command::Run => run(alloc, operands, slots),
        Command::Shared => shared(alloc, operands, slots),
        Command::Check => check(alloc, operands),
        Command::Load => load(operands),
        Command::Sides => sides(alloc, operands, slots),
    }
}

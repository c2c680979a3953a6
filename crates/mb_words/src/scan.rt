// The words of a command, read from left to right.
ghost use Rattle.std.specs.Prelude.{◌≡◌, List, option_map, Some, map, string_bytes, false};
ghost use Rattle.mb_words.specs.Parts.{cut, chosen as choice};
ghost use Rattle.mb_words.specs.machine.Scanning.{text, slots_of, state_of, chosen_by, Steps, Chooses, start, done};
ghost use Rattle.mb_words.specs.machine.Scanning.{put as put_slot, next as step, after, held, with_operand as extended};
ghost use Rattle.mb_words.specs.machine.Scanning.{at_role, behind_role, role_meant};

use crate::command::OptionName;
use crate::fault::{WordsFault, WordsKind};
use crate::role::{Role, is_value, operand_role, word_role};
use std::alloc::Global;

// The values of the options.
#[derive(Clone, Copy)]
pub struct Slots<'a> {
    pub policy: Option<&'a str>,
    pub schedule: Option<&'a str>,
    pub budget: Option<&'a str>,
    pub traced: bool,
}

// The operands, and the values of the options.
#[derive(Drop)]
pub struct Chosen<'a> {
    pub operands: Vec<&'a str>,
    pub slots: Slots<'a>,
}

// What was read so far.
#[derive(Drop)]
pub struct State<'a> {
    pub operands: Vec<&'a str>,
    pub slots: Slots<'a>,
    pub waits: Option<OptionName>,
    pub behind: bool,
}

pub const USAGE: WordsFault = WordsFault::Refused(WordsKind::Usage);

fn put<'a>(slots: Slots<'a>, name: OptionName, value: &'a str) -> Option<Slots<'a>>
    ensures { option_map slots_of result ≡ put_slot name value.entry.now (slots_of slots.entry) }
{
    let mut slots = slots;
    match name {
        OptionName::Policy => {
            if slots.policy.is_some() {
                return None;
            }
            slots.policy = Some(value);
        }
        OptionName::Schedule => {
            if slots.schedule.is_some() {
                return None;
            }
            slots.schedule = Some(value);
        }
        OptionName::Budget => {
            if slots.budget.is_some() {
                return None;
            }
            slots.budget = Some(value);
        }
        OptionName::Trace => {
            if slots.traced {
                return None;
            }
            slots.traced = true;
        }
    }
    Some(slots)
}

// The state with one more option and its value.
fn with_option<'a>(
    state: State<'a>,
    name: OptionName,
    value: &'a str,
) -> Result<State<'a>, WordsFault>
    ensures { Steps result (held (state_of state.entry).operands state.entry.behind
        (put_slot name value.entry.now (slots_of state.entry.slots))) }
{
    match put(state.slots, name, value) {
        Some(slots) => Ok(State {
            operands: state.operands,
            slots,
            waits: None,
            behind: state.behind,
        }),
        None => Err(USAGE),
    }
}

fn with_operand<'a>(state: State<'a>, word: &'a str) -> Result<State<'a>, WordsFault>
    ensures { Steps result (extended word.entry.now (state_of state.entry).operands
        (slots_of state.entry.slots) state.entry.behind) }
{
    let mut operands = state.operands;
    operands.push(word)?;
    Ok(State {
        operands,
        slots: state.slots,
        waits: None,
        behind: state.behind,
    })
}

fn next<'a>(names: &[OptionName], state: State<'a>, word: &'a str) -> Result<State<'a>, WordsFault>
    ensures { Steps result (step names.now (state_of state.entry) word.entry.now) }
{
    if let Some(name) = state.waits {
        if is_value(word) {
            return with_option(state, name, word);
        }
        return Err(USAGE);
    }
    if state.behind {
        return match operand_role(word) {
            Role::Operand(word) => with_operand(state, word),
            _ => Err(USAGE),
        };
    }
    at(state, word_role(names, word))
}

fn at<'a>(state: State<'a>, role: Role<'a>) -> Result<State<'a>, WordsFault>
    requires { state.behind ≡ false }
    ensures { Steps result (at_role (role_meant role.entry) (state_of state.entry).operands
        (slots_of state.entry.slots)) }
{
    match role {
        Role::Marker => Ok(State {
            operands: state.operands,
            slots: state.slots,
            waits: None,
            behind: true,
        }),
        Role::Flag(name) => with_option(state, name, ""),
        Role::Opener(name) => Ok(State {
            operands: state.operands,
            slots: state.slots,
            waits: Some(name),
            behind: false,
        }),
        Role::Given(name, value) => with_option(state, name, value),
        Role::Operand(word) => with_operand(state, word),
        Role::Wrong => Err(USAGE),
    }
}

/// What the words after a command with these options ask for, unless they break a rule.
pub fn scan<'a>(
    alloc: Global,
    names: &[OptionName],
    words: &'a [String],
) -> Result<Chosen<'a>, WordsFault>
    ensures { Chooses result (choice (cut names.now (map string_bytes words.entry.now))) }
{
    let mut state = State {
        operands: Vec::new(alloc),
        slots: Slots {
            policy: None,
            schedule: None,
            budget: None,
            traced: false,
        },
        waits: None,
        behind: false,
    };
    for word in words {
        state = next(names, state, word.as_str())?;
    }
    if state.waits.is_some() {
        return Err(USAGE);
    }
    Ok(Chosen {
        operands: state.operands,
        slots: state.slots,
    })
}

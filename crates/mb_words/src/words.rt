// The words of a command in the order in which `clap` gets them.
ghost use Rattle.std.specs.Prelude.{◌≡◌, ◌++◌, [], ◌∷◌, IfOk, map, codes, string_bytes};
ghost use Rattle.mb_words.specs.Words.{opening, options_of};
ghost use Rattle.mb_words.specs.machine.Matching.{in_order, front, option_words, name_of};
ghost use Rattle.mb_words.specs.machine.Scanning.{chosen_by};

use crate::command::{Command, OptionName};
use crate::scan::Chosen;
use mb_base::NoMemory;
use std::alloc::Global;

fn add(alloc: Global, words: &mut Vec<String>, word: &str) -> Result<(), NoMemory>
    ensures { IfOk result (λ _. map string_bytes words.new.items
        ≡ map string_bytes words.old.items ++ word.now ∷ []) }
{
    words.push(String::from_str(alloc, word)?)?;
    Ok(())
}

fn attached(alloc: Global, name: OptionName, value: &str) -> Result<String, NoMemory>
    ensures { IfOk result (λ word. string_bytes word ≡ opening name ++ value.now) }
{
    let opening = name.opening();
    match format!(in alloc; "{opening}{value}") {
        Ok(word) => Ok(word),
        Err(_) => Err(NoMemory),
    }
}

fn add_option(
    alloc: Global,
    words: &mut Vec<String>,
    name: OptionName,
    chosen: &Chosen<'_>,
) -> Result<(), NoMemory>
    ensures { IfOk result (λ _. map string_bytes words.new.items
        ≡ map string_bytes words.old.items ++ option_words name (chosen_by chosen.now)) }
{
    let value = match name {
        OptionName::Policy => chosen.slots.policy,
        OptionName::Schedule => chosen.slots.schedule,
        OptionName::Budget => chosen.slots.budget,
        OptionName::Trace => {
            if chosen.slots.traced {
                return add(alloc, words, name.option_word());
            }
            return Ok(());
        }
    };
    if let Some(value) = value {
        words.push(attached(alloc, name, value)?)?;
    }
    Ok(())
}

fn front_words(
    alloc: Global,
    command: Command,
    chosen: &Chosen<'_>,
) -> Result<Vec<String>, NoMemory>
    ensures { IfOk result (λ words. map string_bytes words.items
        ≡ name_of command ∷ front (options_of command) (chosen_by chosen.now)) }
{
    let mut words = Vec::new(alloc);
    add(alloc, &mut words, command.name())?;
    for name in command.options() {
        add_option(alloc, &mut words, *name, chosen)?;
    }
    Ok(words)
}

/// The command, its options, `--` and the operands.
pub fn words_in_order(
    alloc: Global,
    command: Command,
    chosen: &Chosen<'_>,
) -> Result<Vec<String>, NoMemory>
    ensures { IfOk result (λ words. map string_bytes words.items ≡ in_order command (chosen_by chosen.now)) }
{
    let mut words = front_words(alloc, command, chosen)?;
    add(alloc, &mut words, "--")?;
    for operand in &chosen.operands {
        add(alloc, &mut words, *operand)?;
    }
    Ok(words)
}

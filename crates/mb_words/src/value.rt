// Numbers, schedules and budgets.
ghost use Rattle.std.specs.Prelude.{◌≡◌, ◌<◌, ◌^◌, ◌≤◌, option_map, length, not, take, IfSome};
ghost use Rattle.std.specs.List.{list_all, position};
ghost use Rattle.mb_words.specs.Values.{number_of, budget_of};
ghost use Rattle.mb_words.specs.Values.{is_digit as digit, is_number as numeral, is_letter as letter};
ghost use Rattle.mb_words.specs.Values.{schedule_fault as fault_of};
ghost use Rattle.mb_words.specs.machine.Scanning.{text};

use crate::command::Command;

const LETTERS: usize = 10_000;

fn is_digit(byte: u8) -> bool
    ensures { result ≡ digit byte }
{
    b'0' <= byte && byte <= b'9'
}

fn has_digits_alone(word: &[u8]) -> bool
    ensures { result ≡ list_all digit word.now }
{
    word.iter().all(|byte| is_digit(*byte))
}

// Whether the word is `0`, or digits of which the first isn't `0`.
fn is_number(word: &[u8]) -> bool
    ensures { result ≡ numeral word.now }
{
    !word.is_empty() && has_digits_alone(word) && (word[0] != b'0' || word.len() == 1)
}

// The number that the word writes, from the least to the most.
pub fn number(word: &str, least: u32, most: u32) -> Option<u32>
    ensures { result ≡ number_of least most word.now }
{
    if !is_number(word.as_bytes()) {
        return None;
    }
    match word.parse::<u32>() {
        Ok(number) => {
            if least <= number && number <= most {
                Some(number)
            } else {
                None
            }
        }
        Err(_) => None,
    }
}

pub fn budget(word: Option<&str>) -> Option<u32>
    ensures { result ≡ budget_of (option_map text word.entry) }
{
    match word {
        Some(word) => number(word, 0, 4_000_000),
        None => Some(1_000_000),
    }
}

fn is_letter(command: Command, sides: usize, byte: u8) -> bool
    ensures { result ≡ letter command sides byte }
{
    match command {
        Command::Run => byte == b'L' || byte == b'R' || byte == b'X',
        Command::Shared => byte == b'L' || byte == b'R',
        Command::Sides => (b'A' <= byte && ((byte - b'A') as usize) < sides) || byte == b'X',
        Command::Check | Command::Load => false,
    }
}

// The place of the first byte that is no letter, among as many as a schedule may have.
fn first_other(command: Command, sides: usize, word: &[u8]) -> Option<usize>
    ensures place { result ≡ position (λ b. not (letter command sides b)) (take 10000 word.now) }
    ensures bound { IfSome result (λ at. at < 10000) }
{
    word.iter()
        .take(LETTERS)
        .position(|byte| !is_letter(command, sides, *byte))
}

// The place of the first byte that is no letter, or of the first letter too many.
pub fn schedule_fault(command: Command, sides: usize, word: &str) -> Option<u32>
    ensures { result ≡ fault_of command sides word.now }
{
    let letters = word.as_bytes();
    match first_other(command, sides, letters) {
        Some(at) => Some(at as u32),
        None => {
            if LETTERS < letters.len() {
                Some(LETTERS as u32)
            } else {
                None
            }
        }
    }
}

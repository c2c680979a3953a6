// The letters of a schedule.
ghost use Rattle.std.specs.Prelude.{◌≡◌, IfOk, map};
ghost use Rattle.mb_cli.specs.Sharing.{letter_of as meant_by, letters_of};
ghost use Rattle.mb_story.specs.Running.{NamesItsSide, NamesItsSides, letter_of};

use mb_base::{NoMemory, Side};
use mb_story::Letter;
use std::alloc::Global;

// The turn of a letter.
fn letter(byte: u8) -> Letter
    ensures letter { letter_of result ≡ meant_by byte }
    ensures side { NamesItsSide 2 result }
{
    match byte {
        b'L' => Letter::Turn(Side::LEFT),
        _ => Letter::Turn(Side::RIGHT),
    }
}

// The turns of a schedule of two sides.
pub fn letters(alloc: Global, schedule: &[u8]) -> Result<Vec<Letter>, NoMemory>
    ensures letters { IfOk result (λ word. map letter_of word.items ≡ letters_of schedule.now) }
    ensures sides { IfOk result (λ word. NamesItsSides 2 word.items) }
{
    let mut word = Vec::new(alloc);
    for byte in schedule {
        word.push(letter(*byte))?;
    }
    Ok(word)
}

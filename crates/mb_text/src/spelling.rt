// How a text is written for a reader.
ghost use Rattle.std.specs.Prelude.{◌≡◌, ◌<◌, ◌≤◌, ◌++◌, Bool, true, List, ℕ, length, take, encode_utf8, OnOk, OnErr};
ghost use Rattle.std.specs.Char.{digit_char};
ghost use Rattle.std.specs.Char.Utf16.{surrogate_pair_char};
ghost use Rattle.std.specs.List.{list_all};
ghost use Rattle.mb_text.specs.Spelling.{is_plain, spelled, spelled_unit, unicode_escape};

use mb_base::NoMemory;
use std::alloc::AllocError;

/// Appends the spelling of a text, in UTF-8. Most characters stand for themselves. `\` is written `\\`, a line feed
/// `\n` and a carriage return `\r`; the other control characters of ASCII, and a unit that is half of no surrogate
/// pair, are written `\u` with the unit's value in base 16, four digits long and in lower case. A text that will stand
/// between quotes (`quoted`) has `\"` for `"`. The time is linear in the units.
pub fn spell(units: &[u16], quoted: bool, out: &mut Vec<u8>) -> Result<(), NoMemory>
    ensures spelled { OnOk result (out.new.items ≡ out.old.items ++ spelled quoted units.now) }
    ensures kept { OnErr result (out.new.items ≡ out.old.items) }
{
    let kept = out.len();
    match spell_all(units, quoted, out) {
        Ok(()) => Ok(()),
        Err(_) => {
            out.truncate(kept);
            Err(NoMemory)
        }
    }
}

/// The law of plain texts: a text of the characters from U+0020 to U+007E other than `"` and `\` is spelled as itself.
pub fn a_plain_text_is_spelled_as_itself()
    ensures { (quoted : Bool) (text : List ℕ) → list_all is_plain text ≡ true → spelled quoted text ≡ text }
{}

// The same, but where memory ends, the bytes that were appended stay.
fn spell_all(units: &[u16], quoted: bool, out: &mut Vec<u8>) -> Result<(), AllocError>
    ensures spelled { OnOk result (out.new.items ≡ out.old.items ++ spelled quoted units.now) }
    ensures begun { take (length out.old.items) out.new.items ≡ out.old.items }
{
    let mut rest = units;
    loop {
        rest = match rest {
            [] => return Ok(()),
            [high @ 0xD800..=0xDBFF, low @ 0xDC00..=0xDFFF, after @ ..] => {
                push_char(pair_char(*high, *low), out)?;
                after
            }
            [unit, after @ ..] => {
                spell_unit(*unit, quoted, out)?;
                after
            }
        };
    }
}

// A unit that is no part of a surrogate pair.
fn spell_unit(unit: u16, quoted: bool, out: &mut Vec<u8>) -> Result<(), AllocError>
    ensures spelled { OnOk result (out.new.items ≡ out.old.items ++ spelled_unit quoted unit) }
    ensures kept { OnErr result (out.new.items ≡ out.old.items) }
{
    match char::from_u32(u32::from(unit)) {
        Some('\\') => out.extend_from_slice(b"\\\\"),
        Some('\n') => out.extend_from_slice(b"\\n"),
        Some('\r') => out.extend_from_slice(b"\\r"),
        Some('"') if quoted => out.extend_from_slice(b"\\\""),
        Some(ch) if ch >= ' ' && ch != '\x7F' => push_char(ch, out),
        _ => out.extend_from_slice(&escape(unit)),
    }
}

fn push_char(ch: char, out: &mut Vec<u8>) -> Result<(), AllocError>
    ensures pushed { OnOk result (out.new.items ≡ out.old.items ++ encode_utf8 ch) }
    ensures kept { OnErr result (out.new.items ≡ out.old.items) }
{
    let mut bytes = [0; 4];
    out.extend_from_slice(ch.encode_utf8(&mut bytes).as_bytes())
}

// The character of a surrogate pair (ECMA-262, 11.1.3).
fn pair_char(high: u16, low: u16) -> char
    requires high { (0xD800 ≤ high) × (high < 0xDC00) }
    requires low { (0xDC00 ≤ low) × (low < 0xE000) }
    ensures { result ≡ surrogate_pair_char high low }
{
    let code = 0x1_0000 + (u32::from(high) - 0xD800) * 0x400 + (u32::from(low) - 0xDC00);
    char::from_u32(code).unwrap()
}

fn escape(unit: u16) -> [u8; 6]
    ensures { result ≡ unicode_escape unit }
{
    [
        b'\\',
        b'u',
        hex_digit(unit / 0x1000 % 16),
        hex_digit(unit / 0x100 % 16),
        hex_digit(unit / 0x10 % 16),
        hex_digit(unit % 16),
    ]
}

fn hex_digit(value: u16) -> u8
    requires { value < 16 }
    ensures { result ≡ digit_char value }
{
    let value = value as u8;
    if value < 10 {
        b'0' + value
    } else {
        b'a' + (value - 10)
    }
}

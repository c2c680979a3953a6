// Array indices in texts.
ghost use Rattle.std.specs.Prelude.{◌≡◌, ◌<◌, ◌≤◌, ℕ, List, length, decimal, MatchOption};
ghost use Rattle.std.specs.Str.Parse.{digits_value};
ghost use Rattle.mb_text.specs.Index.{index_of, no_index};
ghost use Rattle.mb_text.specs.machine.Digits.{AreDigits};

// The most digits of an array index.
const MOST_DIGITS: usize = 10;

const ZERO: u16 = b'0' as u16;

const NINE: u16 = b'9' as u16;

// The array index that a text spells (ECMA-262, 6.1.7), or `u32::MAX` for none.
pub(crate) fn array_index(units: &[u16]) -> u32
    ensures { result ≡ index_of units.now }
{
    if units.is_empty() || units.len() > MOST_DIGITS {
        return u32::MAX;
    }
    if units[0] == ZERO && units.len() > 1 {
        return u32::MAX;
    }
    match number(units) {
        Some(n) => n.min(u64::from(u32::MAX)) as u32,
        None => u32::MAX,
    }
}

/// The law of array indices: each number below 2^32 - 1 is the index of its decimal text, and of no other.
pub fn an_index_is_of_its_decimal_text()
    ensures index { (n : ℕ) → n < no_index → index_of (decimal n) ≡ n }
    ensures text { (text : List ℕ) → index_of text < no_index → decimal (index_of text) ≡ text }
    ensures bound { (text : List ℕ) → index_of text ≤ no_index }
{}

// The number that the units write, if each is a digit.
fn number(units: &[u16]) -> Option<u64>
    requires { length units.now ≤ MOST_DIGITS }
    ensures { MatchOption result (¬ (AreDigits units.now)) (λ n. AreDigits units.now
        × (n ≡ digits_value 10 units.now)) }
{
    let mut n = 0;
    for unit in units {
        if !(ZERO..=NINE).contains(unit) {
            return None;
        }
        n = 10 * n + u64::from(*unit - ZERO);
    }
    Some(n)
}

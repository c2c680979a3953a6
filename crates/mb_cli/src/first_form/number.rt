// Whole numbers.
ghost use Rattle.std.specs.Prelude.{◌≡◌, ℕ, List, ◌≤◌, ◌<◌, ◌^◌, length, drop, pos, IfSome, IsNone, true};
ghost use Rattle.std.specs.Char.{is_ascii_digit};
ghost use Rattle.std.specs.Fmt.{decimal};
ghost use Rattle.std.specs.List.{list_all, prefix_len};
ghost use Rattle.std.specs.Str.Parse.{digits_value};
ghost use Rattle.mb_cli.specs.first_form.Lexemes.{whole, largest, IsAtFront};

// The greatest whole number, 2^53 - 1.
const LARGEST: i64 = 9_007_199_254_740_991;

// How many digits the bytes begin with.
fn digits_len(bytes: &[u8]) -> usize
    ensures { result ≡ prefix_len is_ascii_digit bytes.now }
{
    bytes.iter().take_while(|b| b.is_ascii_digit()).count()
}

// The number that digits write, where it fits.
fn value_of(digits: &[u8]) -> Option<i64>
    requires digits { list_all is_ascii_digit digits.now ≡ true }
    requires some { 0 < length digits.now }
    ensures value { IfSome result (λ z. z ≡ pos (digits_value 10 digits.now)) }
    ensures none { IsNone result → 2 ^ 63 ≤ digits_value 10 digits.now }
{
    match std::str::from_utf8(digits) {
        Ok(text) => text.parse().ok(),
        Err(_) => None,
    }
}

// The whole number that digits without a leading zero write.
fn whole_of(digits: &[u8]) -> Option<i64>
    requires { list_all is_ascii_digit digits.now ≡ true }
    ensures is { IfSome result (λ z. (n : ℕ) × (z ≡ pos n) × (n ≤ largest) × (decimal n ≡ digits.now)) }
    ensures none { IsNone result → (n : ℕ) → n ≤ largest → decimal n ≡ digits.now → ⊥ }
{
    if digits.is_empty() {
        return None;
    }
    if digits[0] == b'0' && digits.len() > 1 {
        return None;
    }
    match value_of(digits) {
        Some(value) if value > LARGEST => None,
        found => found,
    }
}

// The whole number at the front of the bytes, and the number of its digits.
pub fn number_at(bytes: &[u8]) -> Option<(i64, usize)>
    ensures found { IfSome result (λ p. (n : ℕ) × (p.0 ≡ pos n) × (p.1 ≤ length bytes.now)
        × IsAtFront (whole n) bytes.now (drop p.1 bytes.now)) }
    ensures none { IsNone result → (n : ℕ) (rest : List ℕ) → IsAtFront (whole n) bytes.now rest → ⊥ }
{
    let count = digits_len(bytes);
    match whole_of(&bytes[..count]) {
        Some(value) => Some((value, count)),
        None => None,
    }
}

// From bytes to tokens.
ghost use Rattle.std.specs.Prelude.{◌≡◌, ℕ, List, ◌≤◌, ◌<◌, length, drop, IfOk, Err, false, true, slice_index};
ghost use Rattle.mb_cli.specs.first_form.Lexemes.{Meaning, FirstLexeme, IsAtFront, HasFirstTokens};
ghost use Rattle.mb_text.specs.Spelling.{is_plain as plain};
ghost use Rattle.mb_cli.specs.first_form.Lexemes.{text};
ghost use Rattle.std.specs.List.{prefix_len};
ghost use Rattle.mb_text.specs.Texts.{KeepsIds};
ghost use Rattle.mb_cli.specs.first_form.machine.Meanings.{Means, AreRead};

use super::number::number_at;
use super::token::{Spanned, Token};
use mb_text::{TextFault, Texts};
use std::alloc::{AllocError, AllocFailed, Global};

/// Why bytes have no tokens.
#[derive(Clone, Copy, Debug, PartialEq, Eq)]
pub enum LexFault {
    Other,
    NoMemory,
}

impl From<AllocError> for LexFault {
    ghost use Rattle.std.specs.Prelude.{◌≡◌};
    ghost use Rattle.mb_cli.specs.declared.first_form.reading.LexFault.TheVariants.{NoMemory};

    ghost from_gives = { λ _ fault. fault ≡ NoMemory };

    fn from(_: AllocError) -> LexFault {
        LexFault::NoMemory
    }
}

impl<T: Drop> From<AllocFailed<T>> for LexFault {
    ghost use Rattle.std.specs.Prelude.{◌≡◌};
    ghost use Rattle.mb_cli.specs.declared.first_form.reading.LexFault.TheVariants.{NoMemory};

    ghost from_gives = { λ _ fault. fault ≡ NoMemory };

    fn from(_: AllocFailed<T>) -> LexFault {
        LexFault::NoMemory
    }
}

// Whether a text may hold this byte.
fn is_plain(byte: u8) -> bool
    ensures { result ≡ plain byte }
{
    matches!(byte, b' '..=b'~') && byte != b'"' && byte != b'\\'
}

// How many bytes that a text may hold stand at the front.
fn plain_len(bytes: &[u8]) -> usize
    ensures { result ≡ prefix_len plain bytes.now }
{
    bytes.iter().take_while(|b| is_plain(**b)).count()
}

// The units of a text of ASCII.
fn units_of(alloc: Global, bytes: &[u8]) -> Result<Vec<u16>, AllocError>
    ensures { IfOk result (λ units. units.items ≡ bytes.now) }
{
    bytes.iter().copied().map(u16::from).collect(alloc)
}

// The text that begins with the quote at the front of the bytes, and the number of its bytes with both quotes.
fn text_at(alloc: Global, bytes: &[u8], texts: &mut Texts) -> Result<(Token, usize), LexFault>
    requires size { length bytes.now ≤ 1048576 }
    requires some { 0 < length bytes.now }
    requires quote { slice_index bytes.now 0 ≡ 34 }
    ensures stands { IfOk result (λ r. (units : List ℕ) × Means texts.new r.0 (text units)
        × (r.1 ≤ length bytes.now) × IsAtFront (text units) bytes.now (drop r.1 bytes.now)) }
    ensures other { result ≡ Err LexFault.Other → (units rest : List ℕ) → IsAtFront (text units) bytes.now rest → ⊥ }
    ensures ids { KeepsIds texts.old texts.new }
{
    let inside = &bytes[1..];
    let count = plain_len(inside);
    if count == inside.len() || inside[count] != b'"' {
        return Err(LexFault::Other);
    }
    let units = units_of(alloc, &inside[..count])?;
    match texts.intern(&units) {
        Ok(id) => Ok((Token::Text(id), count + 2)),
        Err(TextFault::NoMemory) => Err(LexFault::NoMemory),
        Err(TextFault::Long) => unreachable!(),
    }
}

// The token at the front of the bytes, and how many bytes it has.
fn token_at(alloc: Global, bytes: &[u8], texts: &mut Texts) -> Result<(Token, usize), LexFault>
    requires size { length bytes.now ≤ 1048576 }
    requires some { 0 < length bytes.now }
    ensures stands { IfOk result (λ r. (token : Meaning) × Means texts.new r.0 token
        × (r.1 ≤ length bytes.now) × IsAtFront token bytes.now (drop r.1 bytes.now)) }
    ensures other { result ≡ Err LexFault.Other
        → (token : Meaning) (rest : List ℕ) → IsAtFront token bytes.now rest → ⊥ }
    ensures ids { KeepsIds texts.old texts.new }
{
    match bytes[0] {
        b'p' if bytes.starts_with(b"print") => Ok((Token::Print, 5)),
        b'(' => Ok((Token::OpenParen, 1)),
        b')' => Ok((Token::CloseParen, 1)),
        b';' => Ok((Token::Semicolon, 1)),
        b'"' => text_at(alloc, bytes, texts),
        _ => match number_at(bytes) {
            Some((value, count)) => Ok((Token::Whole(value), count)),
            None => Err(LexFault::Other),
        },
    }
}

/// The tokens of a text, in order. It is `Other` where the bytes have none; the texts keep their ids in any case, and
/// may hold more texts after a refusal. The time is linear in the bytes.
pub fn lex(alloc: Global, bytes: &[u8], texts: &mut Texts) -> Result<Vec<Spanned>, LexFault>
    requires size { length bytes.now ≤ 1048576 }
    ensures tokens { IfOk result (λ tokens. (lexemes : List FirstLexeme)
        × HasFirstTokens bytes.now lexemes × AreRead texts.new tokens.items lexemes) }
    ensures other { result ≡ Err LexFault.Other → (lexemes : List FirstLexeme) → HasFirstTokens bytes.now lexemes → ⊥ }
    ensures ids { KeepsIds texts.old texts.new }
{
    let mut tokens = Vec::new(alloc);
    let mut at = 0;
    let mut after_line = false;
    while at < bytes.len() {
        let byte = bytes[at];
        if byte == b' ' || byte == b'\n' {
            after_line |= byte == b'\n';
            at += 1;
            continue;
        }
        let (token, count) = token_at(alloc, &bytes[at..], texts)?;
        let to = at + count;
        tokens.push(Spanned {
            token,
            from: at as u32,
            to: to as u32,
            after_line,
        })?;
        after_line = false;
        at = to;
    }
    Ok(tokens)
}

#[cfg(test)]
mod tests {
    use super::*;
    use mb_base::StrId;
    use std::test::Fail;

    #[test]
    fn gives_tokens_with_their_places(rt: HostRuntime) -> Result<(), Fail> {
        let mut texts = Texts::new(rt.alloc());
        let script = b"print ( \"a b\"\n ) ;\n9007199254740991\"a b\"";
        let tokens = lex(rt.alloc(), script, &mut texts)?;
        let text = Token::Text(StrId(0));
        let wanted = [
            (Token::Print, 0, 5, false),
            (Token::OpenParen, 6, 7, false),
            (text, 8, 13, false),
            (Token::CloseParen, 15, 16, true),
            (Token::Semicolon, 17, 18, false),
            (Token::Whole(9_007_199_254_740_991), 19, 35, true),
            (text, 35, 40, false),
        ];
        assert_eq!(rt; tokens.len(), wanted.len());
        for (found, (token, from, to, after_line)) in tokens.iter().zip(wanted) {
            let want = Spanned {
                token,
                from,
                to,
                after_line,
            };
            assert_eq!(rt; *found, want);
        }
        assert_eq!(rt; texts.intern(&[97, 32, 98]), Ok(StrId(0)));
        Ok(())
    }

    #[test]
    fn refuses_what_is_no_token(rt: HostRuntime) {
        let refused: [&[u8]; 9] = [
            b"01",
            b"00",
            b"9007199254740992",
            b"99999999999999999999999",
            b"prin",
            b"\"a",
            b"\"a\\\"",
            b"\"\x7f\"",
            b"print(1+1);",
        ];
        for bytes in refused {
            let mut texts = Texts::new(rt.alloc());
            let answer = lex(rt.alloc(), bytes, &mut texts);
            assert!(rt; matches!(answer, Err(LexFault::Other)), "{bytes:?}");
        }
    }
}

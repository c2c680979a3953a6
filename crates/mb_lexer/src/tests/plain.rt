// A plain program that reads a text token by token, as the format says it.
use std::alloc::{AllocError, Global};

#[derive(Clone, Copy, Debug, PartialEq, Eq)]
pub enum Kind {
    Name,
    Soft,
    Word,
    Whole,
    Text,
    Mark,
}

/// A token with the units that it stands for, or that spell it.
#[derive(Debug, Drop)]
pub struct Plain {
    pub kind: Kind,
    pub units: Vec<u16>,
    pub from: usize,
    pub to: usize,
    pub after_line: bool,
}

/// Where and why the tokens stop.
#[derive(Clone, Copy, Debug, PartialEq, Eq)]
pub enum End {
    Whole,
    Token(usize),
    Number(usize),
}

/// Characters with the offsets of their first bytes.
type Chars<'a> = &'a [(usize, char)];

const RESERVED: &str =
    " arguments await break case catch class const continue debugger default delete do else \
enum eval export extends false finally for function if implements import in instanceof interface let new null \
package private protected public return static super switch this throw true try typeof undefined var void while \
with yield ";

const MARKS: &str = "=== !== => <= >= && || ++ -- += -= *= { } ( ) [ ] . ; , < > + - * / % ! ? : =";

fn at(left: Chars, i: usize) -> Option<char> {
    left.get(i).map(|x| x.1)
}

fn after(left: Chars, n: usize) -> Chars {
    if n <= left.len() { &left[n..] } else { &[] }
}

fn is_line_end(c: char) -> bool {
    c == '\n' || c == '\r' || c == '\u{2028}' || c == '\u{2029}'
}

fn is_blank(c: char) -> bool {
    c == '\t' || c == '\u{b}' || c == '\u{c}' || c == ' ' || c == '\u{a0}' || c == '\u{feff}'
}

fn starts_name(c: char) -> bool {
    c == '$' || c == '_' || unicode_ident::is_xid_start(c)
}

fn continues_name(c: char) -> bool {
    c == '$' || c == '\u{200c}' || c == '\u{200d}' || unicode_ident::is_xid_continue(c)
}

fn in_number(c: char) -> bool {
    c == '.' || c.is_digit(10) || continues_name(c)
}

fn add(units: &mut Vec<u16>, code: u32) -> Result<(), AllocError> {
    let rest = code.saturating_sub(0x1_0000);
    if code < 0x1_0000 {
        units.push(u16::try_from(code).unwrap_or(0))?;
    } else {
        units.push(u16::try_from((rest >> 10).saturating_add(0xd800)).unwrap_or(0))?;
        units.push(u16::try_from((rest & 0x3ff).saturating_add(0xdc00)).unwrap_or(0))?;
    }
    Ok(())
}

/// The units of a text.
pub fn units(alloc: Global, text: &str) -> Result<Vec<u16>, AllocError> {
    let mut units = Vec::new(alloc);
    for c in text.chars() {
        add(&mut units, u32::from(c))?;
    }
    Ok(units)
}

/// The characters of a text.
pub fn chars_of(alloc: Global, text: &str) -> Result<Vec<(usize, char)>, AllocError> {
    let mut chars = Vec::new(alloc);
    for (place, c) in text.char_indices() {
        chars.push((place, c))?;
    }
    Ok(chars)
}

// How many characters a part in front has, and whether a line end is in it. A comment without an end has none.
fn part(left: Chars) -> Option<(usize, bool)> {
    match (at(left, 0), at(left, 1)) {
        (Some('/'), Some('/')) => {
            let end = left.iter().position(|x| is_line_end(x.1));
            Some((end.unwrap_or(left.len()), false))
        }
        (Some('/'), Some('*')) => {
            let inside = after(left, 2);
            let mut line = false;
            for i in 0..inside.len() {
                if at(inside, i) == Some('*') && at(after(inside, 1), i) == Some('/') {
                    return Some((i.saturating_add(4), line));
                }
                line = line || at(inside, i).is_some_and(is_line_end);
            }
            None
        }
        (Some(c), _) if is_blank(c) || is_line_end(c) => Some((1, is_line_end(c))),
        _ => None,
    }
}

// The number of so many hexadecimal digits.
fn hex(digits: Chars) -> Option<u32> {
    let mut n = 0u32;
    for x in digits {
        n = n.saturating_mul(16).saturating_add(x.1.to_digit(16)?);
    }
    Some(n)
}

// The length of an escape, from its `\`, and the code that it stands for.
fn escape(left: Chars) -> Option<(usize, u32)> {
    let c = at(left, 1)?;
    match c {
        'n' => Some((2, 10)),
        't' => Some((2, 9)),
        'r' => Some((2, 13)),
        'b' => Some((2, 8)),
        'f' => Some((2, 12)),
        'v' => Some((2, 11)),
        '0' if !at(left, 2).is_some_and(|d| d.is_digit(10)) => Some((2, 0)),
        'x' if left.len() >= 4 => Some((4, hex(&left[2..4])?)),
        'u' if at(left, 2) == Some('{') => {
            let digits = after(left, 3);
            let n = digits.iter().position(|x| x.1 == '}')?;
            let code = if n <= digits.len() {
                hex(&digits[..n])?
            } else {
                0
            };
            if n > 0 && code <= 0x10_ffff {
                Some((n.saturating_add(4), code))
            } else {
                None
            }
        }
        'u' if left.len() >= 6 => Some((6, hex(&left[2..6])?)),
        'x' | 'u' => None,
        _ if c.is_digit(10) || is_line_end(c) => None,
        _ => Some((2, u32::from(c))),
    }
}

// The length of a text, with its quotes, and its units.
fn text(alloc: Global, left: Chars) -> Result<Option<(usize, Vec<u16>)>, AllocError> {
    let quote = at(left, 0);
    let mut units = Vec::new(alloc);
    let mut n = 1usize;
    for _ in 0..left.len() {
        let rest = after(left, n);
        match at(rest, 0) {
            None | Some('\n' | '\r') => return Ok(None),
            c if c == quote => return Ok(Some((n.saturating_add(1), units))),
            Some('\\') => match escape(rest) {
                None => return Ok(None),
                Some((length, code)) => {
                    add(&mut units, code)?;
                    n = n.saturating_add(length);
                }
            },
            Some(c) => {
                add(&mut units, u32::from(c))?;
                n = n.saturating_add(1);
            }
        }
    }
    Ok(None)
}

// Whether the characters are those of a text.
fn is_text(chars: Chars, text: &str) -> bool {
    chars.len() == text.chars().count() && starts(chars, text)
}

fn starts(chars: Chars, text: &str) -> bool {
    let mut left = chars;
    for c in text.chars() {
        match left {
            [x, rest @ ..] if x.1 == c => left = rest,
            _ => return false,
        }
    }
    true
}

fn is_number(digits: Chars) -> bool {
    let mut n = 0u64;
    for x in digits {
        match x.1.to_digit(10) {
            Some(d) => n = n.saturating_mul(10).saturating_add(u64::from(d)),
            None => return false,
        }
    }
    n <= 9_007_199_254_740_991 && (digits.len() == 1 || at(digits, 0) != Some('0'))
}

// The kind of the token in front and its length, with the units of a text. `None` where no token stands.
fn token(alloc: Global, left: Chars) -> Result<Option<(Kind, usize, Vec<u16>)>, AllocError> {
    let units = Vec::new(alloc);
    let Some(c) = at(left, 0) else {
        return Ok(None);
    };
    if starts_name(c) {
        let n = left
            .iter()
            .position(|x| !continues_name(x.1))
            .unwrap_or(left.len());
        let word = if n <= left.len() { &left[..n] } else { left };
        let mut kind = Kind::Name;
        for reserved in RESERVED.split(' ') {
            if is_text(word, reserved) {
                kind = Kind::Word;
            }
        }
        if is_text(word, "get") || is_text(word, "set") {
            kind = Kind::Soft;
        }
        return Ok(Some((kind, n, units)));
    }
    if c.is_digit(10) {
        let n = left
            .iter()
            .position(|x| !in_number(x.1))
            .unwrap_or(left.len());
        let digits = if n <= left.len() { &left[..n] } else { left };
        return Ok(if is_number(digits) {
            Some((Kind::Whole, n, units))
        } else {
            None
        });
    }
    if c == '"' || c == '\'' {
        return Ok(text(alloc, left)?.map(|(n, units)| (Kind::Text, n, units)));
    }
    if c == '/' && at(left, 1) == Some('*') {
        return Ok(None);
    }
    for mark in MARKS.split(' ') {
        if starts(left, mark) {
            return Ok(Some((Kind::Mark, mark.len(), units)));
        }
    }
    Ok(None)
}

/// The tokens of a text, and where they stop.
pub fn tokens(alloc: Global, text: &str) -> Result<(Vec<Plain>, End), AllocError> {
    let chars = chars_of(alloc, text)?;
    let mut left = chars.as_slice();
    let mut found = Vec::new(alloc);
    let mut after_line = false;
    for _ in 0..=chars.len() {
        let Some(first) = left.first() else {
            break;
        };
        let from = first.0;
        if let Some((n, line)) = part(left) {
            after_line = after_line || line;
            left = after(left, n);
            continue;
        }
        let Some((kind, n, mut units)) = token(alloc, left)? else {
            let end = if first.1.is_digit(10) {
                End::Number(from)
            } else {
                End::Token(from)
            };
            return Ok((found, end));
        };
        if kind != Kind::Text {
            for x in left.iter().take(n) {
                add(&mut units, u32::from(x.1))?;
            }
        }
        left = after(left, n);
        let to = left.first().map_or(text.len(), |x| x.0);
        found.push(Plain {
            kind,
            units,
            from,
            to,
            after_line,
        })?;
        after_line = false;
    }
    Ok((found, End::Whole))
}

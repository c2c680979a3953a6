// What a character does to a token that isn't finished.
ghost use Rattle.std.specs.Prelude.{◌≡◌};
ghost use Rattle.mb_lexer.specs.Characters.{is_blank as is_blank_char, is_line_end as is_line_end_char, starts_name as starts_name_char, continues_name as continues_name_char};
ghost use Rattle.mb_lexer.specs.machine.Machine.{opening_of, begun, whole_move, plain_move, escape_move, hex_move, code_move, inside_move, mark_move, last_move, split_move, move_of, is_parting as is_parting_state};

use mb_token::Mark;

/// What has come of the token that isn't finished.
#[derive(Clone, Copy, Debug, PartialEq, Eq)]
pub enum State {
    /// Nothing yet.
    Between,
    InName,
    /// A number by its value. It is 0 after the digit `0` alone.
    InWhole(u64),
    /// A text after its opening quote, which is named.
    InText(char, Inside),
    /// A text with both quotes.
    AfterText,
    InLineComment,
    /// Whether a `*` came last, after the one that opened the comment.
    InBlockComment(bool),
    /// A mark, which may be the front of a longer one.
    InMark(Mark),
    /// `&`, which is no mark.
    Ampersand,
    /// `|`, which is no mark.
    Bar,
    /// `==`, which is two marks unless a third `=` comes.
    DoubleEqual,
    /// `!=`, which is two marks unless another `=` comes.
    NotEqual,
}

/// Where in a text the last character stood.
#[derive(Clone, Copy, Debug, PartialEq, Eq)]
pub enum Inside {
    /// Between two pieces.
    Plain,
    /// After `\0`, so that no digit may come.
    Nul,
    /// After `\`.
    Escape,
    /// After `\u`.
    Unicode,
    /// After the front of `\xHH` or `\uHHHH`: how many digits are to come, and the value of those that came.
    Digits(u8, u16),
    /// After `\u{`.
    Open,
    /// After `\u{` and digits of this value.
    Code(u32),
}

/// What becomes of the token when a character comes.
#[derive(Clone, Copy, Debug, PartialEq, Eq)]
pub enum Move {
    /// It goes on.
    Goes(State),
    /// It goes on, and its text gets the units of this code.
    Adds(State, u32),
    /// Its first character is this mark, and the next begins `=>`.
    Splits(Mark),
    /// It ended before the character.
    Ends,
    /// It is faulty.
    Fails,
}

const MOST: u64 = 9_007_199_254_740_991;

const LAST_CODE: u32 = 0x10_ffff;

pub fn is_blank(ch: char) -> bool
    ensures { result ≡ is_blank_char ch }
{
    matches!(ch, '\t' | '\u{b}' | '\u{c}' | ' ' | '\u{a0}' | '\u{feff}')
}

pub fn is_line_end(ch: char) -> bool
    ensures { result ≡ is_line_end_char ch }
{
    matches!(ch, '\n' | '\r' | '\u{2028}' | '\u{2029}')
}

fn starts_name(ch: char) -> bool
    ensures { result ≡ starts_name_char ch }
{
    ch == '$' || ch == '_' || unicode_ident::is_xid_start(ch)
}

fn continues_name(ch: char) -> bool
    ensures { result ≡ continues_name_char ch }
{
    ch == '$'
        || ch == '_'
        || ch == '\u{200c}'
        || ch == '\u{200d}'
        || unicode_ident::is_xid_continue(ch)
}

// What a mark's first character opens.
#[tactic(auto, unfolding(crate::specs::machine::Machine::opening_of))]
fn opening(ch: char) -> Option<State>
    ensures { result ≡ opening_of ch }
{
    let mark = match ch {
        '{' => Mark::OpenBrace,
        '}' => Mark::CloseBrace,
        '(' => Mark::OpenParen,
        ')' => Mark::CloseParen,
        '[' => Mark::OpenBracket,
        ']' => Mark::CloseBracket,
        '.' => Mark::Dot,
        ';' => Mark::Semicolon,
        ',' => Mark::Comma,
        '<' => Mark::Less,
        '>' => Mark::Greater,
        '+' => Mark::Plus,
        '-' => Mark::Minus,
        '*' => Mark::Times,
        '/' => Mark::Slash,
        '%' => Mark::Percent,
        '!' => Mark::Not,
        '?' => Mark::Question,
        ':' => Mark::Colon,
        '=' => Mark::Equal,
        '&' => return Some(State::Ampersand),
        '|' => return Some(State::Bar),
        _ => return None,
    };
    Some(State::InMark(mark))
}

/// What a character begins where no token is open.
#[tactic(auto, unfolding(crate::specs::machine::Machine::begun))]
pub fn begin(ch: char) -> Move
    ensures { result ≡ begun ch }
{
    if is_blank(ch) || is_line_end(ch) {
        return Move::Goes(State::Between);
    }
    if starts_name(ch) {
        return Move::Adds(State::InName, u32::from(ch));
    }
    if let Some(digit) = ch.to_digit(10) {
        return Move::Goes(State::InWhole(u64::from(digit)));
    }
    if ch == '"' || ch == '\'' {
        return Move::Goes(State::InText(ch, Inside::Plain));
    }
    match opening(ch) {
        Some(state) => Move::Goes(state),
        None => Move::Fails,
    }
}

#[tactic(auto, unfolding(crate::specs::machine::Machine::whole_move))]
fn next_in_whole(value: u64, ch: char) -> Move
    ensures { result ≡ whole_move value ch }
{
    if let Some(digit) = ch.to_digit(10) {
        let grown = value.saturating_mul(10).saturating_add(u64::from(digit));
        return if value > 0 && grown <= MOST {
            Move::Goes(State::InWhole(grown))
        } else {
            Move::Fails
        };
    }
    if ch == '.' || continues_name(ch) {
        Move::Fails
    } else {
        Move::Ends
    }
}

#[tactic(auto, unfolding(crate::specs::machine::Machine::plain_move))]
fn next_in_plain(quote: char, ch: char) -> Move
    ensures { result ≡ plain_move quote ch }
{
    if ch == quote {
        Move::Goes(State::AfterText)
    } else if ch == '\\' {
        Move::Goes(State::InText(quote, Inside::Escape))
    } else if ch == '\n' || ch == '\r' {
        Move::Fails
    } else {
        Move::Adds(State::InText(quote, Inside::Plain), u32::from(ch))
    }
}

#[tactic(auto, unfolding(crate::specs::machine::Machine::escape_move))]
fn next_in_escape(quote: char, ch: char) -> Move
    ensures { result ≡ escape_move quote ch }
{
    let code = match ch {
        'x' => return Move::Goes(State::InText(quote, Inside::Digits(2, 0))),
        'u' => return Move::Goes(State::InText(quote, Inside::Unicode)),
        '0' => return Move::Adds(State::InText(quote, Inside::Nul), 0),
        'n' => '\n',
        't' => '\t',
        'r' => '\r',
        'b' => '\u{8}',
        'f' => '\u{c}',
        'v' => '\u{b}',
        _ => ch,
    };
    if ch.is_digit(10) || is_line_end(ch) {
        Move::Fails
    } else {
        Move::Adds(State::InText(quote, Inside::Plain), u32::from(code))
    }
}

#[tactic(auto, unfolding(crate::specs::machine::Machine::hex_move))]
fn next_in_digits(quote: char, left: u8, value: u16, ch: char) -> Move
    ensures { result ≡ hex_move quote left value ch }
{
    let Some(digit) = ch.to_digit(16) else {
        return Move::Fails;
    };
    let grown = value.wrapping_mul(16) + digit as u16;
    if left <= 1 {
        Move::Adds(State::InText(quote, Inside::Plain), u32::from(grown))
    } else {
        Move::Goes(State::InText(quote, Inside::Digits(left - 1, grown)))
    }
}

fn next_in_text(quote: char, inside: Inside, ch: char) -> Move
    ensures { result ≡ inside_move quote inside ch }
{
    match inside {
        Inside::Plain => next_in_plain(quote, ch),
        Inside::Nul => {
            if ch.is_digit(10) {
                Move::Fails
            } else {
                next_in_plain(quote, ch)
            }
        }
        Inside::Escape => next_in_escape(quote, ch),
        Inside::Unicode => {
            if ch == '{' {
                Move::Goes(State::InText(quote, Inside::Open))
            } else {
                next_in_digits(quote, 4, 0, ch)
            }
        }
        Inside::Digits(left, value) => next_in_digits(quote, left, value, ch),
        Inside::Open => next_in_code(quote, 0, ch),
        Inside::Code(value) => {
            if ch == '}' {
                Move::Adds(State::InText(quote, Inside::Plain), value)
            } else {
                next_in_code(quote, value, ch)
            }
        }
    }
}

#[tactic(auto, unfolding(crate::specs::machine::Machine::code_move))]
fn next_in_code(quote: char, value: u32, ch: char) -> Move
    ensures { result ≡ code_move quote value ch }
{
    let Some(digit) = ch.to_digit(16) else {
        return Move::Fails;
    };
    let grown = value.saturating_mul(16).saturating_add(digit);
    if grown <= LAST_CODE {
        Move::Goes(State::InText(quote, Inside::Code(grown)))
    } else {
        Move::Fails
    }
}

#[tactic(auto, unfolding(crate::specs::machine::Machine::mark_move))]
fn next_in_mark(mark: Mark, ch: char) -> Move
    ensures { result ≡ mark_move mark ch }
{
    let grown = match mark {
        Mark::Equal if ch == '=' => State::DoubleEqual,
        Mark::Equal if ch == '>' => State::InMark(Mark::Arrow),
        Mark::Not if ch == '=' => State::NotEqual,
        Mark::Less if ch == '=' => State::InMark(Mark::LessEqual),
        Mark::Greater if ch == '=' => State::InMark(Mark::GreaterEqual),
        Mark::Plus if ch == '+' => State::InMark(Mark::PlusPlus),
        Mark::Plus if ch == '=' => State::InMark(Mark::PlusEqual),
        Mark::Minus if ch == '-' => State::InMark(Mark::MinusMinus),
        Mark::Minus if ch == '=' => State::InMark(Mark::MinusEqual),
        Mark::Times if ch == '=' => State::InMark(Mark::TimesEqual),
        Mark::Slash if ch == '/' => State::InLineComment,
        Mark::Slash if ch == '*' => State::InBlockComment(false),
        _ => return Move::Ends,
    };
    Move::Goes(grown)
}

impl State {
    /// Whether it is of what parts tokens.
    pub fn is_parting(self) -> bool
        ensures { result ≡ is_parting_state self }
    {
        matches!(self, State::Between | State::InBlockComment(_))
    }

    /// What becomes of the token when this character comes.
    pub fn next(self, ch: char) -> Move
        ensures { result ≡ move_of self ch }
    {
        match self {
            State::Between | State::AfterText => Move::Ends,
            State::InName => {
                if continues_name(ch) {
                    Move::Adds(State::InName, u32::from(ch))
                } else {
                    Move::Ends
                }
            }
            State::InWhole(value) => next_in_whole(value, ch),
            State::InText(quote, inside) => next_in_text(quote, inside, ch),
            State::InLineComment => {
                if is_line_end(ch) {
                    Move::Ends
                } else {
                    Move::Goes(State::InLineComment)
                }
            }
            State::InBlockComment(starred) => {
                if starred && ch == '/' {
                    Move::Goes(State::Between)
                } else {
                    Move::Goes(State::InBlockComment(ch == '*'))
                }
            }
            State::InMark(mark) => next_in_mark(mark, ch),
            State::Ampersand => next_to(ch, '&', Mark::AndAnd, Move::Fails),
            State::Bar => next_to(ch, '|', Mark::OrOr, Move::Fails),
            State::DoubleEqual => next_to(ch, '=', Mark::TripleEqual, split(ch, Mark::Equal)),
            State::NotEqual => next_to(ch, '=', Mark::NotDoubleEqual, split(ch, Mark::Not)),
        }
    }
}

// After a mark and `=`, which are two marks, or with `>` that mark and `=>`.
fn split(ch: char, first: Mark) -> Move
    ensures { result ≡ split_move ch first }
{
    if ch == '>' {
        Move::Splits(first)
    } else {
        Move::Ends
    }
}

// The mark where its last character comes, and else this move.
fn next_to(ch: char, last: char, mark: Mark, other: Move) -> Move
    ensures { result ≡ last_move ch last mark other }
{
    if ch == last {
        Move::Goes(State::InMark(mark))
    } else {
        other
    }
}

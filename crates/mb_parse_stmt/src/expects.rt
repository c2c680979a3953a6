// One token that is wanted.
ghost use Rattle.std.specs.Prelude.{◌≡◌};
ghost use Rattle.mb_parse_stmt.specs.machine.Machine as spec;
ghost use Rattle.mb_parse_stmt.specs.machine.Machine.{one};

use crate::machine::{Frame, Mode, Move};
use crate::terminal::Terminal;
use mb_grammar::Level;

pub fn count(flag: bool) -> usize
    ensures { result ≡ one flag }
{
    if flag { 1 } else { 0 }
}

pub fn on_open(here: Terminal, then: Move) -> Move
    ensures { result ≡ spec.open_then here then }
{
    match here {
        Terminal::Open => then,
        _ => Move::Wrong,
    }
}

pub fn on_close(here: Terminal, then: Move) -> Move
    ensures { result ≡ spec.close_then here then }
{
    match here {
        Terminal::Close => then,
        _ => Move::Wrong,
    }
}

pub fn on_brace(here: Terminal, then: Move) -> Move
    ensures { result ≡ spec.brace_then here then }
{
    match here {
        Terminal::OpenBrace => then,
        _ => Move::Wrong,
    }
}

pub fn on_semicolon(here: Terminal, then: Move) -> Move
    ensures { result ≡ spec.semicolon_then here then }
{
    match here {
        Terminal::Semicolon => then,
        _ => Move::Wrong,
    }
}

// `while (` behind the body of a `do`.
pub fn on_while(here: Terminal, then: Move) -> Move
    ensures { result ≡ spec.while_then here then }
{
    match here {
        Terminal::While => then,
        _ => Move::Wrong,
    }
}

// A value behind `return` or `throw`, which stands on the same line.
pub fn on_line(after_line: bool, frame: Frame) -> Move
    ensures { result ≡ spec.line_move after_line frame }
{
    if after_line {
        Move::Wrong
    } else {
        Move::Enter(frame, Mode::Expression(Level::Expr), 1)
    }
}

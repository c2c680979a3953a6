// The parts of the head of a `for`.
ghost use Rattle.std.specs.Prelude.{◌≡◌};
ghost use Rattle.mb_parse_stmt.specs.machine.Machine as spec;

use crate::machine::{Declarer, Frame, Mode, Move};
use crate::terminal::Terminal;
use mb_grammar::Level;

pub fn first_part(here: Terminal) -> Move
    ensures { result ≡ spec.first_move here }
{
    match here {
        Terminal::Let => {
            Move::Enter(
                Frame::Declarations(Declarer::ForLet, 0),
                Mode::Declaration,
                1,
            )
        }
        Terminal::Semicolon => Move::Swap(Frame::ForTest(false), Mode::Part, 1),
        _ => Move::Ask(Level::Expr),
    }
}

pub fn test_part(first: bool, here: Terminal) -> Move
    ensures { result ≡ spec.test_move first here }
{
    match here {
        Terminal::Semicolon => Move::Swap(Frame::ForLast(first, false), Mode::Part, 1),
        _ => Move::Ask(Level::Expr),
    }
}

pub fn last_part(first: bool, test: bool, here: Terminal) -> Move
    ensures { result ≡ spec.last_move first test here }
{
    match here {
        Terminal::Close => Move::Swap(Frame::ForBody(first, test, false), Mode::Sub, 1),
        _ => Move::Ask(Level::Expr),
    }
}

// A part of the head of a `for`, or its end.
pub fn part(top: Option<Frame>, here: Terminal) -> Move
    ensures { result ≡ spec.part_move top here }
{
    match top {
        Some(Frame::ForFirst) => first_part(here),
        Some(Frame::ForTest(first)) => test_part(first, here),
        Some(Frame::ForLast(first, test)) => last_part(first, test, here),
        _ => Move::Wrong,
    }
}

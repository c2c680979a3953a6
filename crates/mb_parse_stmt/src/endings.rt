// What comes behind a statement or an expression that is a part of another.
ghost use Rattle.std.specs.Prelude.{◌≡◌, ◌+◌, ◌<◌, ◌^◌};
ghost use Rattle.mb_parse_stmt.specs.machine.Machine as spec;
ghost use Rattle.mb_parse_stmt.specs.machine.Machine.{count_of};

use crate::expects::{count, on_close, on_open, on_semicolon, on_while};
use crate::machine::{Frame, Mode, Move};
use crate::terminal::Terminal;
use mb_grammar::Level;
use mb_tree::{Kind, Label};

// `else`, or the end of an `if` without one.
pub fn after_then(here: Terminal) -> Move
    ensures { result ≡ spec.then_move here }
{
    match here {
        Terminal::Else => Move::Swap(Frame::IfElse, Mode::Sub, 1),
        _ => Move::Build(Label::bare(Kind::If), 2, Mode::Done, 0),
    }
}

pub fn catches(next: Terminal) -> Move
    ensures { result ≡ spec.catch_move next }
{
    match next {
        Terminal::Open => Move::Swap(Frame::CatchBlock(true), Mode::CatchName, 2),
        _ => Move::Swap(Frame::CatchBlock(false), Mode::Brace, 1),
    }
}

// `catch` or `finally` behind the first block of a `try`.
pub fn after_try(here: Terminal, next: Terminal) -> Move
    ensures { result ≡ spec.try_move here next }
{
    match here {
        Terminal::Catch => catches(next),
        Terminal::Finally => Move::Swap(Frame::FinallyBlock(false, false), Mode::Brace, 1),
        _ => Move::Wrong,
    }
}

// `finally`, or the end of a `try` without it.
pub fn after_catch(has_name: bool, here: Terminal) -> Move
    ensures { result ≡ spec.caught_move has_name here }
{
    match here {
        Terminal::Finally => Move::Swap(Frame::FinallyBlock(true, has_name), Mode::Brace, 1),
        _ => {
            let kind = Kind::Try {
                caught: true,
                named: has_name,
                ended: false,
            };
            Move::Build(Label::bare(kind), 2 + count(has_name), Mode::Done, 0)
        }
    }
}

// A statement has been read.
pub fn done(top: Option<Frame>, here: Terminal, next: Terminal) -> Move
    requires { count_of top + 4 < 2 ^ 32 }
    ensures { result ≡ spec.done_move top here next }
{
    match top {
        Some(Frame::Statements(holder, found)) => {
            Move::Swap(Frame::Statements(holder, found + 1), Mode::Statement, 0)
        }
        Some(Frame::IfThen) => after_then(here),
        Some(Frame::IfElse) => Move::Build(Label::bare(Kind::If), 3, Mode::Done, 0),
        Some(Frame::WhileBody) => Move::Build(Label::bare(Kind::While), 2, Mode::Done, 0),
        Some(Frame::DoBody) => {
            let test = Move::Swap(Frame::DoTest, Mode::Expression(Level::Expr), 2);
            on_while(here, on_open(next, test))
        }
        Some(Frame::ForBody(first, test, last)) => {
            let parts = count(first) + count(test) + count(last);
            Move::Build(
                Label::bare(Kind::For { first, test, last }),
                parts + 1,
                Mode::Done,
                0,
            )
        }
        Some(Frame::TryBlock) => after_try(here, next),
        Some(Frame::CatchBlock(has_name)) => after_catch(has_name, here),
        Some(Frame::FinallyBlock(caught, has_name)) => {
            let kind = Kind::Try {
                caught,
                named: has_name,
                ended: true,
            };
            Move::Build(
                Label::bare(kind),
                2 + count(caught) + count(has_name),
                Mode::Done,
                0,
            )
        }
        _ => Move::Wrong,
    }
}

// An expression has been read.
pub fn behind(top: Option<Frame>, here: Terminal, next: Terminal) -> Move
    ensures { result ≡ spec.behind_move top here next }
{
    match top {
        Some(Frame::IfTest) => on_close(here, Move::Swap(Frame::IfThen, Mode::Sub, 1)),
        Some(Frame::WhileTest) => on_close(here, Move::Swap(Frame::WhileBody, Mode::Sub, 1)),
        Some(Frame::DoTest) => {
            let whole = Move::Build(Label::bare(Kind::DoWhile), 2, Mode::Done, 2);
            on_close(here, on_semicolon(next, whole))
        }
        Some(Frame::ForFirst) => {
            on_semicolon(here, Move::Swap(Frame::ForTest(true), Mode::Part, 1))
        }
        Some(Frame::ForTest(first)) => {
            on_semicolon(here, Move::Swap(Frame::ForLast(first, true), Mode::Part, 1))
        }
        Some(Frame::ForLast(first, test)) => {
            on_close(
                here,
                Move::Swap(Frame::ForBody(first, test, true), Mode::Sub, 1),
            )
        }
        Some(Frame::Return) => {
            on_semicolon(
                here,
                Move::Build(Label::bare(Kind::Return), 1, Mode::Done, 1),
            )
        }
        Some(Frame::Throw) => on_semicolon(
            here,
            Move::Build(Label::bare(Kind::Throw), 1, Mode::Done, 1),
        ),
        Some(Frame::Expression) => {
            on_semicolon(
                here,
                Move::Build(Label::bare(Kind::ExprStmt), 1, Mode::Done, 1),
            )
        }
        Some(Frame::Value(name)) => {
            Move::Build(Label::named(Kind::Decl, name), 1, Mode::Declared, 0)
        }
        _ => Move::Wrong,
    }
}

// Parameters, and the name of a `catch`.
ghost use Rattle.std.specs.Prelude.{◌≡◌, ◌+◌, ◌<◌, ◌^◌};
ghost use Rattle.mb_parse_stmt.specs.machine.Machine as spec;
ghost use Rattle.mb_parse_stmt.specs.machine.Machine.{count_of};

use crate::expects::{on_brace, on_close};
use crate::machine::{Frame, Holder, Mode, Move};
use crate::terminal::Terminal;
use mb_base::StrId;
use mb_tree::{Kind, Label};

// A function declaration's body.
pub fn body(name: StrId, params: usize, next: Terminal) -> Move
    requires { params < 2 ^ 32 }
    ensures { result ≡ spec.body_move name params next }
{
    let holder = Holder::Body(name, params as u32);
    on_brace(
        next,
        Move::Swap(Frame::Statements(holder, 0), Mode::Statement, 2),
    )
}

pub fn first_param(name: StrId, count: usize, here: Terminal, next: Terminal) -> Move
    requires { count + 4 < 2 ^ 32 }
    ensures { result ≡ spec.param_of name count here next }
{
    match here {
        Terminal::Name(param) => Move::Leaf(Label::named(Kind::Param, param), Mode::Comma, 1),
        Terminal::Close => body(name, count, next),
        _ => Move::Wrong,
    }
}

pub fn param(top: Option<Frame>, here: Terminal, next: Terminal) -> Move
    requires { count_of top + 4 < 2 ^ 32 }
    ensures { result ≡ spec.param_move top here next }
{
    match top {
        Some(Frame::Params(name, count)) => first_param(name, count, here, next),
        _ => Move::Wrong,
    }
}

pub fn next_param(name: StrId, count: usize, here: Terminal, next: Terminal) -> Move
    requires { count + 4 < 2 ^ 32 }
    ensures { result ≡ spec.comma_of name count here next }
{
    match here {
        Terminal::Comma => Move::Swap(Frame::Params(name, count + 1), Mode::Param, 1),
        Terminal::Close => body(name, count + 1, next),
        _ => Move::Wrong,
    }
}

pub fn comma(top: Option<Frame>, here: Terminal, next: Terminal) -> Move
    requires { count_of top + 4 < 2 ^ 32 }
    ensures { result ≡ spec.comma_move top here next }
{
    match top {
        Some(Frame::Params(name, count)) => next_param(name, count, here, next),
        _ => Move::Wrong,
    }
}

// The name of a `catch`.
pub fn catch_name(here: Terminal, next: Terminal) -> Move
    ensures { result ≡ spec.catch_name_move here next }
{
    match here {
        Terminal::Name(name) => {
            on_close(
                next,
                Move::Leaf(Label::named(Kind::Param, name), Mode::Brace, 2),
            )
        }
        _ => Move::Wrong,
    }
}

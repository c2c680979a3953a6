// Functions: their names, parameters and bodies.
ghost use Rattle.std.specs.Prelude.{◌≡◌, ◌+◌, ◌<◌, ◌^◌};
ghost use Rattle.mb_parse_expr.specs.machine.Machine as spec;
ghost use Rattle.mb_parse_expr.specs.machine.Machine.{made_mode, count_of};

use crate::labels::{extra_before, made};
use crate::levels::{ASSIGN, MEMBER};
use crate::machine::{Frame, Mode, Move};
use crate::operands::value;
use mb_grammar::{Maker, Role};
use mb_tree::{Kind, Label};

// What is wanted behind the body.
pub fn behind(maker: Maker) -> Mode
    ensures { result ≡ made_mode maker }
{
    match maker {
        Maker::Arrow => Mode::After(ASSIGN),
        Maker::Function(_) => Mode::After(MEMBER),
        _ => Mode::Item,
    }
}

// An arrow function's value ends; no other body is a value.
pub fn arrow_end(maker: Maker, count: usize) -> Move
    requires { count + 3 < 2 ^ 32 }
    ensures { result ≡ spec.arrow_move maker count }
{
    match maker {
        Maker::Arrow => {
            Move::Build(
                Label::bare(Kind::Arrow {
                    params: count as u32,
                    block: false,
                }),
                count + 1,
                Mode::After(ASSIGN),
                false,
            )
        }
        _ => Move::Wrong,
    }
}

// The parameters end.
pub fn params_end(maker: Maker, count: usize) -> Move
    ensures { result ≡ spec.params_move maker count }
{
    match maker {
        Maker::Arrow => Move::Swap(Frame::Head(count), Mode::Arrow),
        _ => Move::Swap(Frame::Made(maker, count), Mode::Brace),
    }
}

pub fn param(top: Option<Frame>, role: Role) -> Move
    ensures { result ≡ spec.param_move top role }
{
    match top {
        Some(Frame::Params(maker, count)) => match role {
            Role::Name(name) => match maker {
                Maker::Getter(_) => Move::Wrong,
                _ => Move::Leaf(Label::named(Kind::Param, name), Mode::Comma),
            },
            Role::Close => match maker {
                Maker::Setter(_) => Move::Wrong,
                _ => params_end(maker, count),
            },
            _ => Move::Wrong,
        },
        _ => Move::Wrong,
    }
}

pub fn comma(top: Option<Frame>, role: Role) -> Move
    requires { count_of top + 3 < 2 ^ 32 }
    ensures { result ≡ spec.comma_move top role }
{
    match top {
        Some(Frame::Params(maker, count)) => match role {
            Role::Comma => match maker {
                Maker::Setter(_) => Move::Wrong,
                _ => Move::Swap(Frame::Params(maker, count + 1), Mode::Param),
            },
            Role::Close => params_end(maker, count + 1),
            _ => Move::Wrong,
        },
        _ => Move::Wrong,
    }
}

pub fn arrow(top: Option<Frame>, role: Role, after_line: bool) -> Move
    ensures { result ≡ spec.head_move top role after_line }
{
    match top {
        Some(Frame::Head(count)) => match role {
            Role::Arrow => if after_line {
                Move::Wrong
            } else {
                Move::Swap(Frame::Made(Maker::Arrow, count), Mode::Body)
            },
            _ => Move::Wrong,
        },
        _ => Move::Wrong,
    }
}

pub fn block(top: Option<Frame>, statements: usize) -> Move
    requires { count_of top + statements + 3 < 2 ^ 32 }
    ensures { result ≡ spec.block_move top statements }
{
    match top {
        Some(Frame::Made(maker, count)) => {
            Move::Build(
                made(maker, count),
                count + statements + extra_before(maker),
                behind(maker),
                false,
            )
        }
        _ => Move::Wrong,
    }
}

pub fn title(role: Role) -> Move
    ensures { result ≡ spec.title_move role }
{
    match role {
        Role::Name(name) => { Move::Swap(Frame::Header(Maker::Function(Some(name))), Mode::Open) }
        Role::Open => Move::Swap(Frame::Params(Maker::Function(None), 0), Mode::Param),
        _ => Move::Wrong,
    }
}

pub fn open(top: Option<Frame>, role: Role) -> Move
    ensures { result ≡ spec.open_move top role }
{
    match role {
        Role::Open => match top {
            Some(Frame::Header(maker)) => Move::Swap(Frame::Params(maker, 0), Mode::Param),
            _ => Move::Wrong,
        },
        _ => Move::Wrong,
    }
}

pub fn brace(role: Role) -> Move
    ensures { result ≡ spec.brace_move role }
{
    match role {
        Role::OpenBrace => Move::Pause,
        _ => Move::Wrong,
    }
}

pub fn body(top: Option<Frame>, role: Role, ahead: bool) -> Move
    requires { count_of top + 3 < 2 ^ 32 }
    ensures { result ≡ spec.body_move top role ahead }
{
    match role {
        Role::OpenBrace => Move::Pause,
        _ => value(top, role, ahead),
    }
}

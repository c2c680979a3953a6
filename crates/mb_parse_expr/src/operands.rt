// Operands, what goes on with them, and where they end.
ghost use Rattle.std.specs.Prelude.{◌≡◌, ◌+◌, ◌<◌, ◌^◌};
ghost use Rattle.mb_parse_expr.specs.machine.Machine as spec;
ghost use Rattle.mb_parse_expr.specs.machine.Machine.{count_of};

use crate::functions::arrow_end;
use crate::labels::{extra, numbered, valued};
use crate::levels::{
    AND, ASSIGN, CALL, COND, EXPR, MEMBER, NEW, OR, UNARY, before, least, pull, sign_level,
};
use crate::lists::listed;
use crate::machine::{Frame, Mode, Move};
use mb_grammar::{Level, Maker, Role};
use mb_token::Token;
use mb_tree::{Kind, Label, Sign};

// An operand begins, or a list ends behind a comma.
pub fn value(top: Option<Frame>, role: Role, ahead: bool) -> Move
    requires { count_of top + 3 < 2 ^ 32 }
    ensures { result ≡ spec.value_move top role ahead }
{
    match role {
        Role::Name(name) => if ahead {
            Move::Begin(Label::named(Kind::Param, name), Frame::Head(1), Mode::Arrow)
        } else {
            Move::Leaf(Label::named(Kind::Name, name), Mode::After(MEMBER))
        },
        Role::Number(number) => Move::Leaf(numbered(number), Mode::After(MEMBER)),
        Role::Text(text) => Move::Leaf(Label::named(Kind::Text, text), Mode::After(MEMBER)),
        Role::This => Move::Leaf(Label::bare(Kind::This), Mode::After(MEMBER)),
        Role::Fixed(fixed) => Move::Leaf(Label::bare(Kind::Literal(fixed)), Mode::After(MEMBER)),
        Role::Function => Move::Enter(Frame::Header(Maker::Function(None)), Mode::Title),
        Role::New => Move::Enter(Frame::New, Mode::Operand),
        Role::Prefix(sign) => Move::Enter(Frame::Unary(sign), Mode::Operand),
        Role::Infix(Sign::Minus) => Move::Enter(Frame::Unary(Sign::Minus), Mode::Operand),
        Role::Step(plus) => Move::Enter(Frame::Before(plus), Mode::Operand),
        Role::Open => if ahead {
            Move::Enter(Frame::Params(Maker::Arrow, 0), Mode::Param)
        } else {
            Move::Enter(Frame::Group, Mode::Operand)
        },
        Role::OpenSquare => Move::Enter(Frame::Array(0), Mode::Operand),
        Role::OpenBrace => Move::Enter(Frame::Object(0), Mode::Property),
        Role::Close => match top {
            Some(Frame::Args(count)) => {
                Move::Build(Label::bare(Kind::Call), count + 1, Mode::After(CALL), true)
            }
            Some(Frame::NewArgs(count)) => {
                Move::Build(Label::bare(Kind::New), count + 1, Mode::After(MEMBER), true)
            }
            _ => Move::Wrong,
        },
        Role::CloseSquare => match top {
            Some(Frame::Array(count)) => {
                Move::Build(
                    Label::bare(Kind::ArrayLit),
                    count,
                    Mode::After(MEMBER),
                    true,
                )
            }
            _ => Move::Wrong,
        },
        _ => Move::Wrong,
    }
}

// An operand goes on.
pub fn taken(top: Option<Frame>, found: u8, role: Role) -> Move
    ensures { result ≡ spec.taken_move top found role }
{
    match role {
        Role::Comma => Move::Enter(Frame::Seq(1), Mode::Operand),
        Role::Becomes => Move::Enter(Frame::Becomes, Mode::Operand),
        Role::Compound(sign) => Move::Enter(Frame::Compound(sign), Mode::Operand),
        Role::Question => Move::Enter(Frame::Test, Mode::Operand),
        Role::Or => Move::Enter(Frame::Or, Mode::Operand),
        Role::And => Move::Enter(Frame::And, Mode::Operand),
        Role::Infix(sign) => Move::Enter(Frame::Infix(sign), Mode::Operand),
        Role::Step(plus) => {
            Move::Suffix(
                Label::bare(Kind::Update {
                    plus,
                    prefix: false,
                }),
                Mode::After(UNARY),
            )
        }
        Role::OpenSquare => Move::Enter(Frame::Index(found), Mode::Operand),
        Role::Dot => Move::Turn(Mode::Word(found)),
        Role::Open => match top {
            Some(Frame::New) => if found < MEMBER {
                Move::Wrong
            } else {
                Move::Swap(Frame::NewArgs(0), Mode::Operand)
            },
            _ => Move::Enter(Frame::Args(0), Mode::Operand),
        },
        _ => Move::Wrong,
    }
}

pub fn shift(top: Option<Frame>, found: u8, role: Role) -> Move
    ensures { result ≡ spec.shift_move top found role }
{
    if found < before(role) {
        Move::Wrong
    } else {
        taken(top, found, role)
    }
}

// The end of the whole expression.
pub fn end(level: Level, role: Role) -> Move
    ensures { result ≡ spec.end_move level role }
{
    match role {
        Role::Semicolon => Move::Ended,
        Role::Close => match level {
            Level::Expr => Move::Ended,
            Level::Assign => Move::Wrong,
        },
        Role::Comma => match level {
            Level::Expr => Move::Wrong,
            Level::Assign => Move::Ended,
        },
        _ => Move::Wrong,
    }
}

// An operand ends.
pub fn close(top: Option<Frame>, found: u8, role: Role) -> Move
    requires { count_of top + 3 < 2 ^ 32 }
    ensures { result ≡ spec.close_move top found role }
{
    match top {
        Some(Frame::Infix(sign)) => {
            Move::Build(
                Label::bare(Kind::Binary(sign)),
                2,
                Mode::After(sign_level(sign)),
                false,
            )
        }
        Some(Frame::Or) => Move::Build(Label::bare(Kind::Or), 2, Mode::After(OR), false),
        Some(Frame::And) => Move::Build(Label::bare(Kind::And), 2, Mode::After(AND), false),
        Some(Frame::Becomes) => Move::Build(
            Label::bare(Kind::Assign),
            2,
            Mode::After(ASSIGN),
            false,
        ),
        Some(Frame::Compound(sign)) => {
            Move::Build(
                Label::bare(Kind::Compound(sign)),
                2,
                Mode::After(ASSIGN),
                false,
            )
        }
        Some(Frame::Choice) => Move::Build(Label::bare(Kind::Cond), 3, Mode::After(COND), false),
        Some(Frame::Unary(sign)) => {
            Move::Build(Label::bare(Kind::Unary(sign)), 1, Mode::After(UNARY), false)
        }
        Some(Frame::Before(plus)) => {
            Move::Build(
                Label::bare(Kind::Update { plus, prefix: true }),
                1,
                Mode::After(UNARY),
                false,
            )
        }
        Some(Frame::New) => if found == CALL {
            Move::Wrong
        } else {
            Move::Build(Label::bare(Kind::New), 1, Mode::After(NEW), false)
        },
        Some(Frame::Made(maker, count)) => arrow_end(maker, count),
        Some(Frame::Value(property)) => {
            Move::Build(valued(property), 1 + extra(property), Mode::Item, false)
        }
        Some(Frame::Seq(count)) => match role {
            Role::Comma => Move::Swap(Frame::Seq(count + 1), Mode::Operand),
            _ => Move::Build(Label::bare(Kind::Seq), count + 1, Mode::After(EXPR), false),
        },
        _ => listed(top, role),
    }
}

pub fn after(top: Option<Frame>, found: u8, role: Role, after_line: bool) -> Move
    requires { count_of top + 3 < 2 ^ 32 }
    ensures { result ≡ spec.after_move top found role after_line }
{
    if found < least(top) {
        Move::Wrong
    } else if pull(role, after_line) < least(top) {
        close(top, found, role)
    } else {
        shift(top, found, role)
    }
}

// A property behind `.`.
pub fn word(found: u8, token: Option<Token>) -> Move
    ensures { result ≡ spec.word_move found token }
{
    match token {
        Some(Token::Name(name) | Token::Soft(_, name) | Token::Reserved(_, name)) => {
            Move::Suffix(Label::named(Kind::Member, name), Mode::After(found))
        }
        _ => Move::Wrong,
    }
}

// The nonterminals of expressions by number, and how strongly tokens and frames bind.
ghost use Rattle.std.specs.Prelude.{◌≡◌};
ghost use Rattle.mb_grammar.specs.Nonterminals.{level_of};
ghost use Rattle.mb_parse_expr.specs.machine.Machine.{hole, strength, least_before};

use crate::machine::Frame;
use mb_grammar::{Level, Role};
use mb_tree::Sign;

pub const EXPR: u8 = 1;

pub const ASSIGN: u8 = 3;

pub const COND: u8 = 4;

pub const OR: u8 = 6;

pub const AND: u8 = 8;

const EQUAL: u8 = 10;

const RELATE: u8 = 11;

const ADD: u8 = 12;

const MULTIPLY: u8 = 13;

pub const UNARY: u8 = 14;

const LEFT: u8 = 15;

pub const NEW: u8 = 16;

pub const CALL: u8 = 17;

pub const MEMBER: u8 = 18;

pub fn sign_level(sign: Sign) -> u8
    ensures { result ≡ level_of sign }
{
    match sign {
        Sign::TripleEqual | Sign::NotDoubleEqual => EQUAL,
        Sign::Less
        | Sign::Greater
        | Sign::LessEqual
        | Sign::GreaterEqual
        | Sign::In
        | Sign::Instanceof => RELATE,
        Sign::Plus | Sign::Minus => ADD,
        _ => MULTIPLY,
    }
}

// The least level that the frame takes.
pub fn least(top: Option<Frame>) -> u8
    ensures { result ≡ hole top }
{
    match top {
        Some(Frame::Start(Level::Expr) | Frame::Group | Frame::Index(_)) => EXPR,
        Some(Frame::Infix(sign)) => sign_level(sign) + 1,
        Some(Frame::Or) => OR,
        Some(Frame::And) => AND,
        Some(Frame::Unary(_) | Frame::Before(_)) => UNARY,
        Some(Frame::New) => NEW,
        _ => ASSIGN,
    }
}

// How strongly a token draws the operand before it.
pub fn pull(role: Role, after_line: bool) -> u8
    ensures { result ≡ strength role after_line }
{
    match role {
        Role::Comma => 2,
        Role::Becomes | Role::Compound(_) | Role::Question => 5,
        Role::Or => 7,
        Role::And => 9,
        Role::Infix(sign) => sign_level(sign),
        Role::Step(_) => if after_line { 0 } else { LEFT },
        Role::Open | Role::OpenSquare | Role::Dot => CALL,
        Role::Arrow => if after_line { 0 } else { 19 },
        _ => 0,
    }
}

// The least level of an operand that a token may follow.
pub fn before(role: Role) -> u8
    ensures { result ≡ least_before role }
{
    match role {
        Role::Comma => ASSIGN,
        Role::Question => OR,
        Role::Or => AND,
        Role::And => EQUAL,
        Role::Infix(sign) => sign_level(sign),
        Role::Becomes | Role::Compound(_) | Role::Step(_) => LEFT,
        Role::Open | Role::OpenSquare | Role::Dot => CALL,
        _ => 0,
    }
}

// Declarations of `let` and `const`.
ghost use Rattle.std.specs.Prelude.{◌≡◌, ◌+◌, ◌<◌, ◌^◌};
ghost use Rattle.mb_parse_stmt.specs.machine.Machine as spec;
ghost use Rattle.mb_parse_stmt.specs.machine.Machine.{count_of};

use crate::machine::{Declarer, Frame, Mode, Move};
use crate::terminal::Terminal;
use mb_base::StrId;
use mb_grammar::Level;
use mb_tree::{Kind, Label};

// A declaration without a value, which `const` has none of.
pub fn alone(top: Option<Frame>, name: StrId) -> Move
    ensures { result ≡ spec.alone_move top name }
{
    match top {
        Some(Frame::Declarations(Declarer::Const, _)) => Move::Wrong,
        _ => Move::Leaf(Label::named(Kind::Decl, name), Mode::Declared, 1),
    }
}

pub fn declares(top: Option<Frame>, name: StrId, next: Terminal) -> Move
    ensures { result ≡ spec.name_move top name next }
{
    match next {
        Terminal::Becomes => Move::Enter(Frame::Value(name), Mode::Expression(Level::Assign), 2),
        _ => alone(top, name),
    }
}

pub fn declaration(top: Option<Frame>, here: Terminal, next: Terminal) -> Move
    ensures { result ≡ spec.declaration_move top here next }
{
    match here {
        Terminal::Name(name) => declares(top, name, next),
        _ => Move::Wrong,
    }
}

pub fn declarations_end(declarer: Declarer, count: usize) -> Move
    requires { count + 4 < 2 ^ 32 }
    ensures { result ≡ spec.declared_end declarer count }
{
    match declarer {
        Declarer::Let => Move::Build(Label::bare(Kind::Let), count + 1, Mode::Done, 1),
        Declarer::Const => Move::Build(Label::bare(Kind::Const), count + 1, Mode::Done, 1),
        Declarer::ForLet => Move::Build(Label::bare(Kind::Let), count + 1, Mode::Behind, 0),
    }
}

pub fn after_declaration(declarer: Declarer, count: usize, here: Terminal) -> Move
    requires { count + 4 < 2 ^ 32 }
    ensures { result ≡ spec.next_declaration declarer count here }
{
    match here {
        Terminal::Comma => {
            Move::Swap(
                Frame::Declarations(declarer, count + 1),
                Mode::Declaration,
                1,
            )
        }
        Terminal::Semicolon => declarations_end(declarer, count),
        _ => Move::Wrong,
    }
}

pub fn declared(top: Option<Frame>, here: Terminal) -> Move
    requires { count_of top + 4 < 2 ^ 32 }
    ensures { result ≡ spec.declared_move top here }
{
    match top {
        Some(Frame::Declarations(declarer, count)) => after_declaration(declarer, count, here),
        _ => Move::Wrong,
    }
}

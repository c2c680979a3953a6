// Where statements begin, and where lists of them end.
ghost use Rattle.std.specs.Prelude.{◌≡◌, ◌+◌, ◌<◌, ◌^◌};
ghost use Rattle.mb_parse_stmt.specs.machine.Machine as spec;
ghost use Rattle.mb_parse_stmt.specs.machine.Machine.{count_of};

use crate::expects::{on_line, on_open, on_semicolon};
use crate::machine::{Declarer, Frame, Holder, Mode, Move, View};
use crate::terminal::Terminal;
use mb_grammar::Level;
use mb_tree::{Kind, Label};

pub fn returns(next: Terminal, after_line: bool) -> Move
    ensures { result ≡ spec.return_move next after_line }
{
    match next {
        Terminal::Semicolon => Move::Leaf(Label::bare(Kind::Return), Mode::Done, 2),
        _ => on_line(after_line, Frame::Return),
    }
}

// A statement that may stand below another begins.
pub fn sub(here: Terminal, next: Terminal, after_line: bool) -> Move
    ensures { result ≡ spec.sub_move here next after_line }
{
    match here {
        Terminal::OpenBrace => {
            Move::Enter(Frame::Statements(Holder::Block, 0), Mode::Statement, 1)
        }
        Terminal::Semicolon => Move::Leaf(Label::bare(Kind::Empty), Mode::Done, 1),
        Terminal::If => {
            on_open(
                next,
                Move::Enter(Frame::IfTest, Mode::Expression(Level::Expr), 2),
            )
        }
        Terminal::While => {
            on_open(
                next,
                Move::Enter(Frame::WhileTest, Mode::Expression(Level::Expr), 2),
            )
        }
        Terminal::Do => Move::Enter(Frame::DoBody, Mode::Sub, 1),
        Terminal::For => on_open(next, Move::Enter(Frame::ForFirst, Mode::Part, 2)),
        Terminal::Return => returns(next, after_line),
        Terminal::Throw => on_line(after_line, Frame::Throw),
        Terminal::Break => on_semicolon(next, Move::Leaf(Label::bare(Kind::Break), Mode::Done, 2)),
        Terminal::Continue => on_semicolon(
            next,
            Move::Leaf(Label::bare(Kind::Continue), Mode::Done, 2),
        ),
        Terminal::Try => Move::Enter(Frame::TryBlock, Mode::Brace, 1),
        Terminal::Function => Move::Wrong,
        _ => Move::Enter(Frame::Expression, Mode::Expression(Level::Expr), 0),
    }
}

// A function declaration begins.
pub fn function(next: Terminal, third: Terminal) -> Move
    ensures { result ≡ spec.function_move next third }
{
    match next {
        Terminal::Name(name) => on_open(third, Move::Enter(Frame::Params(name, 0), Mode::Param, 3)),
        _ => Move::Wrong,
    }
}

// A statement begins.
pub fn begin(view: View) -> Move
    ensures { result ≡ spec.begin_move view.here view.next view.third view.after_line }
{
    match view.here {
        Terminal::Let => {
            Move::Enter(Frame::Declarations(Declarer::Let, 0), Mode::Declaration, 1)
        }
        Terminal::Const => {
            Move::Enter(
                Frame::Declarations(Declarer::Const, 0),
                Mode::Declaration,
                1,
            )
        }
        Terminal::Function => function(view.next, view.third),
        _ => sub(view.here, view.next, view.after_line),
    }
}

pub fn is_close(here: Terminal) -> bool
    ensures { result ≡ spec.is_close here }
{
    match here {
        Terminal::CloseBrace => true,
        _ => false,
    }
}

// Whether the list ends here.
pub fn closes(holder: Holder, here: Terminal, stops: bool) -> bool
    ensures { result ≡ spec.closes holder here stops }
{
    match holder {
        Holder::Top => stops,
        _ => is_close(here),
    }
}

// The list ends.
pub fn close(holder: Holder, count: usize) -> Move
    requires { count_of (Some (Frame.Statements holder count)) + 4 < 2 ^ 32 }
    ensures { result ≡ spec.close_list holder count }
{
    match holder {
        Holder::Top => Move::Ended,
        Holder::Block => Move::Build(Label::bare(Kind::Block), count, Mode::Done, 1),
        Holder::Body(name, params) => {
            let label = Label::named(Kind::FunctionDecl { params }, name);
            Move::Build(label, params as usize + count, Mode::Done, 1)
        }
    }
}

// A statement, or the end of the list.
pub fn statement(top: Option<Frame>, view: View) -> Move
    requires { count_of top + 4 < 2 ^ 32 }
    ensures { result ≡ spec.statement_move top view.here view.next view.third view.after_line view.stops }
{
    match top {
        Some(Frame::Statements(holder, count)) => if closes(holder, view.here, view.stops) {
            close(holder, count)
        } else {
            begin(view)
        },
        _ => Move::Wrong,
    }
}

// What a parser of statements does next, by the frame on top, by what it wants and by the tokens that stand there.
//
// The frames of each production, in the order in which its tokens come; `..` stands for an operand on the stack.
//
// | production                                      | frames                                              |
// |-------------------------------------------------|-----------------------------------------------------|
// | a script, or a body within an expression        | Statements(Top, 0) .. Statements(Top, 1) ..         |
// | { Statements }                                  | Statements(Block, 0) .. Statements(Block, 1) ..     |
// | let Declarations ; and so for const             | Declarations(0) .. Declarations(1) ..               |
// | Name = Assign                                   | Value ..                                            |
// | function Name ( Params ) { Statements }         | Params(0) .. Statements(Body, 0) ..                 |
// | ; break ; continue ; return ;                   | none: Leaf                                          |
// | Expr ; return Expr ; throw Expr ;               | Expression .., Return .., Throw ..                  |
// | if ( Expr ) Sub else Sub                        | IfTest .. IfThen .. IfElse ..                       |
// | while ( Expr ) Sub                              | WhileTest .. WhileBody ..                           |
// | do Sub while ( Expr ) ;                         | DoBody .. DoTest ..                                 |
// | for ( first ; test ; last ) Sub                 | ForFirst .. ForTest .. ForLast .. ForBody ..        |
// | try Block catch ( Name ) Block finally Block    | TryBlock .. CatchBlock .. FinallyBlock ..           |
ghost use Rattle.std.specs.Prelude.{◌≡◌, ◌+◌, ◌<◌, ◌^◌};
ghost use Rattle.mb_parse_stmt.specs.machine.Machine as spec;
ghost use Rattle.mb_parse_stmt.specs.machine.Machine.{count_of};

use crate::beginnings::{statement, sub};
use crate::declarations::{declaration, declared};
use crate::endings::{behind, done};
use crate::expects::on_brace;
use crate::heads::part;
use crate::parameters::{catch_name, comma, param};
use crate::terminal::Terminal;
use mb_base::StrId;
use mb_grammar::Level;
use mb_tree::Label;

/// What ends a list of statements that isn't within another: the end of the tokens, or `}`.
#[derive(Clone, Copy)]
pub enum Stop {
    End,
    Brace,
}

/// What a list of statements belongs to.
#[derive(Clone, Copy)]
pub enum Holder {
    /// The script, or a function's body within an expression.
    Top,
    Block,
    /// A function declaration with this name and so many parameters.
    Body(StrId, u32),
}

/// What a list of declarations belongs to.
#[derive(Clone, Copy)]
pub enum Declarer {
    Let,
    Const,
    /// `let` in the head of a `for`.
    ForLet,
}

/// What has begun and isn't whole. A number counts the operands that are.
#[derive(Clone, Copy)]
pub enum Frame {
    Statements(Holder, usize),
    Declarations(Declarer, usize),
    /// A declaration's name and `=`.
    Value(StrId),
    /// A function declaration's name and parameters.
    Params(StrId, usize),
    IfTest,
    IfThen,
    IfElse,
    WhileTest,
    WhileBody,
    DoBody,
    DoTest,
    ForFirst,
    /// Whether the first part is there.
    ForTest(bool),
    /// Whether the first part and the test are.
    ForLast(bool, bool),
    /// Whether the three parts of the head are.
    ForBody(bool, bool, bool),
    Return,
    Throw,
    Expression,
    TryBlock,
    /// Whether `catch` has a name.
    CatchBlock(bool),
    /// Whether there is a `catch`, and whether it has a name.
    FinallyBlock(bool, bool),
}

/// What is wanted next.
#[derive(Clone, Copy)]
pub enum Mode {
    /// A statement, or the end of the list.
    Statement,
    /// A statement that may stand below another.
    Sub,
    /// A statement has just been read.
    Done,
    Expression(Level),
    /// An expression has just been read.
    Behind,
    /// A part of the head of a `for`, or nothing.
    Part,
    Declaration,
    /// `,` or `;` behind a declaration.
    Declared,
    /// A parameter, or `)`.
    Param,
    /// `,` or `)` behind a parameter.
    Comma,
    /// `{` of a block.
    Brace,
    /// The name behind `catch (`.
    CatchName,
}

/// One step. Its last number says how many tokens it takes.
#[derive(Clone, Copy)]
pub enum Move {
    /// The tokens are a node.
    Leaf(Label, Mode, u8),
    /// The tokens begin something.
    Enter(Frame, Mode, u8),
    /// The tokens go on with what is on top.
    Swap(Frame, Mode, u8),
    /// What is on top is a node of so many operands.
    Build(Label, usize, Mode, u8),
    /// An expression of this level is wanted.
    Ask(Level),
    Ended,
    Wrong,
}

/// What stands at a place and behind it.
#[derive(Clone, Copy)]
pub struct View {
    pub here: Terminal,
    pub next: Terminal,
    pub third: Terminal,
    /// A line end stands before the next token.
    pub after_line: bool,
    /// Statements that aren't within others end here.
    pub stops: bool,
}

/// The next step. A count of operands is small.
pub fn next_move(top: Option<Frame>, mode: Mode, view: View) -> Move
    requires { count_of top + 4 < 2 ^ 32 }
    ensures { result ≡ spec.move_of top mode view }
{
    match mode {
        Mode::Statement => statement(top, view),
        Mode::Sub => sub(view.here, view.next, view.after_line),
        Mode::Done => done(top, view.here, view.next),
        Mode::Expression(level) => Move::Ask(level),
        Mode::Behind => behind(top, view.here, view.next),
        Mode::Part => part(top, view.here),
        Mode::Declaration => declaration(top, view.here, view.next),
        Mode::Declared => declared(top, view.here),
        Mode::Param => param(top, view.here, view.next),
        Mode::Comma => comma(top, view.here, view.next),
        Mode::Brace => {
            let block = Frame::Statements(Holder::Block, 0);
            on_brace(view.here, Move::Enter(block, Mode::Statement, 1))
        }
        Mode::CatchName => catch_name(view.here, view.next),
    }
}

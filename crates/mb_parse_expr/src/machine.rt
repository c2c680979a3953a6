// What a parser does next, by the frame on top, by what it wants and by the token that stands there.
//
// The frames of each production, in the order in which its tokens come; `..` stands for an operand on the stack. Tokens
// and operands between two frames are what `Swap` takes, those behind the last one what `Build` takes.
//
// | production                                | frames                                            |
// |-------------------------------------------|---------------------------------------------------|
// | a whole expression                        | Start                                             |
// | Assign , Assign ..                        | .. Seq(1) .. Seq(2) ..                            |
// | Left = Assign, Left += Assign             | .. Becomes .., .. Compound ..                     |
// | Or ? Assign : Assign                      | .. Test .. Choice ..                              |
// | And || Or, Equal && And, other operators  | .. Or .., .. And .., .. Infix ..                  |
// | typeof Unary, ++ Unary                    | Unary .., Before ..                               |
// | Left ++, Member . Word                    | none: Suffix                                      |
// | new New, new Member ( Elements )          | New .., New .. NewArgs(0) .. NewArgs(1) ..        |
// | Member ( Elements )                       | .. Args(0) .. Args(1) ..                          |
// | Member [ Expr ]                           | .. Index ..                                       |
// | [ Elements ]                              | Array(0) .. Array(1) ..                           |
// | ( Expr )                                  | Group ..                                          |
// | Name => body                              | .. Head(1) Made(Arrow, 1)                         |
// | ( Params ) => body                        | Params(Arrow, 0) .. Head(n) Made(Arrow, n)        |
// | function Name ( Params ) { body }         | Header(Function) Params .. Made                   |
// | { Properties }                            | Object(0) .. Object(1) ..                         |
// | Key : Assign                              | Key Value .., Computed .. Key Value ..            |
// | Name as key and value                     | Value ..                                          |
// | Key ( Params ) { body }                   | Key Params(Method) .. Made                        |
// | get Key ( ) { body }, and so for set      | Accessor Header Params Made, Computed .. Header   |
ghost use Rattle.std.specs.Prelude.{◌≡◌, ◌+◌, ◌<◌, ◌^◌};
ghost use Rattle.mb_parse_expr.specs.machine.Machine as spec;
ghost use Rattle.mb_parse_expr.specs.machine.Machine.{count_of, block_of};

use crate::functions::{arrow, block, body, brace, comma, open, param, title};
use crate::operands::{after, value, word};
use crate::properties::{first_of_property, item, key, keyed};
use crate::role::Follow;
use mb_grammar::{Level, Maker, Property, Role};
use mb_token::{Soft, Token};
use mb_tree::{Label, Sign};

/// What has begun and isn't whole. A number counts the operands that are.
#[derive(Clone, Copy)]
pub enum Frame {
    Start(Level),
    Infix(Sign),
    Or,
    And,
    Becomes,
    Compound(Sign),
    /// A test before `?`.
    Test,
    /// A test and the first choice.
    Choice,
    Unary(Sign),
    /// `++` before its target, or `--`.
    Before(bool),
    New,
    Group,
    /// The level of what is indexed.
    Index(u8),
    Args(usize),
    NewArgs(usize),
    Array(usize),
    Seq(usize),
    /// What stands before `(` and parameters.
    Header(Maker),
    Params(Maker, usize),
    /// Parameters, before `=>`.
    Head(usize),
    /// Parameters, before the body.
    Made(Maker, usize),
    Object(usize),
    /// A property's name.
    Key(Property),
    /// A property's name and `:`.
    Value(Property),
    /// `get` or `set` before a property's name.
    Accessor(Soft),
    /// `[` at the beginning of a property, or behind `get` or `set`.
    Computed(Option<Soft>),
}

/// What is wanted next.
#[derive(Clone, Copy)]
pub enum Mode {
    Operand,
    /// An operand, or a body in braces.
    Body,
    /// An operand of this level has just been read.
    After(u8),
    /// A body of so many statements has just been read.
    Block(usize),
    /// A property behind `.`, which follows an operand of this level.
    Word(u8),
    /// A function's name, or `(`.
    Title,
    /// `(`.
    Open,
    /// A parameter, or `)`.
    Param,
    /// `,` or `)` behind a parameter.
    Comma,
    /// `=>`.
    Arrow,
    /// `{`.
    Brace,
    /// A property, or `}`.
    Property,
    /// A property's name behind `get` or `set`.
    Key,
    /// `:` or `(` behind a property's name.
    Keyed,
    /// `,` or `}` behind a property.
    Item,
}

/// One step.
#[derive(Clone, Copy)]
pub enum Move {
    /// The token is a node.
    Leaf(Label, Mode),
    /// The token is a node behind something that begins.
    Begin(Label, Frame, Mode),
    /// The token begins something.
    Enter(Frame, Mode),
    /// The token goes on with what is on top.
    Swap(Frame, Mode),
    /// What is on top is a node of so many operands; true where the token belongs to it.
    Build(Label, usize, Mode, bool),
    /// The token makes a node of the last operand.
    Suffix(Label, Mode),
    /// The token is taken, and another thing is wanted.
    Turn(Mode),
    Pause,
    Ended,
    Wrong,
}

/// The step at this token, which has this role. `after_line` is true where a line end stands before it, and `ahead`
/// where an arrow function's parameters begin with it, if an operand does; `follow` is for the token behind it.
pub fn next_move(
    top: Option<Frame>,
    mode: Mode,
    token: Option<Token>,
    role: Role,
    after_line: bool,
    ahead: bool,
    follow: Follow,
) -> Move
    requires { count_of top + block_of mode + 3 < 2 ^ 32 }
    ensures { result ≡ spec.move_of top mode token role after_line ahead follow }
{
    match mode {
        Mode::Operand => value(top, role, ahead),
        Mode::Body => body(top, role, ahead),
        Mode::After(found) => after(top, found, role, after_line),
        Mode::Block(statements) => block(top, statements),
        Mode::Word(found) => word(found, token),
        Mode::Title => title(role),
        Mode::Open => open(top, role),
        Mode::Param => param(top, role),
        Mode::Comma => comma(top, role),
        Mode::Arrow => arrow(top, role, after_line),
        Mode::Brace => brace(role),
        Mode::Property => first_of_property(top, token, follow),
        Mode::Key => key(top, token),
        Mode::Keyed => keyed(top, role),
        Mode::Item => item(top, role),
    }
}

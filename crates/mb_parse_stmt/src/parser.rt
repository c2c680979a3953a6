// The parser of scripts.
ghost use Rattle.std.specs.Prelude.{◌≡◌, ℕ, ◌+◌, ◌≤◌, ◌<◌, ◌^◌, List, [], ◌∷◌, ◌++◌, length, vec_len, IfOk, OnOk, Err};
ghost use Rattle.mb_tree.specs.Roses.{Rose, Roses, shapes, write, write_all, roots};
ghost use Rattle.mb_tree.specs.Heights.{height_of};
ghost use Rattle.mb_parse_stmt.specs.machine.Stops.{taken};
ghost use Rattle.mb_grammar.specs.Script.{IsScript, script_of};
ghost use Rattle.mb_parse_stmt.specs.machine.Levels.{AtLevel, Nexts, IsFrom};

use crate::machine::Stop;
use crate::statements::{StatementParser, Step};
use mb_base::NoMemory;
use mb_parse_expr::{ExprParser, Paused};
use mb_token::Spanned;
use mb_tree::{Kind, Label, Tree};
use std::alloc::{AllocError, Global};

// The most nodes on a way down a tree.
const MOST_HIGH: u32 = 256;

/// Why there is no tree.
#[derive(Clone, Copy, Debug, PartialEq, Eq)]
pub enum ParseFault {
    /// The tokens are no script's.
    Shape,
    /// The tree is higher than 256 nodes.
    Deep,
    NoMemory,
}

impl From<AllocError> for ParseFault {
    ghost use Rattle.std.specs.Prelude.{◌≡◌};
    ghost use Rattle.mb_parse_stmt.specs.declared.parser.ParseFault.TheVariants.{NoMemory as no_memory};

    ghost from_gives = { λ _ fault. fault ≡ no_memory };

    fn from(_: AllocError) -> ParseFault {
        ParseFault::NoMemory
    }
}

impl From<NoMemory> for ParseFault {
    ghost use Rattle.std.specs.Prelude.{◌≡◌};
    ghost use Rattle.mb_parse_stmt.specs.declared.parser.ParseFault.TheVariants.{NoMemory as no_memory};

    ghost from_gives = { λ _ fault. fault ≡ no_memory };

    fn from(_: NoMemory) -> ParseFault {
        ParseFault::NoMemory
    }
}

/// A level with an expression that waits for a body's statements.
#[derive(Drop)]
struct Outer {
    statements: StatementParser,
    parser: ExprParser,
}

fn push(outers: &mut Vec<Outer>, outer: Outer) -> Result<(), AllocError>
    ensures { OnOk result (outers.new.items ≡ outers.old.items ++ outer ∷ []) }
{
    outers.push(outer)?;
    Ok(())
}

// What comes once the innermost level is read on.
#[derive(Drop)]
enum Next {
    // An expression is to be read on.
    Parser(ExprParser),
    // The script is over.
    Script,
    // There is no script.
    Shape,
}

// Reads the innermost level on, up to an expression, or to its end, where the expression around it goes on.
fn next_parser(
    alloc: Global,
    tokens: &[Spanned],
    tree: &mut Tree,
    outers: &mut Vec<Outer>,
    statements: &mut StatementParser,
) -> Result<Next, NoMemory>
    requires few { length tokens.now ≤ 1_048_576 }
    requires level { AtLevel tokens.now outers.old.items statements.old (shapes tree.old) }
    ensures nexts { IfOk result (Nexts tokens.now outers.new.items statements.new (shapes tree.new)) }
    ensures from { IfOk result (IsFrom (statements.old.at + taken statements.old.mode) (length tokens.now)) }
{
    match statements.advance(alloc, tokens, tree)? {
        Step::Wrong => Ok(Next::Shape),
        Step::Asks(level) => {
            let parser = ExprParser::begin(alloc, statements.at as u32, level)?;
            Ok(Next::Parser(parser))
        }
        Step::Ended => match outers.pop() {
            None => Ok(Next::Script),
            Some(outer) => {
                let Outer {
                    statements: before,
                    parser,
                } = outer;
                let mut parser = parser;
                let body = std::mem::replace(statements, before);
                parser.resume(body.at as u32, body.operands);
                Ok(Next::Parser(parser))
            }
        },
    }
}

// The tree of all statements.
fn script(alloc: Global, tree: Tree, statements: StatementParser) -> Result<Tree, ParseFault>
    requires { (parts : Roses) × (statements.operands.items ≡ roots [] parts) × (shapes tree ≡ write_all [] parts) }
    ensures tree { (parts : Roses) → statements.operands.items ≡ roots [] parts → shapes tree ≡ write_all [] parts →
        IfOk result (λ whole. (shapes whole ≡ write [] (script_of parts)) × (height_of (script_of parts) ≤ 256)) }
    ensures deep { (parts : Roses) → statements.operands.items ≡ roots [] parts → shapes tree ≡ write_all [] parts →
        result ≡ Err ParseFault.Deep → 256 < height_of (script_of parts) }
    ensures shape { result ≡ Err ParseFault.Shape → ⊥ }
    ensures few { IfOk result (λ whole. vec_len whole.nodes < 2 ^ 32) }
{
    let mut tree = tree;
    let mut operands = statements.operands;
    let count = operands.len();
    let label = Label {
        kind: Kind::Script,
        name: None,
        whole: 0,
    };
    tree.build(alloc, label, &mut operands, count)?;
    if tree.height(alloc)? > MOST_HIGH {
        return Err(ParseFault::Deep);
    }
    Ok(tree)
}

/// The tree of a script (ECMA-262, 16.1): its nodes stand behind those of their parts, and the Script node is the last.
/// It needs no more stack for deeper tokens.
pub fn parse(alloc: Global, tokens: &[Spanned]) -> Result<Tree, ParseFault>
    requires { length tokens.now ≤ 1_048_576 }
    ensures tree { IfOk result (λ tree.
        (script : Rose) × IsScript tokens.now script × (shapes tree ≡ write [] script) × (height_of script ≤ 256)) }
    ensures shape { result ≡ Err ParseFault.Shape → (script : Rose) → IsScript tokens.now script → ⊥ }
    ensures deep { result ≡ Err ParseFault.Deep →
        (script : Rose) × IsScript tokens.now script × (256 < height_of script) }
    ensures few { IfOk result (λ tree. vec_len tree.nodes < 2 ^ 32) }
{
    let mut tree = Tree {
        nodes: Vec::new(alloc),
    };
    let mut outers = Vec::new(alloc);
    let mut statements = StatementParser::begin(alloc, 0, Stop::End)?;
    'levels: loop {
        match next_parser(alloc, tokens, &mut tree, &mut outers, &mut statements)? {
            Next::Script => return script(alloc, tree, statements),
            Next::Shape => return Err(ParseFault::Shape),
            Next::Parser(ready) => {
                let mut parser = ready;
                match parser.run(alloc, tokens, &mut tree)? {
                    Paused::Wrong => return Err(ParseFault::Shape),
                    Paused::Body { at } => {
                        push(&mut outers, Outer { statements, parser })?;
                        statements = StatementParser::begin(alloc, at, Stop::Brace)?;
                    }
                    Paused::Ended { next, root } => statements.read(next, root)?,
                }
            }
        }
    }
}

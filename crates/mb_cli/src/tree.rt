// The tree of a script.
ghost use Rattle.std.specs.Prelude.{◌≡◌, ◌<◌, ◌≤◌, ◌^◌, ℕ, List, [], Err, IfOk, OnOk, length};
ghost use Rattle.mb_tree.specs.Roses.{Rose, shapes, write};
ghost use Rattle.mb_scope.specs.Names.{names_of};
ghost use Rattle.mb_text.specs.Texts.{AreDistinct, KeepsIds};
ghost use Rattle.mb_cli.specs.declared.status.ScriptKind.{ScriptKind as Kind};
ghost use Rattle.mb_lexer.specs.Feeding.{Fed};
ghost use Rattle.mb_world.specs.Data.{script_of};
ghost use Rattle.mb_load_tree.specs.Trees.{AreTokens, ReadsAs, HasTree};
ghost use Rattle.mb_cli.specs.Trees.{ScriptFault};
ghost use Rattle.mb_cli.specs.machine.Pairs.{IsRead};
ghost use Rattle.mb_cli.specs.machine.Scanned.{IsFed};

use crate::status::ScriptKind;
use mb_lexer::{LexFault, Lexer, lex};
use mb_parse_stmt::{ParseFault, parse};
use mb_scope::{NameFault, check};
use mb_text::Texts;
use mb_token::Spanned;
use mb_tree::Program;
use std::alloc::Global;

/// Why a script has no tree.
#[derive(Clone, Copy, Debug, PartialEq, Eq)]
pub enum TreeFault {
    /// It has this fault.
    Bad(ScriptKind),
    NoMemory,
}

impl From<LexFault> for TreeFault {
    ghost use Rattle.std.specs.Prelude.{◌≡◌};
    ghost use Rattle.mb_cli.specs.machine.TreeFaults.{of_lexer};

    ghost from_gives = { λ before fault. fault ≡ of_lexer before };

    fn from(fault: LexFault) -> TreeFault {
        match fault {
            LexFault::Utf8 { at } => TreeFault::Bad(ScriptKind::Utf8 { at }),
            LexFault::Token { at } => TreeFault::Bad(ScriptKind::Token { at }),
            LexFault::Number { at } => TreeFault::Bad(ScriptKind::Number { at }),
            LexFault::NoMemory => TreeFault::NoMemory,
        }
    }
}

impl From<ParseFault> for TreeFault {
    ghost use Rattle.std.specs.Prelude.{◌≡◌};
    ghost use Rattle.mb_cli.specs.machine.TreeFaults.{of_parser};

    ghost from_gives = { λ before fault. fault ≡ of_parser before };

    fn from(fault: ParseFault) -> TreeFault {
        match fault {
            ParseFault::Shape => TreeFault::Bad(ScriptKind::Shape),
            ParseFault::Deep => TreeFault::Bad(ScriptKind::Deep),
            ParseFault::NoMemory => TreeFault::NoMemory,
        }
    }
}

impl From<NameFault> for TreeFault {
    ghost use Rattle.std.specs.Prelude.{◌≡◌};
    ghost use Rattle.mb_cli.specs.machine.TreeFaults.{of_rules};

    ghost from_gives = { λ before fault. fault ≡ of_rules before };

    fn from(fault: NameFault) -> TreeFault {
        match fault {
            NameFault::Twice { node } => TreeFault::Bad(ScriptKind::Twice { node }),
            NameFault::Stray { node } => TreeFault::Bad(ScriptKind::Stray { node }),
            NameFault::BadTarget { node } => TreeFault::Bad(ScriptKind::BadTarget { node }),
            NameFault::NoMemory => TreeFault::NoMemory,
        }
    }
}

// The tree of these tokens, and what its scopes bind.
fn program_of(alloc: Global, tokens: &[Spanned]) -> Result<Program, TreeFault>
    requires { length tokens.now ≤ 1_048_576 }
    ensures tree { (texts : List (List ℕ)) (bytes : List ℕ) → AreTokens texts bytes tokens.now
        → IfOk result (λ program. (tree : Rose) × (shapes program.tree ≡ write [] tree) × ReadsAs texts bytes tree) }
    ensures names { IfOk result (λ program. program.scopes ≡ names_of (shapes program.tree)) }
    ensures few { IfOk result (λ program. length (shapes program.tree) < 2 ^ 32) }
    ensures fault { (texts : List (List ℕ)) (bytes : List ℕ) (kind : Kind) → AreTokens texts bytes tokens.now
        → result ≡ Err (TreeFault.Bad kind) → ScriptFault bytes kind }
{
    let tree = parse(alloc, tokens)?;
    let scopes = check(alloc, &tree)?;
    Ok(Program { tree, scopes })
}

/// The tree of a script and what its scopes bind, or its fault. The texts of its names and string literals are put into
/// `texts`; after a refusal `texts` may have more texts, and has those of before under their ids.
pub fn read_tree(alloc: Global, bytes: &[u8], texts: &mut Texts) -> Result<Program, TreeFault>
    requires { length bytes.now ≤ 1_048_576 }
    ensures tree { AreDistinct texts.old → IfOk result (λ program. (tree : Rose)
        × (shapes program.tree ≡ write [] tree) × ReadsAs texts.new bytes.now tree) }
    ensures names { IfOk result (λ program. program.scopes ≡ names_of (shapes program.tree)) }
    ensures fault { (kind : Kind) → AreDistinct texts.old
        → result ≡ Err (TreeFault.Bad kind) → ScriptFault bytes.now kind }
    ensures ids { KeepsIds texts.old texts.new }
    ensures distinct { AreDistinct texts.old → AreDistinct texts.new }
{
    let tokens = lex(alloc, bytes, texts)?;
    program_of(alloc, &tokens)
}

// The tree of a script that was read in pieces.
pub fn finish_tree(alloc: Global, lexer: Lexer, texts: &mut Texts) -> Result<Program, TreeFault>
    requires fed { IsFed texts.old lexer }
    requires distinct { AreDistinct texts.old }
    ensures tree { (bytes : List ℕ) → Fed lexer texts.old bytes → OnOk result (HasTree bytes) }
    ensures read { (bytes : List ℕ) → Fed lexer texts.old bytes
        → IfOk result (λ program. IsRead texts.new bytes (script_of program)) }
    ensures fault { (bytes : List ℕ) (kind : Kind) → Fed lexer texts.old bytes
        → result ≡ Err (TreeFault.Bad kind) → ScriptFault bytes kind }
    ensures ids { KeepsIds texts.old texts.new }
    ensures distinct { AreDistinct texts.new }
{
    let tokens = lexer.finish(texts)?;
    program_of(alloc, &tokens)
}

// Whether a script that was read in pieces has a tree.
pub fn judge_lexed(alloc: Global, lexer: Lexer, texts: &mut Texts) -> Result<(), TreeFault>
    requires fed { IsFed texts.old lexer }
    requires distinct { AreDistinct texts.old }
    ensures tree { (bytes : List ℕ) → Fed lexer texts.old bytes → OnOk result (HasTree bytes) }
    ensures fault { (bytes : List ℕ) (kind : Kind) → Fed lexer texts.old bytes
        → result ≡ Err (TreeFault.Bad kind) → ScriptFault bytes kind }
{
    let _program = finish_tree(alloc, lexer, texts)?;
    Ok(())
}

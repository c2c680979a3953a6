// The command `run`: two scripts of the first form.
ghost use Rattle.std.specs.Prelude.{◌≡◌, ◌≢◌, ◌≤◌, ◌⊎◌, ℕ, List, Option, Err, Some, IsTrue, IfOk, IfErr, IfSome, vec_len};
ghost use Rattle.std.specs.List.{concat};
ghost use Rattle.mb_outer.specs.Shelf.{Shelf, held};
ghost use Rattle.mb_text.specs.Texts.{KeepsIds};
ghost use Rattle.mb_cli.specs.declared.status.ScriptKind.{ScriptKind as Kind};
ghost use Rattle.mb_cli.specs.declared.status.Status.TheVariants.{ReadFault};
ghost use Rattle.mb_cli.specs.Serving.{IsAnswer, TellsFaults, IsFaultless, OnRead};
ghost use Rattle.mb_cli.specs.Tasks.{IsThere, Writes, left_of, running};
ghost use Rattle.mb_cli.specs.first_form.Form.{Literal as Meant};
ghost use Rattle.mb_cli.specs.first_form.Prints.{Prints, IsNotRun, Printed};
ghost use Rattle.mb_cli.specs.first_form.machine.Literals.{AreLiterals};
ghost use Rattle.mb_cli.specs.first_form.machine.Whole.{IsWhole, IsLexed};
ghost use Rattle.mb_cli.specs.machine.Lines.{contents_of};
ghost use Rattle.mb_cli.specs.machine.Refusals.{ending};

use super::lines::lines_of;
use super::script::{Literal, read_script};
use super::whole::{Script, read_whole};
use crate::refusal::{Refusal, refuse};
use crate::status::ScriptKind;
use crate::tree::{TreeFault, judge_lexed};
use mb_base::Side;
use mb_outer::Library;
use mb_text::Texts;
use std::alloc::Global;

// The most bytes of a script that is run.
const LONGEST: usize = 65_536;

// The literals of a script that has a tree and is of the first form.
fn literals_of(alloc: Global, script: Script, texts: &mut Texts) -> Result<Vec<Literal>, TreeFault>
    requires within { vec_len script.bytes ≤ 65_536 }
    requires lexed { IsLexed script }
    ensures literals { IfOk result (λ literals. (meant : List Meant)
        × Prints (Some script.bytes.items) meant × AreLiterals texts.new literals.items meant) }
    ensures refused { (kind : Kind) → result ≡ Err (TreeFault.Bad kind) → IsNotRun (Some script.bytes.items) kind }
    ensures ids { KeepsIds texts.old texts.new }
{
    let Script {
        bytes,
        lexer,
        texts: mut lexed,
    } = script;
    judge_lexed(alloc, lexer, &mut lexed)?;
    Ok(read_script(alloc, &bytes, texts)?)
}

// The literals of the script of that side, which was read, or was too long.
fn accepted(
    alloc: Global,
    side: Side,
    script: Option<Script>,
    texts: &mut Texts,
) -> Result<Vec<Literal>, Refusal>
    requires within { IfSome script (λ s. vec_len s.bytes ≤ 65_536) }
    requires lexed { IfSome script IsLexed }
    ensures meant { IfOk result (λ literals. (meant : List Meant) × AreLiterals texts.new literals.items meant) }
    ensures script { (held : Option (List ℕ)) → IsWhole 65_536 held script
        → IfOk result (λ literals. (meant : List Meant)
        × Prints held meant × AreLiterals texts.new literals.items meant) }
    ensures refused { (held : Option (List ℕ)) → IsWhole 65_536 held script
        → IfErr result (λ refusal. (refusal ≡ Refusal.NoMemory)
        ⊎ ((kind : Kind) × (refusal ≡ Refusal.Script side kind) × IsNotRun held kind)) }
    ensures judged { result ≢ Err Refusal.ReadFault }
    ensures ids { KeepsIds texts.old texts.new }
{
    match script {
        None => Err(Refusal::Script {
            side,
            kind: ScriptKind::Shape,
        }),
        Some(script) => match literals_of(alloc, script, texts) {
            Ok(literals) => Ok(literals),
            Err(fault) => Err(refuse(side, fault)),
        },
    }
}

// The lines that the two scripts print.
fn lines_printed(
    alloc: Global,
    left: Option<Script>,
    right: Option<Script>,
) -> Result<Vec<Vec<u8>>, Refusal>
    requires left { IfSome left (λ s. vec_len s.bytes ≤ 65_536) }
    requires right { IfSome right (λ s. vec_len s.bytes ≤ 65_536) }
    requires left_lexed { IfSome left IsLexed }
    requires right_lexed { IfSome right IsLexed }
    ensures lines { (lefts rights : Option (List ℕ)) → IsWhole 65_536 lefts left → IsWhole 65_536 rights right
        → IfOk result (λ lines. Printed lefts rights (concat (contents_of lines.items))) }
    ensures answer { (lefts rights : Option (List ℕ)) → IsWhole 65_536 lefts left → IsWhole 65_536 rights right
        → IsAnswer (running lefts rights) (ending result) }
    ensures judged { result ≢ Err Refusal.ReadFault }
{
    let mut texts = Texts::new(alloc);
    let left = accepted(alloc, Side::LEFT, left, &mut texts)?;
    let right = accepted(alloc, Side::RIGHT, right, &mut texts)?;
    let lines = lines_of(alloc, &left, &right, &mut texts)?;
    Ok(lines)
}

// The lines that the scripts of these names print. Both are read before the left one is judged.
pub fn run_lines<L: Library>(
    alloc: Global,
    left: &str,
    right: &str,
    library: &mut L,
) -> Result<Vec<Vec<u8>>, Refusal>
    ensures shelf { L.shelf library.new ≡ L.shelf library.old }
    ensures sound { IsTrue (L.sound library.old) → IsTrue (L.sound library.new) }
    ensures answer { (s : Shelf) → L.shelf library.old ≡ Some s
        → IsAnswer (running (held left.now s) (held right.now s)) (ending result) }
    ensures lines { (s : Shelf) → L.shelf library.old ≡ Some s
        → IfOk result (λ lines. Writes (running (held left.now s) (held right.now s))
        (concat (contents_of lines.items))) }
    ensures reads { TellsFaults ReadFault (ending result) (L.faults library.old) (L.faults library.new) }
    ensures faultless { (s : Shelf) → L.shelf library.old ≡ Some s
        → IsThere (running (held left.now s) (held right.now s)) → IsTrue (L.sound library.old)
        → IsFaultless ReadFault (ending result) (L.faults library.old) (L.faults library.new) }
    ensures read { (s : Shelf) → L.shelf library.old ≡ Some s
        → OnRead (ending result) (L.rest library.new ≡ left_of (running (held left.now s) (held right.now s))) }
{
    let left = read_whole(alloc, library, left, LONGEST)?;
    let right = read_whole(alloc, library, right, LONGEST)?;
    lines_printed(alloc, left, right)
}

// The command `check`: whether a script has a tree.
ghost use Rattle.std.specs.Prelude.{◌≡◌, ◌≢◌, ℕ, List, [], ◌∷◌, Option, Err, Some, IsTrue, IfOk, IfSome};
ghost use Rattle.std.specs.List.{concat};
ghost use Rattle.mb_outer.specs.Shelf.{Shelf, held};
ghost use Rattle.mb_text.specs.Texts.{AreDistinct};
ghost use Rattle.mb_cli.specs.declared.status.Status.TheVariants.{ReadFault};
ghost use Rattle.mb_cli.specs.Serving.{IsAnswer, TellsFaults, IsFaultless, OnRead};
ghost use Rattle.mb_cli.specs.Tasks.{IsThere, Writes, left_of, checking, right_line};
ghost use Rattle.mb_cli.specs.machine.Lines.{contents_of};
ghost use Rattle.mb_cli.specs.machine.Refusals.{ending};
ghost use Rattle.mb_cli.specs.machine.Scanned.{IsFed, IsScanned};

use crate::pieces::scan;
use crate::refusal::{Refusal, refuse};
use crate::status::Which;
use crate::tree::judge_lexed;
use mb_base::{NoMemory, Side};
use mb_lexer::Lexer;
use mb_outer::Library;
use mb_text::Texts;
use std::alloc::Global;

// The line that tells that a script is right.
fn line_of_a_right_script(alloc: Global) -> Result<Vec<u8>, NoMemory>
    ensures { IfOk result (λ line. line.items ≡ right_line) }
{
    let mut line = Vec::new(alloc);
    line.extend_from_slice(b"= ok\n")?;
    Ok(line)
}

// What tells that a script is right.
fn lines_of_a_right_script(alloc: Global) -> Result<Vec<Vec<u8>>, NoMemory>
    ensures { IfOk result (λ lines. contents_of lines.items ≡ right_line ∷ []) }
{
    let mut lines = Vec::new(alloc);
    lines.push(line_of_a_right_script(alloc)?)?;
    Ok(lines)
}

// The lines that tell of a script, which was read, or was too long.
fn lines_judged(
    alloc: Global,
    script: Option<Lexer>,
    texts: &mut Texts,
) -> Result<Vec<Vec<u8>>, Refusal>
    requires fed { IfSome script (IsFed texts.old) }
    requires distinct { AreDistinct texts.old }
    ensures lines { (held : Option (List ℕ)) → IsScanned texts.old held script
        → IfOk result (λ lines. Writes (checking held) (concat (contents_of lines.items))) }
    ensures answer { (held : Option (List ℕ)) → IsScanned texts.old held script
        → IsAnswer (checking held) (ending result) }
    ensures judged { result ≢ Err Refusal.ReadFault }
{
    let Some(lexer) = script else {
        return Err(Refusal::TooLong(Which::Script(Side::LEFT)));
    };
    match judge_lexed(alloc, lexer, texts) {
        Ok(()) => Ok(lines_of_a_right_script(alloc)?),
        Err(fault) => Err(refuse(Side::LEFT, fault)),
    }
}

// The lines that tell of the script of this name.
pub fn check_lines<L: Library>(
    alloc: Global,
    file: &str,
    library: &mut L,
) -> Result<Vec<Vec<u8>>, Refusal>
    ensures shelf { L.shelf library.new ≡ L.shelf library.old }
    ensures sound { IsTrue (L.sound library.old) → IsTrue (L.sound library.new) }
    ensures answer { (s : Shelf) → L.shelf library.old ≡ Some s
        → IsAnswer (checking (held file.now s)) (ending result) }
    ensures lines { (s : Shelf) → L.shelf library.old ≡ Some s
        → IfOk result (λ lines. Writes (checking (held file.now s)) (concat (contents_of lines.items))) }
    ensures reads { TellsFaults ReadFault (ending result) (L.faults library.old) (L.faults library.new) }
    ensures faultless { (s : Shelf) → L.shelf library.old ≡ Some s
        → IsThere (checking (held file.now s)) → IsTrue (L.sound library.old)
        → IsFaultless ReadFault (ending result) (L.faults library.old) (L.faults library.new) }
    ensures read { (s : Shelf) → L.shelf library.old ≡ Some s
        → OnRead (ending result) (L.rest library.new ≡ left_of (checking (held file.now s))) }
{
    let mut texts = Texts::new(alloc);
    let script = scan(alloc, library, file, &mut texts)?;
    lines_judged(alloc, script, &mut texts)
}

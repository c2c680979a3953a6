// The programs of two scripts of a library.
ghost use Rattle.std.specs.Prelude.{◌≡◌, ◌≢◌, ◌∷◌, ◌≤◌, Bool, Err, IfErr, IfOk, IsSome, IsTrue, List, Option, Some, [], length, option_map, ℕ};
ghost use Rattle.mb_lexer.specs.Feeding.{Fed};
ghost use Rattle.mb_outer.specs.Causes.{IsRaised};
ghost use Rattle.mb_outer.specs.Shelf.{Shelf, held};
ghost use Rattle.mb_text.specs.Texts.{AreDistinct, KeepsIds};
ghost use Rattle.mb_world.specs.Data.{script_of};
ghost use Rattle.mb_cli.specs.Serving.{IsAnswer, IsFaultless, OnRead, TellsFaults};
ghost use Rattle.mb_cli.specs.Tasks.{IsTooLong, behind, last_of, sharing};
ghost use Rattle.mb_cli.specs.declared.status.Status.TheVariants.{ReadFault};
ghost use Rattle.mb_cli.specs.declared.status.Which.{Which as ATooLong};
ghost use Rattle.mb_cli.specs.machine.Pairs.{AreRead, IsFaultOf, IsFaultOfPair, IsFaultOfReading, IsRead};
ghost use Rattle.mb_cli.specs.machine.Refusals.{ending, status_of};
ghost use Rattle.mb_cli.specs.machine.Scanned.{IsFed, IsScanned};

use crate::pieces::scan;
use crate::refusal::{Refusal, refuse};
use crate::status::Which;
use crate::tree::finish_tree;
use mb_base::{NoMemory, Side};
use mb_lexer::Lexer;
use mb_outer::Library;
use mb_text::Texts;
use mb_tree::Program;
use std::alloc::Global;

// Two programs, the left one first.
fn listed(alloc: Global, left: Program, right: Program) -> Result<Vec<Program>, NoMemory>
    ensures { IfOk result (λ programs. programs.items ≡ left ∷ right ∷ []) }
{
    let mut programs = Vec::new(alloc);
    programs.push(left)?;
    programs.push(right)?;
    Ok(programs)
}

// The program of the script of that side, which was read in pieces.
fn read_program(
    alloc: Global,
    side: Side,
    lexer: Lexer,
    texts: &mut Texts,
) -> Result<Program, Refusal>
    requires fed { IsFed texts.old lexer }
    requires distinct { AreDistinct texts.old }
    ensures read { (bytes : List ℕ) → Fed lexer texts.old bytes
        → IfOk result (λ program. IsRead texts.new bytes (script_of program)) }
    ensures refused { (bytes : List ℕ) → Fed lexer texts.old bytes → IfErr result (IsFaultOf side bytes) }
    ensures judged { result ≢ Err Refusal.ReadFault }
    ensures ids { KeepsIds texts.old texts.new }
    ensures distinct { AreDistinct texts.new }
{
    match finish_tree(alloc, lexer, texts) {
        Ok(program) => Ok(program),
        Err(fault) => Err(refuse(side, fault)),
    }
}

// The programs of two scripts, which were read in pieces. The left one is judged first.
fn read_programs(
    alloc: Global,
    left: Lexer,
    right: Lexer,
    texts: &mut Texts,
) -> Result<Vec<Program>, Refusal>
    requires left { IsFed texts.old left }
    requires right { IsFed texts.old right }
    requires distinct { AreDistinct texts.old }
    ensures read { (lefts rights : List ℕ) → Fed left texts.old lefts → Fed right texts.old rights
        → length lefts ≤ 1048576 → length rights ≤ 1048576
        → IfOk result (λ programs. AreRead texts.new (Some lefts) (Some rights) programs.items) }
    ensures refused { (lefts rights : List ℕ) → Fed left texts.old lefts → Fed right texts.old rights
        → IfErr result (IsFaultOfPair lefts rights) }
    ensures judged { result ≢ Err Refusal.ReadFault }
{
    let left = read_program(alloc, Side::LEFT, left, texts)?;
    let right = read_program(alloc, Side::RIGHT, right, texts)?;
    Ok(listed(alloc, left, right)?)
}

// Reads the script of that side, which has this name. One that is too long is refused.
fn scan_side<L: Library>(
    alloc: Global,
    library: &mut L,
    side: Side,
    name: &str,
    texts: &mut Texts,
) -> Result<Lexer, Refusal>
    ensures shelf { L.shelf library.new ≡ L.shelf library.old }
    ensures sound { IsTrue (L.sound library.old) → IsTrue (L.sound library.new) }
    ensures script { (s : Shelf) → L.shelf library.old ≡ Some s
        → IfOk result (λ lexer. IsScanned texts.new (held name.now s) (Some lexer)) }
    ensures long { (s : Shelf) → L.shelf library.old ≡ Some s → (long : ATooLong) → result ≡ Err (Refusal.TooLong long)
        → IsTooLong (held name.now s) }
    ensures fed { IfOk result (IsFed texts.new) }
    ensures refused { IfErr result (IsFaultOfReading side) }
    ensures ids { KeepsIds texts.old texts.new }
    ensures distinct { AreDistinct texts.old → AreDistinct texts.new }
    ensures later { L.faults library.old ≤ L.faults library.new }
    ensures failed { result ≡ Err Refusal.ReadFault → IsRaised (L.faults library.old) (L.faults library.new) }
    ensures counted { result ≢ Err Refusal.ReadFault → L.faults library.new ≡ L.faults library.old }
    ensures never { (s : Shelf) → IsTrue (L.sound library.old) → L.shelf library.old ≡ Some s
        → IsSome (held name.now s) → result ≢ Err Refusal.ReadFault }
    ensures read { (s : Shelf) → L.shelf library.old ≡ Some s
        → OnRead (ending result) (L.rest library.new ≡ option_map (behind 1_048_577) (held name.now s)) }
{
    match scan(alloc, library, name, texts)? {
        Some(lexer) => Ok(lexer),
        None => Err(Refusal::TooLong(Which::Script(side))),
    }
}

// Reads the scripts of these names, the left one first, and judges them.
pub fn read_pair<L: Library>(
    alloc: Global,
    library: &mut L,
    left: &str,
    right: &str,
    texts: &mut Texts,
) -> Result<Vec<Program>, Refusal>
    requires distinct { AreDistinct texts.old }
    ensures shelf { L.shelf library.new ≡ L.shelf library.old }
    ensures sound { IsTrue (L.sound library.old) → IsTrue (L.sound library.new) }
    ensures some { IfOk result (λ programs. (lefts rights : Option (List ℕ))
        × AreRead texts.new lefts rights programs.items) }
    ensures pair { (s : Shelf) → L.shelf library.old ≡ Some s
        → IfOk result (λ programs. AreRead texts.new (held left.now s) (held right.now s) programs.items) }
    ensures answer { (s : Shelf) → L.shelf library.old ≡ Some s → (word : List ℕ) (budget : ℕ) (traced : Bool)
        → IfErr result (λ refusal. IsAnswer (sharing (held left.now s) (held right.now s) word budget traced)
        (status_of refusal)) }
    ensures reads { TellsFaults ReadFault (ending result) (L.faults library.old) (L.faults library.new) }
    ensures faultless { (s : Shelf) → L.shelf library.old ≡ Some s
        → IsSome (held left.now s) × IsSome (held right.now s) → IsTrue (L.sound library.old)
        → IsFaultless ReadFault (ending result) (L.faults library.old) (L.faults library.new) }
    ensures read { (s : Shelf) → L.shelf library.old ≡ Some s → OnRead (ending result)
        (L.rest library.new ≡ option_map (behind 1_048_577) (last_of (held left.now s) (held right.now s))) }
{
    let left = scan_side(alloc, library, Side::LEFT, left, texts)?;
    let right = scan_side(alloc, library, Side::RIGHT, right, texts)?;
    read_programs(alloc, left, right, texts)
}

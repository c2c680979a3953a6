// `print`, whose line is the texts of its arguments with a blank between two.
ghost use Rattle.std.specs.Prelude.{◌≡◌, ◌+◌, ◌++◌, ◌<◌, ◌↔◌, ◌∷◌, All, Bool, IsErr, OnErr, OnOk, [], false, true};
ghost use Rattle.mb_frames.specs.Held.{HeldValues};
ghost use Rattle.mb_frames.specs.Passing.{TextsGrew};
ghost use Rattle.mb_frames.specs.Ready.{KeepsBy};
ghost use Rattle.mb_frames.specs.Resolved.{values_in};
ghost use Rattle.mb_frames.specs.Sorts.{AValue};
ghost use Rattle.mb_frames.specs.Stepping.{Step, written};
ghost use Rattle.mb_intrinsics.specs.machine.Acting.{Acting};
ghost use Rattle.mb_intrinsics.specs.machine.Printing.{Adds, Joins, printing};
ghost use Rattle.mb_model.specs.BuiltIns.Basics.{with_blank};
ghost use Rattle.mb_text.specs.Spelling.{spelled};
ghost use Rattle.mb_world.specs.EntryLine.{side_letter};
ghost use Rattle.mb_world.specs.Ids.{HasItsIds, ValueIn};
ghost use Rattle.mb_world.specs.Image.{Resolve, names_of};

use crate::giving::value;
use mb_base::{Fuel, NoMemory, Side, Spent, Value};
use mb_frames::{Halt, Lines, Move, Units, Values};
use mb_parts::{text_from, type_error};
use mb_text::spell;
use mb_world::World;

// The text of each argument is paid before the line is written. One without a text is a TypeError.
pub(crate) fn print(
    w: &mut World,
    fuel: &mut Fuel,
    lines: &mut Lines,
    home: Side,
    arguments: &Values,
) -> Result<Move, Halt>
    requires acting { Acting w.old home (HeldValues arguments.now ∷ []) }
    ensures row { (begun : Bool) → Step home begun result w.old w.new fuel.old fuel.new (written lines.old)
        (written lines.new) (printing home.0 [] true (values_in (names_of w.old) arguments.now)) }
    ensures keeps { KeepsBy home AValue result w.old w.new }
{
    match joined(w, fuel, arguments)? {
        Some(line) => {
            write_line(lines, home, line.items())?;
            Ok(value(Value::Undefined))
        }
        None => type_error(w, home),
    }
}

// The texts of the arguments with a blank between two, each of them paid, or `None` where one has no text.
fn joined(w: &mut World, fuel: &mut Fuel, arguments: &Values) -> Result<Option<Units>, Halt>
    requires ids { HasItsIds w.old }
    requires values { All (ValueIn w.old) arguments.now }
    ensures row { Joins result w.old w.new fuel.old fuel.new (values_in (names_of w.old) arguments.now) }
    ensures grew { TextsGrew w.old w.new }
{
    let mut line = Units::new(*w.trace().allocator());
    let mut first = true;
    for argument in arguments.items() {
        if !add_text(w, fuel, &mut line, first, *argument)? {
            return Ok(None);
        }
        first = false;
    }
    Ok(Some(line))
}

// One more text, which is paid, and a blank before it where it isn't the first; false where the argument has no text.
fn add_text(
    w: &mut World,
    fuel: &mut Fuel,
    line: &mut Units,
    first: bool,
    x: Value,
) -> Result<bool, Halt>
    requires ids { HasItsIds w.old }
    requires value { ValueIn w.old x }
    requires empty { first ≡ true → line.old ≡ [] }
    ensures row { Adds result w.old w.new fuel.old fuel.new line.old line.new first (Resolve (names_of w.old) x) }
    ensures grew { TextsGrew w.old w.new }
{
    match text_from(w, x)? {
        Some(text) => {
            let units = w.texts().units(text);
            charge(fuel, units.len() / 64)?;
            append(line, first, units)?;
            Ok(true)
        }
        None => Ok(false),
    }
}

// Takes so many units.
fn charge(fuel: &mut Fuel, units: usize) -> Result<(), Spent>
    ensures spent { IsErr result ↔ (fuel.old < units) }
    ensures paid { OnOk result (fuel.new + units ≡ fuel.old) }
    ensures kept { OnErr result (fuel.new ≡ fuel.old) }
{
    if units > fuel.left() as usize {
        return Err(Spent);
    }
    fuel.charge(units as u32)
}

// A text, and a blank before it where it isn't the first.
fn append(line: &mut Units, first: bool, units: &[u16]) -> Result<(), NoMemory>
    requires { first ≡ true → line.old ≡ [] }
    ensures { OnOk result (line.new ≡ with_blank line.old first units.now) }
{
    if !first {
        line.extend(&[32])?;
    }
    line.extend(units)
}

// One more line, which a side printed.
fn write_line(lines: &mut Lines, home: Side, units: &[u16]) -> Result<(), NoMemory>
    requires { home.0 < 8 }
    ensures { OnOk result (written lines.new ≡ record (written lines.old) {
      lines = (written lines.old).lines ++ (side_letter lines.old.lettered home.0 ∷ 32 ∷ spelled false units.now) ∷ [];
    }) }
{
    let mut line = Vec::new(*lines.all.allocator());
    line.push(letter(lines.lettered, home))?;
    line.push(b' ')?;
    spell(units, false, &mut line)?;
    lines.all.push(line)?;
    Ok(())
}

/// The letter of a side in lines: A to H where the sides are lettered, else L and R.
pub fn letter(lettered: bool, side: Side) -> u8
    requires { side.0 < 8 }
    ensures { result ≡ side_letter lettered side.0 }
{
    if lettered {
        b'A' + side.0
    } else if side.0 == 0 {
        b'L'
    } else {
        b'R'
    }
}

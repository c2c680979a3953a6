// The line of an uncaught throw.
ghost use Rattle.std.specs.Prelude.{◌≡◌, ◌<◌, ◌++◌, ◌∷◌, [], IfOk, List, OnOk, Option, false};
ghost use Rattle.mb_base.specs.declared.value.Value.{Value as AValue};
ghost use Rattle.mb_engine.specs.machine.Running.{HasText};
ghost use Rattle.mb_frames.specs.Passing.{TextsGrew};
ghost use Rattle.mb_frames.specs.Ready.{IsReady};
ghost use Rattle.mb_frames.specs.Real.{IsReal, IsRealAt};
ghost use Rattle.mb_frames.specs.Stepping.{written};
ghost use Rattle.mb_model.specs.Story.{kind_text, thing_text, thrown_text};
ghost use Rattle.mb_text.specs.Spelling.{spelled};
ghost use Rattle.mb_world.specs.EntryLine.{side_letter};
ghost use Rattle.mb_world.specs.Graph.{Item};
ghost use Rattle.mb_world.specs.Ids.{ObjIn, ValueIn};
ghost use Rattle.mb_world.specs.Image.{Image, Names, Resolve, kind_in, names_of, object_in};
ghost use Rattle.mb_world.specs.Objects.{thing_at};

use mb_base::{NoMemory, ObjId, Side, Value};
use mb_frames::{Lines, Units};
use mb_intrinsics::{letter, symbol_text};
use mb_parts::text_from;
use mb_text::spell;
use mb_world::{CellKind, ErrorKind, World};

/// Writes that a side threw a value which no script caught: an error's kind, `object`, or the value as a text.
pub(crate) fn note_uncaught(
    w: &mut World,
    side: Side,
    lines: &mut Lines,
    thrown: Value,
) -> Result<(), NoMemory>
    requires ready { IsReady w.old }
    requires side { side.0 < 8 }
    requires value { ValueIn w.old thrown }
    requires real { IsReal w.old thrown }
    ensures line { OnOk result ((log : List Item) → written lines.new ≡ record (written lines.old) {
      lines = (written lines.old).lines ++ (side_letter lines.old.lettered side.0 ∷ 33 ∷ 32 ∷
          spelled false (thrown_text (Image w.old log) (Resolve (names_of w.old) thrown))) ∷ [];
    }) }
    ensures grew { TextsGrew w.old w.new }
{
    let text = thrown_text(w, thrown)?;
    write_line(lines, side, text.items())
}

// One more line, of what a side threw.
fn write_line(lines: &mut Lines, side: Side, units: &[u16]) -> Result<(), NoMemory>
    requires { side.0 < 8 }
    ensures { OnOk result (written lines.new ≡ record (written lines.old) {
      lines = (written lines.old).lines
          ++ (side_letter lines.old.lettered side.0 ∷ 33 ∷ 32 ∷ spelled false units.now) ∷ [];
    }) }
{
    let mut line = Vec::new(*lines.all.allocator());
    line.push(letter(lines.lettered, side))?;
    line.push(b'!')?;
    line.push(b' ')?;
    spell(units, false, &mut line)?;
    lines.all.push(line)?;
    Ok(())
}

// The units of `value `, of `object`, and of the kinds of errors.
static VALUE: [u16; 6] = [118, 97, 108, 117, 101, 32];

static OBJECT: [u16; 6] = [111, 98, 106, 101, 99, 116];

static ERROR: [u16; 5] = [69, 114, 114, 111, 114];

static TYPE_ERROR: [u16; 9] = [84, 121, 112, 101, 69, 114, 114, 111, 114];

static RANGE_ERROR: [u16; 10] = [82, 97, 110, 103, 101, 69, 114, 114, 111, 114];

static REFERENCE_ERROR: [u16; 14] = [
    82, 101, 102, 101, 114, 101, 110, 99, 101, 69, 114, 114, 111, 114,
];

// What the line says of a value.
fn thrown_text(w: &mut World, thrown: Value) -> Result<Units, NoMemory>
    requires ready { IsReady w.old }
    requires value { ValueIn w.old thrown }
    requires real { IsReal w.old thrown }
    ensures text { IfOk result (λ units. (log : List Item) →
        units ≡ thrown_text (Image w.old log) (Resolve (names_of w.old) thrown)) }
    ensures grew { TextsGrew w.old w.new }
{
    let alloc = *w.trace().allocator();
    let _texts = w.texts();
    match thrown {
        Value::Object(id) => filled(Units::new(alloc), kind_of(w, id), &[]),
        Value::Symbol(symbol) => {
            let text = symbol_text(w, symbol)?;
            filled(Units::new(alloc), &VALUE, &text)
        }
        x => primitive_text(w, Units::new(alloc), x),
    }
}

// A primitive's text, which is no symbol.
fn primitive_text(w: &mut World, units: Units, x: Value) -> Result<Units, NoMemory>
    requires ready { IsReady w.old }
    requires value { ValueIn w.old x }
    requires none { units ≡ [] }
    requires primitive { HasText (Resolve (names_of w.old) x) }
    ensures text { IfOk result (λ units. (log : List Item) →
        units ≡ thrown_text (Image w.old log) (Resolve (names_of w.old) x)) }
    ensures grew { TextsGrew w.old w.new }
{
    match text_from(w, x)? {
        Some(text) => filled(units, &VALUE, w.texts().units(text)),
        None => unreachable!(),
    }
}

// One text, and another behind it.
fn filled(mut units: Units, first: &[u16], second: &[u16]) -> Result<Units, NoMemory>
    requires { units ≡ [] }
    ensures { IfOk result (λ units. units ≡ first.now ++ second.now) }
{
    units.extend(first)?;
    units.extend(second)?;
    Ok(units)
}

// What the line says of an object; of a membrane proxy, what it says of the one behind.
fn kind_of(w: &World, id: ObjId) -> &'static [u16]
    requires ready { IsReady w.now }
    requires object { ObjIn w.now id }
    requires real { IsRealAt w.now id }
    ensures { (log : List Item) → result.now ≡ thing_text (thing_at (Image w.now log) (object_in (names_of w.now) id)) }
{
    match &w.cell(id).kind {
        CellKind::Membrane { behind, .. } => word_of(&w.cell(*behind).kind),
        kind => word_of(kind),
    }
}

fn word_of(kind: &CellKind) -> &'static [u16]
    ensures { (n : Names) (slots : List (Option (AValue × AValue))) →
        result.now ≡ kind_text (kind_in n slots kind.now) }
{
    match kind {
        CellKind::Fault(ErrorKind::Error) => &ERROR,
        CellKind::Fault(ErrorKind::TypeError) => &TYPE_ERROR,
        CellKind::Fault(ErrorKind::RangeError) => &RANGE_ERROR,
        CellKind::Fault(ErrorKind::ReferenceError) => &REFERENCE_ERROR,
        _ => &OBJECT,
    }
}

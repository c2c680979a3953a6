// join (ECMA-262, 23.1.3.18).
ghost use Rattle.std.specs.Prelude.{◌≡◌, ◌+◌, ◌≤◌, ◌∷◌, [], IfOk, List, ℕ, length};
ghost use Rattle.mb_arrayapi.specs.machine.Joining.{separator_text};
ghost use Rattle.mb_call.specs.Ours.{Acts};
ghost use Rattle.mb_frames.specs.Held.{HeldObject, HeldValue};
ghost use Rattle.mb_frames.specs.Passing.{Part, TextsGrew};
ghost use Rattle.mb_frames.specs.Ready.{KeepsBy};
ghost use Rattle.mb_frames.specs.Rest.Arraying.{join_from};
ghost use Rattle.mb_frames.specs.Sorts.{AValue};
ghost use Rattle.mb_model.specs.BuiltIns.ArrayMembers.{join_each, join_got, separator_at};
ghost use Rattle.mb_model.specs.Meaning.{finished};
ghost use Rattle.mb_model.specs.Operations.Conversions.{text_limit};
ghost use Rattle.mb_model.specs.Writing.{◌>>=◌ as after_that};
ghost use Rattle.mb_world.specs.Ids.{HasItsIds, ValueIn};
ghost use Rattle.mb_world.specs.Image.{Resolve, names_of, object_in};
ghost use Rattle.mb_world.specs.Value.{Val};

use crate::errors::{range_error, type_error};
use crate::giving::{value, waits};
use crate::keys::{index_key, next_place};
use crate::texts::{charge, element_units, extend, units_of};
use mb_base::{Fuel, NoMemory, ObjId, Side, Value};
use mb_frames::{ArrayFrame, Halt, Method, Move, Units};
use mb_text::TextFault;
use mb_world::World;

// The unit of a comma.
const COMMA: [u16; 1] = [44];

// It has the length: the separator must have a text.
pub(crate) fn join(
    w: &mut World,
    fuel: &mut Fuel,
    home: Side,
    object: ObjId,
    separator: Value,
    length: u64,
) -> Result<Move, Halt>
    requires acts { Acts w.old home (HeldObject object ∷ HeldValue separator ∷ []) }
    ensures part { Part home result w.old w.new fuel.old fuel.new (join_from home.0
        (object_in (names_of w.old) object) (Resolve (names_of w.old) separator) length finished) }
    ensures keeps { KeepsBy home AValue result w.old w.new }
{
    match separator_units(w, separator)? {
        Some(units) => {
            let none = Units::new(*w.trace().allocator());
            join_each(w, fuel, home, object, 0, length, units, none)
        }
        None => type_error(w, home),
    }
}

// The units of the separator, a comma where it is undefined.
fn separator_units(w: &mut World, x: Value) -> Result<Option<Units>, NoMemory>
    requires value { ValueIn w.old x }
    requires ids { HasItsIds w.old }
    ensures units { IfOk result (λ units. units ≡ separator_text (Resolve (names_of w.old) x)) }
    ensures grew { TextsGrew w.old w.new }
{
    match x {
        Value::Undefined => {
            let _texts = w.texts();
            let mut units = Units::new(*w.trace().allocator());
            units.extend(&COMMA)?;
            Ok(Some(units))
        }
        _ => units_of(w, x),
    }
}

// The next element is got, behind a separator; behind the last one the text is given.
fn join_each(
    w: &mut World,
    fuel: &mut Fuel,
    home: Side,
    object: ObjId,
    place: u64,
    left: u64,
    separator: Units,
    so_far: Units,
) -> Result<Move, Halt>
    requires acts { Acts w.old home (HeldObject object ∷ []) }
    requires short { length so_far ≤ text_limit }
    ensures part { Part home result w.old w.new fuel.old fuel.new (join_each home.0
        (object_in (names_of w.old) object) separator left place so_far finished) }
    ensures keeps { KeepsBy home AValue result w.old w.new }
{
    if left == 0 {
        return joined(w, fuel, home, &so_far);
    }
    fuel.charge(1)?;
    let mut so_far = so_far;
    let fits = extend(&mut so_far, separator_at(place, &separator))?;
    if !fits {
        return range_error(w, home);
    }
    let key = index_key(w, place)?;
    let receiver = Value::Object(object);
    Ok(waits(
        home,
        ArrayFrame::JoinGot {
            object,
            place,
            left: left - 1,
            separator,
            so_far,
        },
        Method::Get { key, receiver },
        object,
    ))
}

// What stands before the element at a place.
fn separator_at(place: u64, separator: &Units) -> &[u16]
    ensures { result.now ≡ separator_at place separator.now }
{
    if place == 0 { &[] } else { separator.items() }
}

// The whole text is paid and given.
fn joined(w: &mut World, fuel: &mut Fuel, home: Side, so_far: &Units) -> Result<Move, Halt>
    requires acts { Acts w.old home [] }
    requires short { length so_far.now ≤ text_limit }
    ensures part { (o : Val) (separator : List ℕ) (place : ℕ) →
        Part home result w.old w.new fuel.old fuel.new (join_each home.0 o separator 0 place so_far.now finished) }
    ensures keeps { KeepsBy home AValue result w.old w.new }
{
    let units = so_far.items();
    charge(fuel, units.len() / 64)?;
    match w.intern(units) {
        Ok(text) => {
            let _texts = w.texts();
            Ok(value(Value::Text(text)))
        }
        Err(TextFault::NoMemory) => Err(Halt::NoMemory),
        Err(TextFault::Long) => unreachable!(),
    }
}

// An element was got.
pub(crate) fn join_got(
    w: &mut World,
    fuel: &mut Fuel,
    home: Side,
    object: ObjId,
    place: u64,
    left: u64,
    separator: Units,
    so_far: Units,
    x: Value,
) -> Result<Move, Halt>
    requires acts { Acts w.old home (HeldValue x ∷ HeldObject object ∷ []) }
    ensures part { Part home result w.old w.new fuel.old fuel.new (after_that
        (join_got home.0 so_far (Resolve (names_of w.old) x))
        (join_each home.0 (object_in (names_of w.old) object) separator left (place + 1)) finished) }
    ensures keeps { KeepsBy home AValue result w.old w.new }
{
    match element_units(w, x)? {
        Some(units) => {
            let mut so_far = so_far;
            let fits = extend(&mut so_far, units.items())?;
            if !fits {
                return range_error(w, home);
            }
            let place = next_place(place)?;
            join_each(w, fuel, home, object, place, left, separator, so_far)
        }
        None => type_error(w, home),
    }
}

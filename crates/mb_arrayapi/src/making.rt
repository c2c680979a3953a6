// Arrays that rows make (ECMA-262, 10.4.2.2, 7.3.18).
ghost use Rattle.std.specs.Prelude.{◌≡◌, ◌<◌, ◌^◌, ◌∷◌, [], ℕ, OnOk, length};
ghost use Rattle.mb_arrayapi.specs.machine.Making.{HaltsForMemory, Made, MakesArray, value_alone};
ghost use Rattle.mb_call.specs.Ours.{Acts};
ghost use Rattle.mb_frames.specs.Going.{Makes};
ghost use Rattle.mb_frames.specs.Held.{HeldArray, HeldPrototype, HeldValues};
ghost use Rattle.mb_frames.specs.Keeping.{KeepsAnswer, none_held};
ghost use Rattle.mb_frames.specs.Resolved.{values_in};
ghost use Rattle.mb_model.specs.BuiltIns.Arrays.{fresh_array};
ghost use Rattle.mb_parts.specs.Keeping.{array_held};
ghost use Rattle.mb_world.specs.Data.{Data};
ghost use Rattle.mb_world.specs.Image.{Resolve, names_of};
ghost use Rattle.mb_world.specs.Value.{Val};

use crate::keys::length_key;
use crate::places::ARRAY_PROTOTYPE;
use crate::storing::store;
use mb_array::define_any;
use mb_base::{ObjId, Side, Value};
use mb_desc::Desc;
use mb_frames::{Halt, Values, built_in};
use mb_world::{CellKind, World};

// The greatest length of an array.
pub(crate) const LIMIT: u64 = u32::MAX as u64;

// A value alone.
fn value_alone(x: Value) -> Desc<Value>
    ensures { result ≡ value_alone x }
{
    Desc {
        value: Some(x),
        writable: None,
        get: None,
        set: None,
        enumerable: None,
        configurable: None,
    }
}

// A new array of that side, of that length and without elements.
pub(crate) fn make_array(
    w: &mut World,
    home: Side,
    prototype: Value,
    length: u32,
) -> Result<ObjId, Halt>
    requires acts { Acts w.old home (HeldPrototype prototype ∷ []) }
    ensures makes { MakesArray result w.old w.new home.0 (Resolve (names_of w.old) prototype) length [] }
    ensures keeps { KeepsAnswer home array_held result w.old w.new }
{
    let array = w.make(home, CellKind::Array, prototype, None)?;
    let _made = w.texts();
    let key = length_key(w)?;
    let _texts = w.texts();
    let _there = w.cell(array).props.get(key);
    define_any(w, array, key, value_alone(Value::Whole(length as i64)))?;
    let _after = w.texts();
    Ok(array)
}

// So one with the prototype of arrays.
pub(crate) fn fresh_array(w: &mut World, home: Side, length: u32) -> Result<ObjId, Halt>
    requires acts { Acts w.old home [] }
    ensures makes { Makes result w.old w.new (fresh_array home.0 length) }
    ensures keeps { KeepsAnswer home array_held result w.old w.new }
{
    let prototype = built_in(w, home, ARRAY_PROTOTYPE);
    make_array(w, home, prototype, length)
}

// A new array of that side, of these values.
pub(crate) fn make_filled(
    w: &mut World,
    home: Side,
    prototype: Value,
    values: &Values,
) -> Result<ObjId, Halt>
    requires acts { Acts w.old home (HeldPrototype prototype ∷ HeldValues values.now ∷ []) }
    ensures makes { MakesArray result w.old w.new home.0 (Resolve (names_of w.old) prototype) (length values.now)
        (values_in (names_of w.old) values.now) }
    ensures keeps { KeepsAnswer home array_held result w.old w.new }
{
    let count = values.len();
    let long = count as u64 > LIMIT;
    if long {
        return Err(Halt::NoMemory);
    }
    let array = make_array(w, home, prototype, count as u32)?;
    fill(w, home, array, values)?;
    Ok(array)
}

// The values are stored in the array, from place 0 on.
fn fill(w: &mut World, home: Side, array: ObjId, values: &Values) -> Result<(), Halt>
    requires acts { Acts w.old home (HeldArray array ∷ HeldValues values.now ∷ []) }
    requires many { length values.now < 2 ^ 32 }
    ensures filled { (d : Data) (s : ℕ) (p : Val) → Made d w.old s p (length values.now) [] array →
        OnOk result (Made d w.new s p (length values.now) (values_in (names_of w.old) values.now) array) }
    ensures memory { HaltsForMemory result }
    ensures keeps { KeepsAnswer home none_held result w.old w.new }
{
    let mut place = 0;
    for x in values.items() {
        store(w, home, array, place, *x)?;
        place += 1;
    }
    Ok(())
}

// Arrays that rows make, and their elements (ECMA-262, 7.3.5, 7.3.18, 10.4.2.2).
ghost use Rattle.std.specs.Prelude.{◌≡◌, ◌<◌, ◌-◌, ◌^◌, ◌∷◌, [], IfOk, OnOk};
ghost use Rattle.mb_frames.specs.Going.{Makes};
ghost use Rattle.mb_frames.specs.Held.{HeldArray, HeldValue, HeldValues};
ghost use Rattle.mb_frames.specs.Keeping.{KeepsAnswer, KeepsOn, none_held};
ghost use Rattle.mb_frames.specs.Ready.{Holds, IsReady};
ghost use Rattle.mb_frames.specs.Resolved.{values_in};
ghost use Rattle.mb_frames.specs.Wholeness.{IsOfKind};
ghost use Rattle.mb_model.specs.Objects.Methods.{store_element};
ghost use Rattle.mb_model.specs.Operations.Makings.{make_array};
ghost use Rattle.mb_parts.specs.Keeping.{array_held, object_held};
ghost use Rattle.mb_parts.specs.Standing.{Acts};
ghost use Rattle.mb_parts.specs.Storing.{Stores, opened};
ghost use Rattle.mb_world.specs.Image.{Resolve, names_of, object_in};
ghost use Rattle.mb_world.specs.declared.cell.CellKind.TheVariants as TheKind;

use crate::conversions::digits;
use mb_array::define_any;
use mb_base::{ObjId, Side, Value};
use mb_desc::Desc;
use mb_frames::{Halt, built_in};
use mb_world::{CellKind, World};

// The place of the prototype of arrays.
const ARRAY_PROTOTYPE: u16 = 24;

// No array has more elements.
const MOST_ELEMENTS: usize = u32::MAX as usize;

/// A new array of that side, without elements (ArrayCreate, ECMA-262, 10.4.2.2).
pub fn empty_array(w: &mut World, home: Side) -> Result<ObjId, Halt>
    requires { Acts w.old home }
    ensures makes { Makes result w.old w.new (make_array home.0 []) }
    ensures array { IfOk result (IsOfKind w.new home TheKind.Array) }
    ensures acts { OnOk result (Acts w.new home) }
    ensures keeps { KeepsOn home [] array_held result w.old w.new }
{
    let prototype = built_in(w, home, ARRAY_PROTOTYPE);
    let array = w.make(home, CellKind::Array, prototype, None)?;
    let _texts = w.texts();
    Ok(array)
}

/// A descriptor of a property that can be written, listed and changed (ECMA-262, 7.3.5).
pub fn open_desc(x: Value) -> Desc<Value>
    ensures { result ≡ opened x }
{
    Desc {
        value: Some(x),
        writable: Some(true),
        get: None,
        set: None,
        enumerable: Some(true),
        configurable: Some(true),
    }
}

/// Defines an element of an array (CreateDataProperty, ECMA-262, 7.3.5). Where the array refuses it nothing changes,
/// and the refusal isn't told. After `NoMemory` the array has the elements that it had.
pub fn store_element(
    w: &mut World,
    home: Side,
    array: ObjId,
    place: u32,
    x: Value,
) -> Result<(), Halt>
    requires place { place < 2 ^ 32 - 1 }
    requires acts { Acts w.old home }
    requires ready { IsReady w.old }
    requires holds { Holds w.old home (HeldArray array ∷ HeldValue x ∷ []) }
    ensures stored { Stores result w.old w.new
        (store_element home.0 (object_in (names_of w.old) array) place (Resolve (names_of w.old) x)) }
    ensures acts { OnOk result (Acts w.new home) }
    ensures keeps { KeepsOn home (HeldArray array ∷ HeldValue x ∷ []) none_held result w.old w.new }
{
    let text = digits(w, place as i64)?;
    let key = w.texts().key(text);
    let _there = w.cell(array).props.get(key);
    define_any(w, array, key, open_desc(x))?;
    let _texts = w.texts();
    Ok(())
}

/// A new array of that side, with these elements (CreateArrayFromList, ECMA-262, 7.3.18). After `NoMemory` an array
/// with some of them may stand in the world, which nothing refers to.
pub fn make_array(w: &mut World, home: Side, values: &[Value]) -> Result<ObjId, Halt>
    requires ready { IsReady w.old }
    requires side { home.0 < w.old.sides }
    requires held { Holds w.old home (HeldValues values.now ∷ []) }
    ensures makes { Makes result w.old w.new (make_array home.0 (values_in (names_of w.old) values.now)) }
    ensures keeps { KeepsAnswer home object_held result w.old w.new }
{
    if values.len() > MOST_ELEMENTS {
        return Err(Halt::NoMemory);
    }
    let array = empty_array(w, home)?;
    for (place, x) in values.iter().enumerate() {
        store_element(w, home, array, place as u32, *x)?;
    }
    Ok(array)
}

// Object.isFrozen (ECMA-262, 20.1.2.16), by TestIntegrityLevel (7.3.17).
ghost use Rattle.std.specs.Prelude.{◌≡◌, ◌∷◌, [], drop};
ghost use Rattle.mb_call.specs.Ours.{Acts};
ghost use Rattle.mb_desc.specs.Descriptors.{property_is};
ghost use Rattle.mb_frames.specs.Held.{HeldKeys, HeldObject, HeldValue};
ghost use Rattle.mb_frames.specs.Passing.{Part};
ghost use Rattle.mb_frames.specs.Ready.{KeepsBy, Leaves};
ghost use Rattle.mb_frames.specs.Resolved.{keys_of, real_in};
ghost use Rattle.mb_frames.specs.Sorts.{AValue};
ghost use Rattle.mb_frames.specs.Stepping.{Sure};
ghost use Rattle.mb_model.specs.BuiltIns.ObjectMembers.{frozen_key, frozen_keys, frozen_open, is_frozen, is_loose};
ghost use Rattle.mb_model.specs.Meaning.{finished};
ghost use Rattle.mb_world.specs.Data.{Data};
ghost use Rattle.mb_world.specs.Image.{Names, Resolve, names_of, object_in};

use crate::giving::{value, waits};
use crate::keys::{after, key_at};
use mb_base::{Fuel, ObjId, Side, Value};
use mb_desc::Full;
use mb_frames::{Halt, Method, Move, ReflectFrame};
use mb_world::KeyList;

// An object is asked whether it is extensible; what is none is frozen.
pub(crate) fn is_frozen(home: Side, x: Value) -> Move
    ensures sure { (d : Data) → Acts d home (HeldValue x ∷ []) →
        Sure home d (is_frozen home.0 (Resolve (names_of d) x) finished) result }
    ensures leaves { (d : Data) → Acts d home (HeldValue x ∷ []) → Leaves d home AValue result }
{
    match x {
        Value::Object(object) => waits(
            home,
            ReflectFrame::FrozenExtensible { object },
            Method::IsExtensible,
            object,
        ),
        _ => value(Value::Bool(true)),
    }
}

// One that is extensible isn't frozen; else its keys are asked for.
pub(crate) fn frozen_open(home: Side, object: ObjId, extensible: bool) -> Move
    ensures sure { (d : Data) → Acts d home (HeldObject object ∷ []) →
        Sure home d (frozen_open home.0 (object_in (names_of d) object) extensible finished) result }
    ensures leaves { (d : Data) → Acts d home (HeldObject object ∷ []) → Leaves d home AValue result }
{
    if extensible {
        value(Value::Bool(false))
    } else {
        waits(
            home,
            ReflectFrame::FrozenKeys { object },
            Method::OwnPropertyKeys,
            object,
        )
    }
}

// The keys from the next on: a unit for each.
pub(crate) fn frozen_from(
    fuel: &mut Fuel,
    home: Side,
    object: ObjId,
    keys: KeyList,
    next: u32,
) -> Result<Move, Halt>
    ensures part { (d : Data) → Acts d home (HeldObject object ∷ HeldKeys keys ∷ []) →
        Part home result d d fuel.old fuel.new (frozen_keys home.0 (object_in (names_of d) object)
        (drop next (keys_of (names_of d) keys)) finished) }
    ensures keeps { (d : Data) → Acts d home (HeldObject object ∷ HeldKeys keys ∷ []) →
        KeepsBy home AValue result d d }
{
    match key_at(&keys, next) {
        None => Ok(value(Value::Bool(true))),
        Some(key) => {
            fuel.charge(1)?;
            let next = after(next)?;
            Ok(waits(
                home,
                ReflectFrame::FrozenRead { object, keys, next },
                Method::GetOwnProperty(key),
                object,
            ))
        }
    }
}

// What the object has at a key was read: one that can be changed or written isn't frozen.
pub(crate) fn frozen_read(
    fuel: &mut Fuel,
    home: Side,
    object: ObjId,
    keys: KeyList,
    next: u32,
    found: Option<Full<Value>>,
) -> Result<Move, Halt>
    ensures part { (d : Data) → Acts d home (HeldObject object ∷ HeldKeys keys ∷ []) →
        Part home result d d fuel.old fuel.new (frozen_key (frozen_keys home.0 (object_in (names_of d) object)
        (drop next (keys_of (names_of d) keys))) (real_in (names_of d) found) finished) }
    ensures keeps { (d : Data) → Acts d home (HeldObject object ∷ HeldKeys keys ∷ []) →
        KeepsBy home AValue result d d }
{
    if is_loose(found) {
        return Ok(value(Value::Bool(false)));
    }
    frozen_from(fuel, home, object, keys, next)
}

// Whether a property is there that can be changed or written.
fn is_loose(found: Option<Full<Value>>) -> bool
    ensures { (n : Names) → result ≡ property_is is_loose (real_in n found) }
{
    match found {
        Some(
            Full::Datum {
                writable,
                configurable,
                ..
            },
        ) => configurable || writable,
        Some(Full::Accessor { configurable, .. }) => configurable,
        None => false,
    }
}

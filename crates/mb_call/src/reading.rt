// Properties that are read (ECMA-262, 10.1.7, 10.1.8).
ghost use Rattle.std.specs.Prelude.{◌∷◌, [], ℕ, Ok};
ghost use Rattle.mb_frames.specs.Held.{HeldKey, HeldObject, HeldValue};
ghost use Rattle.mb_frames.specs.Ready.{Leaves};
ghost use Rattle.mb_frames.specs.Sorts.{AFlag, AValue};
ghost use Rattle.mb_frames.specs.Stepping.{Sure};
ghost use Rattle.mb_model.specs.Meaning.{finished};
ghost use Rattle.mb_model.specs.Objects.Methods.{call_getter};
ghost use Rattle.mb_ordinary.specs.Objects.{IsOrdinary};
ghost use Rattle.mb_world.specs.Data.{cell_at};
ghost use Rattle.mb_world.specs.Formed.{IsCallableOrNot};
ghost use Rattle.mb_world.specs.Image.{Resolve, names_of};
ghost use Rattle.mb_call.specs.Ours.{Acts};
ghost use Rattle.mb_call.specs.Methods.{DoesMethod};

use crate::giving::{performs, value, yes_or_no};
use mb_base::{Key, ObjId, Side, Value};
use mb_desc::Full;
use mb_frames::{Method, Move, Values};
use mb_ordinary::proto;
use mb_rules::shown;
use mb_world::World;

// OrdinaryHasProperty (ECMA-262, 10.1.7.1).
pub(crate) fn has(w: &World, home: Side, viewer: Side, object: ObjId, key: Key) -> Move
    requires acts { Acts w.now home (HeldObject object ∷ HeldKey key ∷ []) }
    requires ordinary { IsOrdinary (cell_at w.now object) }
    ensures part { (f : ℕ) →
        DoesMethod home home viewer object (Method.HasProperty key) (Ok result) w.now w.now f f }
    ensures leaves { Leaves w.now home AFlag result }
{
    match shown(w, viewer, object, key) {
        Some(_) => yes_or_no(true),
        None => match proto(w, object) {
            Value::Object(above) => performs(home, Method::HasProperty(key), above),
            _ => yes_or_no(false),
        },
    }
}

// OrdinaryGet (ECMA-262, 10.1.8.1).
pub(crate) fn get(
    w: &World,
    home: Side,
    viewer: Side,
    object: ObjId,
    key: Key,
    receiver: Value,
) -> Move
    requires acts { Acts w.now home (HeldObject object ∷ HeldKey key ∷ HeldValue receiver ∷ []) }
    requires ordinary { IsOrdinary (cell_at w.now object) }
    ensures part { (f : ℕ) →
        DoesMethod home home viewer object (Method.Get key receiver) (Ok result) w.now w.now f f }
    ensures leaves { Leaves w.now home AValue result }
{
    match shown(w, viewer, object, key) {
        Some(property) => match property {
            Full::Datum { value: x, .. } => value(x),
            Full::Accessor { get: getter, .. } => call_getter(w, home, receiver, getter),
        },
        None => match proto(w, object) {
            Value::Object(above) => performs(home, Method::Get { key, receiver }, above),
            _ => value(Value::Undefined),
        },
    }
}

/// A getter is called with the receiver as `this` and no arguments; a property without one is undefined (ECMA-262,
/// 10.1.8.1).
pub fn call_getter(w: &World, home: Side, receiver: Value, getter: Value) -> Move
    requires acts { Acts w.now home (HeldValue receiver ∷ HeldValue getter ∷ []) }
    requires getter { IsCallableOrNot w.now getter }
    ensures sure { Sure home w.now (call_getter home.0 (Resolve (names_of w.now) receiver)
        (Resolve (names_of w.now) getter) finished) result }
    ensures leaves { Leaves w.now home AValue result }
{
    match getter {
        Value::Object(function) => {
            let arguments = Values::new(*w.trace().allocator());
            let this = receiver;
            performs(home, Method::Call { this, arguments }, function)
        }
        _ => value(Value::Undefined),
    }
}

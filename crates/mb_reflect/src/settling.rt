// Object.freeze and Object.seal (ECMA-262, 20.1.2.6, 20.1.2.21), by SetIntegrityLevel (7.3.16).
ghost use Rattle.std.specs.Prelude.{◌≡◌, ◌∷◌, [], ℕ, drop, true};
ghost use Rattle.mb_call.specs.Ours.{Acts};
ghost use Rattle.mb_frames.specs.Held.{HeldKey, HeldKeys, HeldObject, HeldReal, HeldValue};
ghost use Rattle.mb_frames.specs.Passing.{Part};
ghost use Rattle.mb_frames.specs.Ready.{KeepsBy, Leaves};
ghost use Rattle.mb_frames.specs.Resolved.{keys_of, real_in};
ghost use Rattle.mb_frames.specs.Sorts.{AValue};
ghost use Rattle.mb_frames.specs.Stepping.{Sure};
ghost use Rattle.mb_model.specs.BuiltIns.ObjectMembers.{freeze_found, settle, settle_closed, settle_key, settle_keys};
ghost use Rattle.mb_model.specs.Meaning.{finished};
ghost use Rattle.mb_model.specs.Writing.{◌>>=◌ as after_that, unless_type_error};
ghost use Rattle.mb_reflect.specs.machine.Settling.{freezes};
ghost use Rattle.mb_world.specs.Data.{Data};
ghost use Rattle.mb_world.specs.Image.{Resolve, key_in, names_of, object_in};

use crate::errors::type_error;
use crate::giving::{value, waits};
use crate::keys::{after, key_at};
use mb_base::{Fuel, Key, ObjId, Side, Value};
use mb_desc::{Desc, Full};
use mb_frames::{Halt, Method, Move, ReflectFrame};
use mb_world::{KeyList, World};

// An object is closed first; what is none is given back.
pub(crate) fn settle(home: Side, frozen: bool, x: Value) -> Move
    ensures sure { (d : Data) → Acts d home (HeldValue x ∷ []) →
        Sure home d (settle home.0 frozen (Resolve (names_of d) x) finished) result }
    ensures leaves { (d : Data) → Acts d home (HeldValue x ∷ []) → Leaves d home AValue result }
{
    match x {
        Value::Object(object) => waits(
            home,
            ReflectFrame::Closed { object, frozen },
            Method::PreventExtensions,
            object,
        ),
        _ => value(x),
    }
}

// It must be closed now; its keys are asked for.
pub(crate) fn closed(
    w: &mut World,
    home: Side,
    object: ObjId,
    frozen: bool,
    closed: bool,
) -> Result<Move, Halt>
    requires acts { Acts w.old home (HeldObject object ∷ []) }
    ensures part { (f : ℕ) → Part home result w.old w.new f f
        (settle_closed home.0 (object_in (names_of w.old) object) frozen closed finished) }
    ensures keeps { KeepsBy home AValue result w.old w.new }
{
    if !closed {
        return type_error(w, home);
    }
    Ok(waits(
        home,
        ReflectFrame::SettledKeys { object, frozen },
        Method::OwnPropertyKeys,
        object,
    ))
}

// The keys from the next on: a unit for each.
pub(crate) fn settle_from(
    fuel: &mut Fuel,
    home: Side,
    object: ObjId,
    frozen: bool,
    keys: KeyList,
    next: u32,
) -> Result<Move, Halt>
    ensures part { (d : Data) → Acts d home (HeldObject object ∷ HeldKeys keys ∷ []) →
        Part home result d d fuel.old fuel.new (settle_keys home.0 (object_in (names_of d) object) frozen
        (drop next (keys_of (names_of d) keys)) finished) }
    ensures keeps { (d : Data) → Acts d home (HeldObject object ∷ HeldKeys keys ∷ []) →
        KeepsBy home AValue result d d }
{
    match key_at(&keys, next) {
        None => Ok(value(Value::Object(object))),
        Some(key) => {
            fuel.charge(1)?;
            let next = after(next)?;
            Ok(settle_key(home, object, frozen, key, keys, next))
        }
    }
}

// Freezing reads what the object has at a key, sealing defines it at once.
fn settle_key(home: Side, object: ObjId, frozen: bool, key: Key, keys: KeyList, next: u32) -> Move
    ensures sure { (d : Data) → Acts d home (HeldObject object ∷ HeldKey key ∷ HeldKeys keys ∷ []) →
        Sure home d (after_that (settle_key home.0 (object_in (names_of d) object) frozen (key_in (names_of d) key))
        (λ a. settle_keys home.0 (object_in (names_of d) object) frozen (drop next (keys_of (names_of d) keys)))
        finished) result }
    ensures leaves { (d : Data) → Acts d home (HeldObject object ∷ HeldKey key ∷ HeldKeys keys ∷ []) →
        Leaves d home AValue result }
{
    if frozen {
        waits(
            home,
            ReflectFrame::FreezeRead {
                object,
                key,
                keys,
                next,
            },
            Method::GetOwnProperty(key),
            object,
        )
    } else {
        waits(
            home,
            ReflectFrame::Settled {
                object,
                frozen,
                keys,
                next,
            },
            Method::DefineOwnProperty(key, SEALING),
            object,
        )
    }
}

// Freezing read what the object has at a key: what is gone meanwhile is passed over.
pub(crate) fn freeze_found(
    fuel: &mut Fuel,
    home: Side,
    object: ObjId,
    key: Key,
    keys: KeyList,
    next: u32,
    found: Option<Full<Value>>,
) -> Result<Move, Halt>
    ensures part { (d : Data) →
        Acts d home (HeldObject object ∷ HeldKey key ∷ HeldKeys keys ∷ HeldReal found ∷ []) →
        Part home result d d fuel.old fuel.new (after_that (freeze_found home.0 (object_in (names_of d) object)
        (key_in (names_of d) key) (real_in (names_of d) found))
        (λ a. settle_keys home.0 (object_in (names_of d) object) true (drop next (keys_of (names_of d) keys)))
        finished) }
    ensures keeps { (d : Data) →
        Acts d home (HeldObject object ∷ HeldKey key ∷ HeldKeys keys ∷ HeldReal found ∷ []) →
        KeepsBy home AValue result d d }
{
    match found {
        None => settle_from(fuel, home, object, true, keys, next),
        Some(full) => Ok(waits(
            home,
            ReflectFrame::Settled {
                object,
                frozen: true,
                keys,
                next,
            },
            Method::DefineOwnProperty(key, freezing(full)),
            object,
        )),
    }
}

// A key was defined, which must be done.
pub(crate) fn settled(
    w: &mut World,
    fuel: &mut Fuel,
    home: Side,
    object: ObjId,
    frozen: bool,
    keys: KeyList,
    next: u32,
    done: bool,
) -> Result<Move, Halt>
    requires acts { Acts w.old home (HeldObject object ∷ HeldKeys keys ∷ []) }
    ensures part { Part home result w.old w.new fuel.old fuel.new (after_that (unless_type_error home.0 done)
        (λ a. settle_keys home.0 (object_in (names_of w.old) object) frozen
        (drop next (keys_of (names_of w.old) keys))) finished) }
    ensures keeps { KeepsBy home AValue result w.old w.new }
{
    if !done {
        return type_error(w, home);
    }
    settle_from(fuel, home, object, frozen, keys, next)
}

// What sealing defines: the property can't be changed any more.
const SEALING: Desc<Value> = Desc {
    value: None,
    writable: None,
    get: None,
    set: None,
    enumerable: None,
    configurable: Some(false),
};

// What freezing defines: a data property can't be written any more either.
fn freezing(full: Full<Value>) -> Desc<Value>
    ensures { result ≡ freezes full }
{
    match full {
        Full::Datum { .. } => Desc {
            writable: Some(false),
            ..SEALING
        },
        Full::Accessor { .. } => SEALING,
    }
}

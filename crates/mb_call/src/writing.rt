// Properties that are written (ECMA-262, 10.1.9).
ghost use Rattle.std.specs.Prelude.{◌≡◌, ◌∷◌, [], ℕ, Ok, Some};
ghost use Rattle.mb_desc.specs.Descriptors.{descriptor_of, value_alone};
ghost use Rattle.mb_frames.specs.Held.{HeldFull, HeldKey, HeldObject, HeldValue};
ghost use Rattle.mb_frames.specs.Passing.{Part};
ghost use Rattle.mb_frames.specs.Ready.{Leaves, LeavesBy};
ghost use Rattle.mb_frames.specs.Resolved.{real_in};
ghost use Rattle.mb_frames.specs.Sorts.{AFlag};
ghost use Rattle.mb_frames.specs.Stepping.{Sure};
ghost use Rattle.mb_model.specs.Meaning.{finished};
ghost use Rattle.mb_model.specs.Objects.Methods.{call_setter, ordinary_set, receiver_has, store};
ghost use Rattle.mb_ordinary.specs.Objects.{IsOrdinary};
ghost use Rattle.mb_world.specs.Data.{Data, cell_at};
ghost use Rattle.mb_world.specs.Image.{Resolve, full_in, key_in, names_of, object_in};
ghost use Rattle.mb_world.specs.Ordinary.{written};
ghost use Rattle.mb_world.specs.Property.{open_property};
ghost use Rattle.mb_world.specs.Value.{Val};
ghost use Rattle.mb_call.specs.Ours.{Acts};
ghost use Rattle.mb_call.specs.Methods.{DoesMethod};

use crate::giving::{asks, performs, yes_or_no};
use mb_base::{Key, ObjId, Side, Value};
use mb_desc::{Desc, Full};
use mb_frames::{CallFrame, Frame, Halt, Method, Move, Values};
use mb_ordinary::proto;
use mb_rules::shown;
use mb_world::World;

// OrdinarySetWithOwnDescriptor (ECMA-262, 10.1.9.2).
pub(crate) fn set(
    w: &World,
    home: Side,
    viewer: Side,
    object: ObjId,
    key: Key,
    x: Value,
    receiver: Value,
) -> Result<Move, Halt>
    requires acts { Acts w.now home (HeldObject object ∷ HeldKey key ∷ HeldValue x ∷ HeldValue receiver ∷ []) }
    requires ordinary { IsOrdinary (cell_at w.now object) }
    ensures part { (f : ℕ) →
        DoesMethod home home viewer object (Method.Set key x receiver) result w.now w.now f f }
    ensures leaves { LeavesBy w.now home AFlag result }
{
    match shown(w, viewer, object, key) {
        Some(found) => set_found(w, home, found, key, x, receiver),
        None => match proto(w, object) {
            Value::Object(above) => Ok(performs(
                home,
                Method::Set {
                    key,
                    value: x,
                    receiver,
                },
                above,
            )),
            _ => Ok(store(home, key, x, receiver)),
        },
    }
}

/// OrdinarySetWithOwnDescriptor (ECMA-262, 10.1.9.2) where the object has the property: a value that can be written goes
/// to the receiver, a setter is called.
pub fn set_found(
    w: &World,
    home: Side,
    found: Full<Value>,
    key: Key,
    x: Value,
    receiver: Value,
) -> Result<Move, Halt>
    requires acts { Acts w.now home (HeldFull found ∷ HeldKey key ∷ HeldValue x ∷ HeldValue receiver ∷ []) }
    ensures part { (f : ℕ) (above : Val) → Part home result w.now w.now f f
        (ordinary_set home.0 (key_in (names_of w.now) key) (Resolve (names_of w.now) x)
        (Resolve (names_of w.now) receiver) (written above (Some (full_in (names_of w.now) found))) finished) }
    ensures leaves { LeavesBy w.now home AFlag result }
{
    match found {
        Full::Datum { writable: true, .. } => Ok(store(home, key, x, receiver)),
        Full::Datum { .. } => Ok(yes_or_no(false)),
        Full::Accessor { set: setter, .. } => match setter {
            Value::Object(function) => call_setter(w, home, receiver, x, function),
            _ => Ok(yes_or_no(false)),
        },
    }
}

// A setter is called with the receiver as `this`, and its result is left aside.
fn call_setter(
    w: &World,
    home: Side,
    receiver: Value,
    x: Value,
    setter: ObjId,
) -> Result<Move, Halt>
    requires acts { Acts w.now home (HeldValue receiver ∷ HeldValue x ∷ HeldObject setter ∷ []) }
    ensures part { (f : ℕ) → Part home result w.now w.now f f (call_setter home.0
        (Resolve (names_of w.now) receiver) (Resolve (names_of w.now) x) (object_in (names_of w.now) setter)
        finished) }
    ensures leaves { LeavesBy w.now home AFlag result }
{
    let mut arguments = Values::new(*w.trace().allocator());
    arguments.push(x)?;
    let this = receiver;
    Ok(Move::Wait(
        Frame::Call(CallFrame::SetterCalled),
        asks(home, Method::Call { this, arguments }, setter),
    ))
}

/// The value is to be stored in the receiver (ECMA-262, 10.1.9.2, step 2): what that has is read first. A receiver that
/// is no object takes nothing.
pub fn store(home: Side, key: Key, x: Value, receiver: Value) -> Move
    ensures sure { (d : Data) → Acts d home (HeldKey key ∷ HeldValue x ∷ HeldValue receiver ∷ []) →
        Sure home d (store home.0 (key_in (names_of d) key) (Resolve (names_of d) x) (Resolve (names_of d) receiver)
        finished) result }
    ensures leaves { (d : Data) → Acts d home (HeldKey key ∷ HeldValue x ∷ HeldValue receiver ∷ []) →
        Leaves d home AFlag result }
{
    match receiver {
        Value::Object(receiver) => Move::Wait(
            Frame::Call(CallFrame::ReceiverRead {
                key,
                value: x,
                receiver,
            }),
            asks(home, Method::GetOwnProperty(key), receiver),
        ),
        _ => yes_or_no(false),
    }
}

// What the receiver has was read (ECMA-262, 10.1.9.2, steps 2.c to 2.e).
pub(crate) fn receiver_has(
    home: Side,
    key: Key,
    x: Value,
    receiver: ObjId,
    found: Option<Full<Value>>,
) -> Move
    ensures sure { (d : Data) → Acts d home (HeldKey key ∷ HeldValue x ∷ HeldObject receiver ∷ []) →
        Sure home d (receiver_has home.0 (key_in (names_of d) key) (Resolve (names_of d) x)
        (object_in (names_of d) receiver) (real_in (names_of d) found) finished) result }
    ensures leaves { (d : Data) → Acts d home (HeldKey key ∷ HeldValue x ∷ HeldObject receiver ∷ []) →
        Leaves d home AFlag result }
{
    match found {
        None => performs(home, Method::DefineOwnProperty(key, open(x)), receiver),
        Some(property) => match property {
            Full::Datum { writable: true, .. } => {
                performs(
                    home,
                    Method::DefineOwnProperty(key, value_alone(x)),
                    receiver,
                )
            }
            Full::Datum { .. } => yes_or_no(false),
            Full::Accessor { .. } => yes_or_no(false),
        },
    }
}

// All of a property that can be written, listed and changed.
fn open(x: Value) -> Desc<Value>
    ensures { result ≡ descriptor_of (open_property x) }
{
    Desc {
        value: Some(x),
        writable: Some(true),
        get: None,
        set: None,
        enumerable: Some(true),
        configurable: Some(true),
    }
}

// The value alone.
fn value_alone(x: Value) -> Desc<Value>
    ensures { result ≡ value_alone x }
{
    Desc {
        value: Some(x),
        writable: None,
        get: None,
        set: None,
        enumerable: None,
        configurable: None,
    }
}

// Members of Object and Reflect that ask a method of their first argument (ECMA-262, 20.1.2, 28.1).
ghost use Rattle.std.specs.Prelude.{◌∷◌, [], ℕ};
ghost use Rattle.mb_call.specs.Ours.{Acts};
ghost use Rattle.mb_frames.specs.Held.{HeldObject, HeldValue};
ghost use Rattle.mb_frames.specs.Passing.{Part};
ghost use Rattle.mb_frames.specs.Ready.{KeepsBy, Leaves};
ghost use Rattle.mb_frames.specs.Sorts.{AValue};
ghost use Rattle.mb_frames.specs.Stepping.{Sure};
ghost use Rattle.mb_model.specs.BuiltIns.ObjectMembers.{given_back, object_set_prototype_of};
ghost use Rattle.mb_model.specs.BuiltIns.ReflectMembers.{reflect_set_prototype};
ghost use Rattle.mb_model.specs.Meaning.{finished};
ghost use Rattle.mb_reflect.specs.machine.Asking.{asked_rest, asked_row};
ghost use Rattle.mb_world.specs.Data.{Data};
ghost use Rattle.mb_world.specs.Image.{Resolve, names_of, object_in};

use crate::arguments::{is_nullish, may_be_prototype};
use crate::errors::type_error;
use crate::giving::{performs, value, waits};
use mb_base::{ObjId, Side, Value};
use mb_frames::{Halt, Method, Move, ReflectFrame};
use mb_world::World;

/// A member that asks a method of its first argument alone.
#[derive(Clone, Copy)]
pub(crate) enum Asked {
    /// Object.keys.
    Keys,
    /// Object.getOwnPropertySymbols.
    Symbols,
    /// Reflect.ownKeys.
    OwnKeys,
    /// getPrototypeOf of Object and of Reflect.
    Prototype,
    /// Reflect.isExtensible.
    Extensible,
    /// Reflect.preventExtensions.
    Prevent,
}

// The first argument must be an object.
pub(crate) fn ask(w: &mut World, home: Side, member: Asked, x: Value) -> Result<Move, Halt>
    requires acts { Acts w.old home (HeldValue x ∷ []) }
    ensures part { (f : ℕ) → Part home result w.old w.new f f
        (asked_row home.0 member (Resolve (names_of w.old) x) finished) }
    ensures keeps { KeepsBy home AValue result w.old w.new }
{
    match x {
        Value::Object(object) => Ok(asks(home, member, object)),
        _ => type_error(w, home),
    }
}

// The object is asked.
fn asks(home: Side, member: Asked, object: ObjId) -> Move
    ensures sure { (d : Data) → Acts d home (HeldObject object ∷ []) →
        Sure home d (asked_rest home.0 member (object_in (names_of d) object) finished) result }
    ensures leaves { (d : Data) → Acts d home (HeldObject object ∷ []) → Leaves d home AValue result }
{
    match member {
        Asked::Keys => waits(
            home,
            ReflectFrame::KeysListed { object },
            Method::OwnPropertyKeys,
            object,
        ),
        Asked::Symbols => waits(
            home,
            ReflectFrame::SymbolsListed,
            Method::OwnPropertyKeys,
            object,
        ),
        Asked::OwnKeys => waits(home, ReflectFrame::OwnKeys, Method::OwnPropertyKeys, object),
        Asked::Prototype => performs(home, Method::GetPrototypeOf, object),
        Asked::Extensible => waits(home, ReflectFrame::Truth, Method::IsExtensible, object),
        Asked::Prevent => waits(home, ReflectFrame::Truth, Method::PreventExtensions, object),
    }
}

// Reflect.setPrototypeOf (ECMA-262, 28.1.14), which tells whether it was done.
pub(crate) fn reflect_set_prototype(
    w: &mut World,
    home: Side,
    x: Value,
    prototype: Value,
) -> Result<Move, Halt>
    requires acts { Acts w.old home (HeldValue x ∷ HeldValue prototype ∷ []) }
    ensures part { (f : ℕ) → Part home result w.old w.new f f (reflect_set_prototype home.0
        (Resolve (names_of w.old) x) (Resolve (names_of w.old) prototype) finished) }
    ensures keeps { KeepsBy home AValue result w.old w.new }
{
    match x {
        Value::Object(object) => {
            if !may_be_prototype(prototype) {
                return type_error(w, home);
            }
            Ok(waits(
                home,
                ReflectFrame::Truth,
                Method::SetPrototypeOf(prototype),
                object,
            ))
        }
        _ => type_error(w, home),
    }
}

// Object.setPrototypeOf (ECMA-262, 20.1.2.22), which gives its argument back.
pub(crate) fn object_set_prototype(
    w: &mut World,
    home: Side,
    x: Value,
    prototype: Value,
) -> Result<Move, Halt>
    requires acts { Acts w.old home (HeldValue x ∷ HeldValue prototype ∷ []) }
    ensures part { (f : ℕ) → Part home result w.old w.new f f (object_set_prototype_of home.0
        (Resolve (names_of w.old) x) (Resolve (names_of w.old) prototype) finished) }
    ensures keeps { KeepsBy home AValue result w.old w.new }
{
    if !may_be_prototype(prototype) {
        return type_error(w, home);
    }
    if is_nullish(x) {
        return type_error(w, home);
    }
    match x {
        Value::Object(object) => Ok(waits(
            home,
            ReflectFrame::GivenBack { object },
            Method::SetPrototypeOf(prototype),
            object,
        )),
        _ => Ok(value(x)),
    }
}

// A change was asked: it must be done, and the object is given back.
pub(crate) fn given_back(w: &mut World, home: Side, object: ObjId, done: bool) -> Result<Move, Halt>
    requires acts { Acts w.old home (HeldObject object ∷ []) }
    ensures part { (f : ℕ) → Part home result w.old w.new f f
        (given_back home.0 (object_in (names_of w.old) object) done finished) }
    ensures keeps { KeepsBy home AValue result w.old w.new }
{
    if !done {
        return type_error(w, home);
    }
    Ok(value(Value::Object(object)))
}

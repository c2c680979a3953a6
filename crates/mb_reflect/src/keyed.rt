// Members of Object and Reflect that ask a method with a key of their first argument (ECMA-262, 20.1.2, 28.1).
ghost use Rattle.std.specs.Prelude.{◌∷◌, ℕ};
ghost use Rattle.mb_call.specs.Ours.{Acts};
ghost use Rattle.mb_frames.specs.Held.{HeldKey, HeldObject, HeldValue};
ghost use Rattle.mb_frames.specs.Passing.{Part};
ghost use Rattle.mb_frames.specs.Ready.{KeepsBy};
ghost use Rattle.mb_frames.specs.Sorts.{AValue};
ghost use Rattle.mb_model.specs.Meaning.{finished};
ghost use Rattle.mb_reflect.specs.machine.Keyed.{keyed_held, keyed_rest, keyed_row};
ghost use Rattle.mb_world.specs.Image.{Resolve, key_in, names_of, object_in};

use crate::errors::type_error;
use crate::giving::{performs, waits};
use mb_base::{Key, ObjId, Side, Value};
use mb_call::todesc;
use mb_frames::{AfterDesc, Halt, Method, Move, ReflectFrame};
use mb_parts::key_from;
use mb_world::World;

/// A member that asks a method with a key.
#[derive(Clone, Copy)]
pub(crate) enum Keyed {
    /// Object.prototype.hasOwnProperty.
    HasOwn,
    /// getOwnPropertyDescriptor of Object and of Reflect.
    Describe,
    /// Reflect.deleteProperty.
    Delete,
    /// Reflect.has.
    Has,
    /// Reflect.get.
    Get(Value),
    /// Reflect.set.
    Set { value: Value, receiver: Value },
    /// Object.defineProperty.
    ObjectDefine(Value),
    /// Reflect.defineProperty.
    ReflectDefine(Value),
}

// The first argument must be an object, and the second a key.
pub(crate) fn ask_with_key(
    w: &mut World,
    home: Side,
    member: Keyed,
    x: Value,
    key: Value,
) -> Result<Move, Halt>
    requires acts { Acts w.old home (HeldValue x ∷ HeldValue key ∷ keyed_held member) }
    ensures part { (f : ℕ) → Part home result w.old w.new f f (keyed_row (names_of w.old) home.0 member
        (Resolve (names_of w.old) x) (Resolve (names_of w.old) key) finished) }
    ensures keeps { KeepsBy home AValue result w.old w.new }
{
    match x {
        Value::Object(object) => match key_from(w, key)? {
            Some(key) => asks_with_key(w, home, member, object, key),
            None => type_error(w, home),
        },
        _ => type_error(w, home),
    }
}

// The object is asked, or the descriptor is read first.
fn asks_with_key(
    w: &mut World,
    home: Side,
    member: Keyed,
    object: ObjId,
    key: Key,
) -> Result<Move, Halt>
    requires acts { Acts w.old home (HeldObject object ∷ HeldKey key ∷ keyed_held member) }
    ensures part { (f : ℕ) → Part home result w.old w.new f f (keyed_rest (names_of w.old) home.0 member
        (object_in (names_of w.old) object) (key_in (names_of w.old) key) finished) }
    ensures keeps { KeepsBy home AValue result w.old w.new }
{
    match member {
        Keyed::HasOwn => Ok(waits(
            home,
            ReflectFrame::HasOwn,
            Method::GetOwnProperty(key),
            object,
        )),
        Keyed::Describe => Ok(waits(
            home,
            ReflectFrame::Described,
            Method::GetOwnProperty(key),
            object,
        )),
        Keyed::Delete => Ok(waits(home, ReflectFrame::Truth, Method::Delete(key), object)),
        Keyed::Has => Ok(waits(home, ReflectFrame::Truth, Method::HasProperty(key), object)),
        Keyed::Get(receiver) => Ok(performs(home, Method::Get { key, receiver }, object)),
        Keyed::Set { value, receiver } => Ok(waits(
            home,
            ReflectFrame::Truth,
            Method::Set {
                key,
                value,
                receiver,
            },
            object,
        )),
        Keyed::ObjectDefine(attributes) => {
            todesc(w, home, attributes, AfterDesc::ObjectDefine { object, key })
        }
        Keyed::ReflectDefine(attributes) => {
            todesc(
                w,
                home,
                attributes,
                AfterDesc::ReflectDefine { object, key },
            )
        }
    }
}

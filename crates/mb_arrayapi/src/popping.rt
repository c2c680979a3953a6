// pop (ECMA-262, 23.1.3.22).
ghost use Rattle.std.specs.Prelude.{◌∷◌, [], ℕ};
ghost use Rattle.mb_arrayapi.specs.machine.Writing.{popped};
ghost use Rattle.mb_call.specs.Ours.{Acts};
ghost use Rattle.mb_frames.specs.Held.{HeldObject, HeldValue};
ghost use Rattle.mb_frames.specs.Passing.{Part};
ghost use Rattle.mb_frames.specs.Ready.{KeepsBy};
ghost use Rattle.mb_frames.specs.Sorts.{AValue};
ghost use Rattle.mb_model.specs.BuiltIns.ArrayMembers.{pop_deleted, pop_from, pop_got};
ghost use Rattle.mb_model.specs.Meaning.{finished};
ghost use Rattle.mb_model.specs.Task.{Value as ValueAnswer};
ghost use Rattle.mb_model.specs.Writing.{◌>>=◌ as after_that, give, unless_type_error};
ghost use Rattle.mb_world.specs.Image.{Resolve, names_of, object_in};

use crate::errors::type_error;
use crate::giving::{value, waits};
use crate::keys::{index_key, length_key, place_value};
use mb_base::{ObjId, Side, Value};
use mb_frames::{ArrayFrame, Halt, Method, Move};
use mb_world::World;

// It has the length: the last element is got, if there is one.
pub(crate) fn pop(w: &mut World, home: Side, object: ObjId, length: u64) -> Result<Move, Halt>
    requires acts { Acts w.old home (HeldObject object ∷ []) }
    ensures part { (f : ℕ) → Part home result w.old w.new f f
        (pop_from home.0 (object_in (names_of w.old) object) length finished) }
    ensures keeps { KeepsBy home AValue result w.old w.new }
{
    if length == 0 {
        return pop_length(w, home, object, 0, Value::Undefined);
    }
    let place = length - 1;
    let key = index_key(w, place)?;
    let receiver = Value::Object(object);
    Ok(waits(
        home,
        ArrayFrame::PopGot { object, place },
        Method::Get { key, receiver },
        object,
    ))
}

// The last element was got: it is deleted.
pub(crate) fn pop_got(
    w: &mut World,
    home: Side,
    object: ObjId,
    place: u64,
    x: Value,
) -> Result<Move, Halt>
    requires acts { Acts w.old home (HeldValue x ∷ HeldObject object ∷ []) }
    ensures part { (f : ℕ) → Part home result w.old w.new f f
        (pop_got home.0 (object_in (names_of w.old) object) place (Resolve (names_of w.old) x) finished) }
    ensures keeps { KeepsBy home AValue result w.old w.new }
{
    let key = index_key(w, place)?;
    Ok(waits(
        home,
        ArrayFrame::PopDeleted {
            object,
            place,
            value: x,
        },
        Method::Delete(key),
        object,
    ))
}

// It was deleted: the length is set.
pub(crate) fn pop_deleted(
    w: &mut World,
    home: Side,
    object: ObjId,
    place: u64,
    x: Value,
    done: bool,
) -> Result<Move, Halt>
    requires acts { Acts w.old home (HeldObject object ∷ HeldValue x ∷ []) }
    ensures part { (f : ℕ) → Part home result w.old w.new f f
        (pop_deleted home.0 (object_in (names_of w.old) object) place (Resolve (names_of w.old) x) done finished) }
    ensures keeps { KeepsBy home AValue result w.old w.new }
{
    if !done {
        return type_error(w, home);
    }
    pop_length(w, home, object, place, x)
}

// The length is set, and then x is given.
fn pop_length(w: &mut World, home: Side, object: ObjId, length: u64, x: Value) -> Result<Move, Halt>
    requires acts { Acts w.old home (HeldObject object ∷ HeldValue x ∷ []) }
    ensures part { (f : ℕ) → Part home result w.old w.new f f
        (popped home.0 (object_in (names_of w.old) object) length (Resolve (names_of w.old) x) finished) }
    ensures keeps { KeepsBy home AValue result w.old w.new }
{
    let key = length_key(w)?;
    let whole = place_value(length)?;
    let receiver = Value::Object(object);
    Ok(waits(
        home,
        ArrayFrame::PopLength { value: x },
        Method::Set {
            key,
            value: whole,
            receiver,
        },
        object,
    ))
}

// The length was set: x is given.
pub(crate) fn pop_ended(w: &mut World, home: Side, x: Value, done: bool) -> Result<Move, Halt>
    requires acts { Acts w.old home (HeldValue x ∷ []) }
    ensures part { (f : ℕ) → Part home result w.old w.new f f (after_that (unless_type_error home.0 done)
        (λ b. give (ValueAnswer (Resolve (names_of w.old) x))) finished) }
    ensures keeps { KeepsBy home AValue result w.old w.new }
{
    if !done {
        return type_error(w, home);
    }
    Ok(value(x))
}

// push (ECMA-262, 23.1.3.23).
ghost use Rattle.std.specs.Prelude.{◌+◌, ◌∷◌, [], ℕ, drop};
ghost use Rattle.mb_call.specs.Ours.{Acts};
ghost use Rattle.mb_frames.specs.Held.{HeldObject, HeldValues};
ghost use Rattle.mb_frames.specs.Passing.{Part};
ghost use Rattle.mb_frames.specs.Ready.{KeepsBy};
ghost use Rattle.mb_frames.specs.Resolved.{values_in};
ghost use Rattle.mb_frames.specs.Rest.Arraying.{push_from};
ghost use Rattle.mb_frames.specs.Sorts.{AValue};
ghost use Rattle.mb_model.specs.BuiltIns.ArrayMembers.{push_each};
ghost use Rattle.mb_model.specs.BuiltIns.Arrays.{place_value};
ghost use Rattle.mb_model.specs.Meaning.{finished};
ghost use Rattle.mb_model.specs.Task.{Value as ValueAnswer};
ghost use Rattle.mb_model.specs.Writing.{◌>>=◌ as after_that, give, unless_type_error};
ghost use Rattle.mb_world.specs.Image.{names_of, object_in};

use crate::errors::type_error;
use crate::giving::{value, waits};
use crate::keys::{MOST, index_key, length_key, next_place, place_value};
use mb_base::{Fuel, ObjId, Side, Value};
use mb_frames::{ArrayFrame, Halt, Method, Move, Values};
use mb_world::World;

// It has the length, which the arguments must not bring past the greatest one.
pub(crate) fn push(
    w: &mut World,
    fuel: &mut Fuel,
    home: Side,
    object: ObjId,
    arguments: Values,
    length: u64,
) -> Result<Move, Halt>
    requires acts { Acts w.old home (HeldObject object ∷ HeldValues arguments ∷ []) }
    ensures part { Part home result w.old w.new fuel.old fuel.new (push_from home.0
        (object_in (names_of w.old) object) (values_in (names_of w.old) arguments) length finished) }
    ensures keeps { KeepsBy home AValue result w.old w.new }
{
    let count = arguments.len() as u64;
    if count > MOST || length > MOST - count {
        return type_error(w, home);
    }
    push_each(w, fuel, home, object, length, arguments, 0)
}

// The next argument is set at a place, a unit for each; behind the last one the length is set.
fn push_each(
    w: &mut World,
    fuel: &mut Fuel,
    home: Side,
    object: ObjId,
    place: u64,
    arguments: Values,
    next: u32,
) -> Result<Move, Halt>
    requires acts { Acts w.old home (HeldObject object ∷ HeldValues arguments ∷ []) }
    ensures part { Part home result w.old w.new fuel.old fuel.new (push_each home.0
        (object_in (names_of w.old) object) place (drop next (values_in (names_of w.old) arguments)) finished) }
    ensures keeps { KeepsBy home AValue result w.old w.new }
{
    match arguments.at(next as usize) {
        Some(x) => {
            if next == u32::MAX {
                return Err(Halt::NoMemory);
            }
            fuel.charge(1)?;
            let key = index_key(w, place)?;
            let receiver = Value::Object(object);
            Ok(waits(
                home,
                ArrayFrame::PushSet {
                    object,
                    place,
                    arguments,
                    next: next + 1,
                },
                Method::Set {
                    key,
                    value: x,
                    receiver,
                },
                object,
            ))
        }
        None => push_length(w, home, object, place),
    }
}

// An argument was set.
pub(crate) fn push_set(
    w: &mut World,
    fuel: &mut Fuel,
    home: Side,
    object: ObjId,
    place: u64,
    arguments: Values,
    next: u32,
    done: bool,
) -> Result<Move, Halt>
    requires acts { Acts w.old home (HeldObject object ∷ HeldValues arguments ∷ []) }
    ensures part { Part home result w.old w.new fuel.old fuel.new (after_that (unless_type_error home.0 done)
        (λ b. push_each home.0 (object_in (names_of w.old) object) (place + 1)
        (drop next (values_in (names_of w.old) arguments))) finished) }
    ensures keeps { KeepsBy home AValue result w.old w.new }
{
    if !done {
        return type_error(w, home);
    }
    let place = next_place(place)?;
    push_each(w, fuel, home, object, place, arguments, next)
}

// All arguments were set: the length is.
fn push_length(w: &mut World, home: Side, object: ObjId, length: u64) -> Result<Move, Halt>
    requires acts { Acts w.old home (HeldObject object ∷ []) }
    ensures part { (f : ℕ) → Part home result w.old w.new f f
        (push_each home.0 (object_in (names_of w.old) object) length [] finished) }
    ensures keeps { KeepsBy home AValue result w.old w.new }
{
    let key = length_key(w)?;
    let whole = place_value(length)?;
    let receiver = Value::Object(object);
    Ok(waits(
        home,
        ArrayFrame::PushLength { length },
        Method::Set {
            key,
            value: whole,
            receiver,
        },
        object,
    ))
}

// The length was set: it is given.
pub(crate) fn push_ended(w: &mut World, home: Side, length: u64, done: bool) -> Result<Move, Halt>
    requires acts { Acts w.old home [] }
    ensures part { (f : ℕ) → Part home result w.old w.new f f (after_that (unless_type_error home.0 done)
        (λ b. give (ValueAnswer (place_value length))) finished) }
    ensures keeps { KeepsBy home AValue result w.old w.new }
{
    if !done {
        return type_error(w, home);
    }
    let whole = place_value(length)?;
    Ok(value(whole))
}

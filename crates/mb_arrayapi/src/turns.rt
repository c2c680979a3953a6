// Loops over the elements of an object (ECMA-262, 23.1.3): each asks first whether an element is there.
ghost use Rattle.std.specs.Prelude.{◌≡◌, IfOk, OnErr, OnOk, ℕ};
ghost use Rattle.mb_call.specs.Ours.{Acts};
ghost use Rattle.mb_frames.specs.Passing.{Part, TextsGrew};
ghost use Rattle.mb_frames.specs.Ready.{KeepsBy};
ghost use Rattle.mb_frames.specs.Rest.Arraying.{turn_index};
ghost use Rattle.mb_frames.specs.Sorts.{AValue};
ghost use Rattle.mb_model.specs.Meaning.{finished};
ghost use Rattle.mb_world.specs.Arrays.{index_key};
ghost use Rattle.mb_world.specs.Ids.{KeyIn};
ghost use Rattle.mb_world.specs.Image.{key_in, names_of};
ghost use Rattle.mb_arrayapi.specs.machine.Turning.{elements_held, ended, rest_after, rest_of};
ghost use Rattle.mb_frames.specs.Holding.{turn_held};
ghost use Rattle.mb_frames.specs.declared.arrays.Turn.TheVariants as turn;

use crate::errors::type_error;
use crate::giving::{value, waits};
use crate::keys::{index_key, next_place};
use mb_base::{Fuel, Key, NoMemory, ObjId, Side, Value};
use mb_frames::{ArrayFrame, Callback, Halt, Method, Move, Turn};
use mb_world::World;

// The elements of an object that are left: the place of the next one, how many there are, and what is done with each.
#[derive(Clone, Copy)]
pub(crate) struct Elements {
    pub object: ObjId,
    pub place: u64,
    pub left: u64,
    pub turn: Turn,
}

// A unit for each element that is left, and whether it is there.
pub(crate) fn turns_from(
    w: &mut World,
    fuel: &mut Fuel,
    home: Side,
    at: Elements,
) -> Result<Move, Halt>
    requires acts { Acts w.old home (elements_held at) }
    ensures part { Part home result w.old w.new fuel.old fuel.new (rest_of (names_of w.old) home.0 at finished) }
    ensures keeps { KeepsBy home AValue result w.old w.new }
{
    if at.left == 0 {
        return turns_end(w, home, at.turn);
    }
    fuel.charge(1)?;
    let key = element_key(w, at.turn, at.place)?;
    let left = at.left - 1;
    Ok(waits(
        home,
        ArrayFrame::There {
            object: at.object,
            place: at.place,
            left,
            turn: at.turn,
        },
        Method::HasProperty(key),
        at.object,
    ))
}

// The loop goes on behind the element at hand.
pub(crate) fn goes_on(
    w: &mut World,
    fuel: &mut Fuel,
    home: Side,
    at: Elements,
) -> Result<Move, Halt>
    requires acts { Acts w.old home (elements_held at) }
    ensures part { Part home result w.old w.new fuel.old fuel.new (rest_after (names_of w.old) home.0 at finished) }
    ensures keeps { KeepsBy home AValue result w.old w.new }
{
    let place = next_place(at.place)?;
    turns_from(w, fuel, home, Elements { place, ..at })
}

// No element is left.
fn turns_end(w: &mut World, home: Side, turn: Turn) -> Result<Move, Halt>
    requires acts { Acts w.old home (turn_held turn) }
    ensures part { (f : ℕ) → Part home result w.old w.new f f (ended (names_of w.old) home.0 turn finished) }
    ensures keeps { KeepsBy home AValue result w.old w.new }
{
    match turn {
        Turn::Call(callback) => calls_end(w, home, callback),
        Turn::IndexOf { .. } => Ok(value(Value::Whole(-1))),
        Turn::Slice { array, .. } => Ok(value(Value::Object(array))),
    }
}

// No element is left for which the function is called.
fn calls_end(w: &mut World, home: Side, callback: Callback) -> Result<Move, Halt>
    requires acts { Acts w.old home (turn_held (turn.Call callback)) }
    ensures part { (f : ℕ) → Part home result w.old w.new f f
        (ended (names_of w.old) home.0 (turn.Call callback) finished) }
    ensures keeps { KeepsBy home AValue result w.old w.new }
{
    match callback {
        Callback::ForEach { .. } => Ok(value(Value::Undefined)),
        Callback::Map { array, .. } => Ok(value(Value::Object(array))),
        Callback::Filter { array, .. } => Ok(value(Value::Object(array))),
        Callback::Reduce { so_far, .. } => match so_far {
            Some(x) => Ok(value(x)),
            None => type_error(w, home),
        },
    }
}

// The key of the element at a place: slice's begin behind the first one of all.
pub(crate) fn element_key(w: &mut World, turn: Turn, place: u64) -> Result<Key, NoMemory>
    ensures key { IfOk result (λ k. key_in (names_of w.new) k ≡ index_key (turn_index turn place)) }
    ensures within { IfOk result (KeyIn w.new) }
    ensures grew { OnOk result (TextsGrew w.old w.new) }
    ensures kept { OnErr result (w.new ≡ w.old) }
{
    match turn {
        Turn::Slice { from, .. } => index_key(w, from.checked_add(place).ok_or(NoMemory)?),
        _ => index_key(w, place),
    }
}

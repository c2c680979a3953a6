// An element of a loop is there or not, and is got (ECMA-262, 23.1.3).
ghost use Rattle.std.specs.Prelude.{◌≡◌, ◌∷◌, Some};
ghost use Rattle.mb_arrayapi.specs.machine.Turning.{elements_held};
ghost use Rattle.mb_call.specs.Ours.{Acts};
ghost use Rattle.mb_frames.specs.Held.{HeldValue};
ghost use Rattle.mb_frames.specs.Passing.{Part};
ghost use Rattle.mb_frames.specs.Ready.{KeepsBy};
ghost use Rattle.mb_frames.specs.Rest.Arraying.{turn_found, turn_index};
ghost use Rattle.mb_frames.specs.Sorts.{AValue};
ghost use Rattle.mb_frames.specs.declared.arrays.Turn.TheVariants as turn;
ghost use Rattle.mb_model.specs.BuiltIns.Arrays.{element_found};
ghost use Rattle.mb_model.specs.Meaning.{finished};
ghost use Rattle.mb_model.specs.Writing.{◌>>=◌ as after_that};
ghost use Rattle.mb_world.proofs.Values.{Apart};
ghost use Rattle.mb_world.specs.Ids.{ValueIn};
ghost use Rattle.mb_world.specs.Image.{Resolve, names_of, object_in};
ghost use Rattle.mb_world.specs.Value.{same_value};

use crate::calling::call_with;
use crate::giving::{value, waits};
use crate::keys::place_value;
use crate::storing::stored;
use crate::turns::{Elements, element_key, goes_on};
use mb_base::{Fuel, Side, Value};
use mb_frames::{ArrayFrame, Halt, Method, Move, Turn};
use mb_world::World;

// Whether the element is there: if so it is got, and a hole is passed over.
pub(crate) fn told(
    w: &mut World,
    fuel: &mut Fuel,
    home: Side,
    at: Elements,
    there: bool,
) -> Result<Move, Halt>
    requires acts { Acts w.old home (elements_held at) }
    ensures part { Part home result w.old w.new fuel.old fuel.new (after_that
        (element_found home.0 (object_in (names_of w.old) at.object) (turn_index at.turn at.place) there)
        (turn_found (names_of w.old) home.0 (object_in (names_of w.old) at.object) at.turn at.place at.left)
        finished) }
    ensures keeps { KeepsBy home AValue result w.old w.new }
{
    if !there {
        return goes_on(w, fuel, home, at);
    }
    let key = element_key(w, at.turn, at.place)?;
    let receiver = Value::Object(at.object);
    Ok(waits(
        home,
        ArrayFrame::Got {
            object: at.object,
            place: at.place,
            left: at.left,
            turn: at.turn,
        },
        Method::Get { key, receiver },
        at.object,
    ))
}

// The element was got.
pub(crate) fn element_got(
    w: &mut World,
    fuel: &mut Fuel,
    home: Side,
    at: Elements,
    x: Value,
) -> Result<Move, Halt>
    requires acts { Acts w.old home (HeldValue x ∷ elements_held at) }
    ensures part { Part home result w.old w.new fuel.old fuel.new (turn_found (names_of w.old) home.0
        (object_in (names_of w.old) at.object) at.turn at.place at.left (Some (Resolve (names_of w.old) x)) finished) }
    ensures keeps { KeepsBy home AValue result w.old w.new }
{
    match at.turn {
        Turn::Call(callback) => call_with(w, fuel, home, at, callback, x),
        Turn::IndexOf { value: wanted } => compared(w, fuel, home, at, x, wanted),
        Turn::Slice { array, .. } => stored(w, fuel, home, array, at.place, x, at),
    }
}

// indexOf (ECMA-262, 23.1.3.17): the element is the one that is looked for, or the loop goes on.
fn compared(
    w: &mut World,
    fuel: &mut Fuel,
    home: Side,
    at: Elements,
    x: Value,
    wanted: Value,
) -> Result<Move, Halt>
    requires acts { Acts w.old home (HeldValue x ∷ elements_held at) }
    requires turn { at.turn ≡ turn.IndexOf wanted }
    ensures part { Part home result w.old w.new fuel.old fuel.new (turn_found (names_of w.old) home.0
        (object_in (names_of w.old) at.object) at.turn at.place at.left (Some (Resolve (names_of w.old) x)) finished) }
    ensures keeps { KeepsBy home AValue result w.old w.new }
{
    if !equal(w, x, wanted) {
        return goes_on(w, fuel, home, at);
    }
    let whole = place_value(at.place)?;
    Ok(value(whole))
}

// IsStrictlyEqual (ECMA-262, 7.2.15).
fn equal(w: &World, a: Value, b: Value) -> bool
    requires left { ValueIn w.now a }
    requires right { ValueIn w.now b }
    requires apart { Apart (names_of w.now) a b }
    ensures { result ≡ same_value (Resolve (names_of w.now) a) (Resolve (names_of w.now) b) }
{
    let _texts = w.texts();
    a == b
}

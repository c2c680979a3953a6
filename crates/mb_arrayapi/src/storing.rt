// Elements that are stored in an array that a row made (ECMA-262, 7.3.5).
ghost use Rattle.std.specs.Prelude.{◌∷◌, []};
ghost use Rattle.mb_arrayapi.specs.machine.Turning.{elements_held, rest_after};
ghost use Rattle.mb_call.specs.Ours.{Acts};
ghost use Rattle.mb_parts.specs.Storing.{Stores};
ghost use Rattle.mb_frames.specs.Held.{HeldArray, HeldValue};
ghost use Rattle.mb_frames.specs.Keeping.{KeepsAnswer, none_held};
ghost use Rattle.mb_frames.specs.Passing.{Part};
ghost use Rattle.mb_frames.specs.Ready.{KeepsBy};
ghost use Rattle.mb_frames.specs.Sorts.{AValue};
ghost use Rattle.mb_model.specs.Meaning.{finished};
ghost use Rattle.mb_model.specs.Objects.Methods.{store_element};
ghost use Rattle.mb_model.specs.Writing.{◌>>=◌ as after_that};
ghost use Rattle.mb_world.specs.Image.{Resolve, names_of, object_in};

use crate::turns::{Elements, goes_on};
use mb_base::{Fuel, ObjId, Side, Value};
use mb_frames::{Halt, Move};
use mb_parts::store_element;
use mb_world::World;

// No array has an element at or behind this place.
const PAST_ALL: u64 = u32::MAX as u64;

// CreateDataProperty of an element, whatever it answers.
pub(crate) fn store(
    w: &mut World,
    home: Side,
    array: ObjId,
    place: u64,
    x: Value,
) -> Result<(), Halt>
    requires acts { Acts w.old home (HeldArray array ∷ HeldValue x ∷ []) }
    ensures stored { Stores result w.old w.new
        (store_element home.0 (object_in (names_of w.old) array) place (Resolve (names_of w.old) x)) }
    ensures keeps { KeepsAnswer home none_held result w.old w.new }
{
    if place >= PAST_ALL {
        return Err(Halt::NoMemory);
    }
    store_element(w, home, array, place as u32, x)
}

// The element at hand is stored, and the loop goes on behind it.
pub(crate) fn stored(
    w: &mut World,
    fuel: &mut Fuel,
    home: Side,
    array: ObjId,
    place: u64,
    x: Value,
    at: Elements,
) -> Result<Move, Halt>
    requires acts { Acts w.old home (HeldArray array ∷ HeldValue x ∷ elements_held at) }
    ensures part { Part home result w.old w.new fuel.old fuel.new (after_that
        (store_element home.0 (object_in (names_of w.old) array) place (Resolve (names_of w.old) x))
        (λ b. rest_after (names_of w.old) home.0 at) finished) }
    ensures keeps { KeepsBy home AValue result w.old w.new }
{
    store(w, home, array, place, x)?;
    goes_on(w, fuel, home, at)
}

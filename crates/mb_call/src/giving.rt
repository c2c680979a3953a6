// Moves that end the row of a method, and methods that are asked.
ghost use Rattle.std.specs.Prelude.{◌≡◌, ◌<◌, ◌∷◌, [], All, true};
ghost use Rattle.mb_base.specs.declared.value.Side.{Side as ASide};
ghost use Rattle.mb_frames.specs.Held.{AreIn, HeldKeys, HeldObject, HeldReal, HeldValue};
ghost use Rattle.mb_frames.specs.Holding.{method_held};
ghost use Rattle.mb_frames.specs.Ready.{Holds, Leaves};
ghost use Rattle.mb_frames.specs.Resolved.{keys_of, method_in, real_in};
ghost use Rattle.mb_frames.specs.Sorts.{AFlag, AProperty, AValue, IsAnswer, SomeKeys, Sort, method_gives};
ghost use Rattle.mb_frames.specs.Stepping.{Sure};
ghost use Rattle.mb_model.specs.Meaning.{finished};
ghost use Rattle.mb_model.specs.Task.{Keys, Prop};
ghost use Rattle.mb_model.specs.Writing.{answer, give, is_value, perform, yes_or_no};
ghost use Rattle.mb_world.specs.Data.{Data};
ghost use Rattle.mb_world.specs.Ids.{FullIn, KeyIn, Maybe, ValueIn};
ghost use Rattle.mb_world.specs.Image.{Resolve, names_of, object_in};

use mb_base::{Key, ObjId, Side, Value};
use mb_desc::Full;
use mb_frames::{Answer, Method, Move, Outcome, Task};
use mb_world::KeyList;

/// The row ends with a value, of the sort that it has.
pub fn value(x: Value) -> Move
    ensures sure { (home : ASide) (d : Data) → ValueIn d x →
        Sure home d (is_value (Resolve (names_of d) x) finished) result }
    ensures leaves { (home : ASide) (d : Data) → Holds d home (HeldValue x ∷ []) → Leaves d home AValue result }
    ensures leaves_as { (home : ASide) (d : Data) (wanted : Sort) → IsAnswer wanted (Answer.Value x) →
        Holds d home (HeldValue x ∷ []) → Leaves d home wanted result }
{
    Move::Done(Outcome::Normal(Answer::Value(x)))
}

/// The method answers yes or no.
pub fn yes_or_no(b: bool) -> Move
    ensures sure { (home : ASide) (d : Data) → Sure home d (yes_or_no b finished) result }
    ensures leaves { (home : ASide) (d : Data) → Leaves d home AFlag result }
{
    Move::Done(Outcome::Normal(Answer::Flag(b)))
}

/// The method answers with a property, or that there is none.
pub fn property(found: Option<Full<Value>>) -> Move
    ensures sure { (home : ASide) (d : Data) → Maybe (FullIn d) found →
        Sure home d (give (Prop (real_in (names_of d) found)) finished) result }
    ensures leaves { (home : ASide) (d : Data) → Holds d home (HeldReal found ∷ []) → Leaves d home AProperty result }
{
    Move::Done(Outcome::Normal(Answer::Prop(found)))
}

/// The method answers with keys.
pub fn keys(found: Vec<Key>) -> Move
    ensures sure { (home : ASide) (d : Data) → All (KeyIn d) found.items →
        Sure home d (give (Keys (keys_of (names_of d) found.items)) finished) result }
    ensures leaves { (home : ASide) (d : Data) → Holds d home (HeldKeys found.items ∷ []) →
        Leaves d home SomeKeys result }
{
    Move::Done(Outcome::Normal(Answer::Keys(KeyList::from(found))))
}

/// The row ends with a method of an object as that side sees it, which makes its entry where it is due.
pub fn performs(home: Side, method: Method, object: ObjId) -> Move
    ensures sure { (d : Data) → AreIn d (HeldObject object ∷ method_held object method) →
        Sure home d (answer (perform home.0 (method_in (names_of d) method) (object_in (names_of d) object)) finished)
        result }
    ensures leaves { (d : Data) → Holds d home (HeldObject object ∷ method_held object method) →
        Leaves d home (method_gives method) result }
{
    Move::Next(asks(home, method, object))
}

/// The task of a method of an object as that side sees it, which makes its entry where it is due.
pub fn asks(home: Side, method: Method, object: ObjId) -> Task
    ensures { result ≡ Task.Perform method object home true }
{
    Task::Perform {
        method,
        object,
        viewer: home,
        enters: true,
    }
}

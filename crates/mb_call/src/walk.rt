// The walk of setPrototypeOf (ECMA-262, 10.1.2.1): a step visits one object.
ghost use Rattle.std.specs.Prelude.{◌∷◌, [], ℕ, IsSomeAnd, Ok};
ghost use Rattle.mb_base.specs.declared.value.Side.{Side};
ghost use Rattle.mb_base.specs.declared.value.Value.TheVariants as TheValue;
ghost use Rattle.mb_frames.specs.Held.{AreIn, HeldObject, HeldPrototype};
ghost use Rattle.mb_frames.specs.Holding.{task_held};
ghost use Rattle.mb_frames.specs.Passing.{Part};
ghost use Rattle.mb_frames.specs.Ready.{KeepsBy};
ghost use Rattle.mb_frames.specs.Real.{IsReal};
ghost use Rattle.mb_frames.specs.Sorts.{AFlag};
ghost use Rattle.mb_frames.specs.Wholeness.{MayWalk};
ghost use Rattle.mb_frames.specs.declared.task.Method.TheVariants as TheMethod;
ghost use Rattle.mb_frames.specs.declared.task.Task.TheVariants as TheTask;
ghost use Rattle.mb_model.specs.Meaning.{finished};
ghost use Rattle.mb_model.specs.Objects.Methods.{prototype_set, walk_row};
ghost use Rattle.mb_ordinary.specs.Objects.{IsOrdinary};
ghost use Rattle.mb_world.specs.Data.{cell_at};
ghost use Rattle.mb_world.specs.Image.{Resolve, names_of, object_in};
ghost use Rattle.mb_call.specs.Ours.{Acts};
ghost use Rattle.mb_call.specs.Methods.{DoesMethod};
ghost use Rattle.mb_call.specs.machine.Walks.{Visits};

use crate::giving::yes_or_no;
use mb_base::{Fuel, ObjId, Value};
use mb_frames::{Halt, Move, Task};
use mb_ordinary::{Visit, proto_answer, visit};
use mb_world::World;

/// OrdinarySetPrototypeOf (ECMA-262, 10.1.2.1), as far as a step gets: the answer where it is clear at once, and else
/// the first visit of the walk, which costs a unit. `Spent` comes where that unit is not there; the world stays as it
/// was then.
pub fn set_prototype(
    w: &mut World,
    fuel: &mut Fuel,
    object: ObjId,
    given: Value,
) -> Result<Move, Halt>
    requires within { AreIn w.old (HeldObject object ∷ HeldPrototype given ∷ []) }
    requires ordinary { IsOrdinary (cell_at w.old object) }
    requires real { IsReal w.old given }
    ensures part { (home viewer : Side) → Acts w.old home (HeldObject object ∷ HeldPrototype given ∷ []) →
        DoesMethod home home viewer object (TheMethod.SetPrototypeOf given) result w.old w.new fuel.old fuel.new }
    ensures keeps { (home : Side) → Acts w.old home (HeldObject object ∷ HeldPrototype given ∷ []) →
        KeepsBy home AFlag result w.old w.new }
{
    match proto_answer(w, object, given) {
        Some(answer) => Ok(yes_or_no(answer)),
        None => walk_row(w, fuel, object, given, given),
    }
}

// The next object of the walk is visited, if it is one; else the walk is at its end.
pub(crate) fn walk_row(
    w: &mut World,
    fuel: &mut Fuel,
    object: ObjId,
    given: Value,
    next: Value,
) -> Result<Move, Halt>
    requires within { AreIn w.old (task_held (TheTask.Walk object given next)) }
    requires walks { IsSomeAnd (cell_at w.old object) MayWalk }
    requires real { IsReal w.old next }
    ensures part { (home : Side) → Acts w.old home (task_held (TheTask.Walk object given next)) →
        Part home result w.old w.new fuel.old fuel.new (walk_row (object_in (names_of w.old) object)
        (Resolve (names_of w.old) given) (Resolve (names_of w.old) next) finished) }
    ensures keeps { (home : Side) → Acts w.old home (task_held (TheTask.Walk object given next)) →
        KeepsBy home AFlag result w.old w.new }
{
    match next {
        Value::Object(x) => {
            fuel.charge(1)?;
            Ok(walk_at(w, object, given, x))
        }
        _ => Ok(prototype_set(w, object, given)),
    }
}

// One visit, which is paid.
fn walk_at(w: &mut World, object: ObjId, given: Value, x: ObjId) -> Move
    requires within { AreIn w.old (task_held (TheTask.Walk object given (TheValue.Object x))) }
    requires walks { IsSomeAnd (cell_at w.old object) MayWalk }
    requires real { IsReal w.old (TheValue.Object x) }
    ensures visited { (home : Side) → Acts w.old home (HeldObject object ∷ HeldPrototype given ∷ []) →
        (f : ℕ) → Visits home result w.old w.new f object given x }
    ensures keeps { (home : Side) → Acts w.old home (HeldObject object ∷ HeldPrototype given ∷ []) →
        KeepsBy home AFlag (Ok result) w.old w.new }
{
    match visit(w, object, x) {
        Visit::Meets => yes_or_no(false),
        Visit::Ends => prototype_set(w, object, given),
        Visit::Onward(next) => Move::Anew(Task::Walk {
            object,
            given,
            next,
        }),
    }
}

// The walk met no cycle.
fn prototype_set(w: &mut World, object: ObjId, given: Value) -> Move
    requires within { AreIn w.old (HeldObject object ∷ HeldPrototype given ∷ []) }
    requires walks { IsSomeAnd (cell_at w.old object) MayWalk }
    ensures part { (home : Side) → Acts w.old home (HeldObject object ∷ HeldPrototype given ∷ []) →
        (f : ℕ) → Part home (Ok result) w.old w.new f f
        (prototype_set (object_in (names_of w.old) object) (Resolve (names_of w.old) given) finished) }
    ensures keeps { (home : Side) → Acts w.old home (HeldObject object ∷ HeldPrototype given ∷ []) →
        KeepsBy home AFlag (Ok result) w.old w.new }
{
    w.set_proto(object, given);
    yes_or_no(true)
}

// Moves that give a value, and tasks that are done.
ghost use Rattle.std.specs.Prelude.{◌≡◌, true, [], ◌∷◌};
ghost use Rattle.mb_frames.specs.Stepping.{Sure};
ghost use Rattle.mb_model.specs.Meaning.{finished};
ghost use Rattle.mb_model.specs.Nodes.Evaluation.{task};
ghost use Rattle.mb_model.specs.Writing.{answer, is_value, perform, truth};
ghost use Rattle.mb_frames.specs.Resolved.{context_in, method_in};
ghost use Rattle.mb_world.specs.Data.{Data};
ghost use Rattle.mb_world.specs.Ids.{ObjIn, ValueIn};
ghost use Rattle.mb_world.specs.Image.{Resolve, names_of, object_in};
ghost use Rattle.mb_parts.specs.Standing.{ContextIn};
ghost use Rattle.mb_base.specs.declared.value.Side.{Side as ASide};
ghost use Rattle.mb_frames.specs.Held.{AreIn, HeldValue, HeldNode, HeldObject};
ghost use Rattle.mb_frames.specs.Holding.{method_held};
ghost use Rattle.mb_frames.specs.declared.task.Task.TheVariants as TheTask;
ghost use Rattle.mb_frames.specs.Sorts.{AValue, fits, method_gives};
ghost use Rattle.mb_frames.specs.Kinds.{is_expression};
ghost use Rattle.mb_eval_expr.specs.machine.Keeping.{Leaving, context_held};

use mb_base::{NodeId, ObjId, Side, Value};
use mb_frames::{Answer, Context, Method, Move, Outcome, Task};

// The row ends with a value.
pub(crate) fn value(x: Value) -> Move
    ensures row { (home : ASide) (d : Data) → ValueIn d x →
        Sure home d (is_value (Resolve (names_of d) x) finished) result }
    ensures leaves { (home : ASide) (d : Data) → Leaving home (HeldValue x ∷ []) result d }
{
    Move::Done(Outcome::Normal(Answer::Value(x)))
}

// The row ends with a truth value.
pub(crate) fn truth_value(b: bool) -> Move
    ensures row { (home : ASide) (d : Data) → Sure home d (truth b finished) result }
    ensures leaves { (home : ASide) (d : Data) → Leaving home [] result d }
{
    Move::Done(Outcome::Normal(Answer::Value(Value::Bool(b))))
}

// The row ends with a node.
pub(crate) fn evaluates(node: NodeId, at: Context) -> Move
    ensures row { (home : ASide) (d : Data) → ContextIn d at →
        Sure home d (answer (task (context_in (names_of d) home.0 at) node.0) finished) result }
    ensures leaves { (home : ASide) (d : Data) → Leaving home (HeldNode is_expression node.0 ∷ context_held at)
        result d }
{
    Move::Next(Task::Evaluate { node, at })
}

// The row ends with a method of an object.
pub(crate) fn performs(home: Side, method: Method, object: ObjId) -> Move
    ensures row { (d : Data) → ObjIn d object → AreIn d (method_held object method) →
        Sure home d (answer (perform home.0 (method_in (names_of d) method) (object_in (names_of d) object)) finished)
        result }
    ensures leaves { (d : Data) → fits (method_gives method) AValue ≡ true →
        Leaving home (HeldObject object ∷ method_held object method) result d }
{
    Move::Next(asks(home, method, object))
}

// A method of an object as that side sees it.
pub(crate) fn asks(home: Side, method: Method, object: ObjId) -> Task
    ensures { result ≡ TheTask.Perform method object home true }
{
    Task::Perform {
        method,
        object,
        viewer: home,
        enters: true,
    }
}

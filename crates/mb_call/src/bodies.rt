// Bodies of functions (ECMA-262, 10.2.1.4, 15.3.5).
ghost use Rattle.std.specs.Prelude.{◌≡◌, ◌∷◌, [], ℕ, drop, false, slice_get};
ghost use Rattle.mb_frames.specs.Held.{HeldNode, HeldScope, HeldValue};
ghost use Rattle.mb_frames.specs.Holding.{call_held, outcome_held};
ghost use Rattle.mb_frames.specs.Kinds.{is_function_form};
ghost use Rattle.mb_frames.specs.Passing.{Part};
ghost use Rattle.mb_frames.specs.Ready.{Holds, Leaves, LeavesBy};
ghost use Rattle.mb_frames.specs.Resolved.{context_in, outcome_in};
ghost use Rattle.mb_frames.specs.Rest.Parts.{body_at};
ghost use Rattle.mb_frames.specs.Sorts.{AValue};
ghost use Rattle.mb_frames.specs.Standing.{forms_at};
ghost use Rattle.mb_frames.specs.Stepping.{Sure};
ghost use Rattle.mb_frames.specs.declared.calls.CallFrame.TheVariants as TheFrame;
ghost use Rattle.mb_model.specs.Meaning.{finished};
ghost use Rattle.mb_model.specs.Nodes.Functions.{body, body_next, body_or_value};
ghost use Rattle.mb_world.specs.Image.{names_of};
ghost use Rattle.mb_call.specs.Ours.{Acts};
ghost use Rattle.mb_call.specs.machine.Functions.{has_block};

use crate::giving::value;
use crate::parts::body_part;
use mb_base::{NodeId, Side, Value};
use mb_frames::{CallFrame, Context, Frame, Halt, Move, Outcome, Task, after};
use mb_world::World;

// The statements of a body from that place on; behind the last one its value is undefined.
pub(crate) fn run_body(
    w: &World,
    home: Side,
    at: Context,
    node: NodeId,
    next: u32,
) -> Result<Move, Halt>
    requires acts { Acts w.now home (call_held (TheFrame.Statement at node next)) }
    ensures part { (f : ℕ) → Part home result w.now w.now f f (body (context_in (names_of w.now) home.0 at)
        (drop next (body_at (forms_at w.now home) node.0)) finished) }
    ensures leaves { LeavesBy w.now home AValue result }
{
    match body_part(w, home, node, next as usize) {
        Some(statement) => {
            let next = after(next as usize)?;
            Ok(Move::Wait(
                Frame::Call(CallFrame::Statement { at, node, next }),
                Task::Evaluate {
                    node: statement,
                    at,
                },
            ))
        }
        None => Ok(value(Value::Undefined)),
    }
}

// The expression that is an arrow function's body.
pub(crate) fn run_value(w: &World, home: Side, at: Context, node: NodeId) -> Move
    requires acts { Acts w.now home (HeldScope at.scope ∷ HeldValue at.this ∷ HeldNode is_function_form node.0 ∷ []) }
    requires expression { has_block (slice_get (forms_at w.now home) node.0) ≡ false }
    ensures sure { Sure home w.now (body_or_value (context_in (names_of w.now) home.0 at) false
        (body_at (forms_at w.now home) node.0) finished) result }
    ensures leaves { Leaves w.now home AValue result }
{
    match body_part(w, home, node, 0) {
        Some(expression) => Move::Wait(
            Frame::Call(CallFrame::ArrowValue),
            Task::Evaluate {
                node: expression,
                at,
            },
        ),
        None => value(Value::Undefined),
    }
}

// A statement of a body ended: `return` gives the function's value, and no jump leaves a body.
pub(crate) fn body_next(
    w: &World,
    home: Side,
    at: Context,
    node: NodeId,
    next: u32,
    outcome: Outcome,
) -> Result<Move, Halt>
    requires acts { Acts w.now home (call_held (TheFrame.Statement at node next)) }
    requires outcome { Holds w.now home (outcome_held outcome) }
    ensures part { (f : ℕ) → Part home result w.now w.now f f (body_next (body (context_in (names_of w.now) home.0 at)
        (drop next (body_at (forms_at w.now home) node.0))) (outcome_in (names_of w.now) outcome) finished) }
    ensures leaves { LeavesBy w.now home AValue result }
{
    match outcome {
        Outcome::Normal(_answer) => run_body(w, home, at, node, next),
        Outcome::Throw(x) => Ok(Move::Done(Outcome::Throw(x))),
        Outcome::Return(x) => Ok(value(x)),
        Outcome::Break => Ok(value(Value::Undefined)),
        Outcome::Continue => Ok(value(Value::Undefined)),
    }
}

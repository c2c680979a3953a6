// Choices: what is given, or which node goes on (ECMA-262, 13.13, 13.14, 13.5.7).
ghost use Rattle.std.specs.Prelude.{ℕ, Some, drop, not, [], ◌∷◌};
ghost use Rattle.mb_frames.specs.Stepping.{Sure};
ghost use Rattle.mb_frames.specs.Resolved.{context_in};
ghost use Rattle.mb_model.specs.Meaning.{finished};
ghost use Rattle.mb_model.specs.Nodes.Evaluation.{branch};
ghost use Rattle.mb_model.specs.Nodes.Invocations.{and_got, or_got, sequence};
ghost use Rattle.mb_model.specs.Writing.{truth as truth_row};
ghost use Rattle.mb_world.specs.Ids.{ValueIn};
ghost use Rattle.mb_world.specs.Image.{Resolve, names_of};
ghost use Rattle.mb_world.specs.Value.{to_boolean};
ghost use Rattle.mb_frames.specs.Rest.Parts.{parts_at};
ghost use Rattle.mb_frames.specs.Standing.{forms_at};
ghost use Rattle.mb_frames.specs.Passing.{Part};
ghost use Rattle.mb_parts.specs.Standing.{Acts, ContextIn};
ghost use Rattle.mb_frames.specs.Ready.{Keeps};
ghost use Rattle.mb_frames.specs.Sorts.{AValue};
ghost use Rattle.mb_frames.specs.Held.{HeldValue};
ghost use Rattle.mb_frames.specs.Holding.{expr_held};
ghost use Rattle.mb_eval_expr.specs.machine.Keeping.{Leaving};
ghost use Rattle.mb_frames.specs.declared.expressions.ExprFrame.TheVariants as TheFrame;

use crate::giving::{evaluates, truth_value, value};
use mb_base::{NodeId, Side, Value};
use mb_frames::{Context, ExprFrame, Frame, Halt, Move, Task, part_at};
use mb_parts::truth;
use mb_world::World;

// `||` has its left side.
pub(crate) fn or_got(w: &World, home: Side, at: Context, right: NodeId, x: Value) -> Move
    requires at { ContextIn w.now at }
    requires value { ValueIn w.now x }
    ensures row { Sure home w.now
        (or_got (context_in (names_of w.now) home.0 at) right.0 (Resolve (names_of w.now) x) finished) result }
    ensures leaves { Leaving home (HeldValue x ∷ expr_held (TheFrame.Or at right)) result w.now }
{
    if truth(w, x) {
        value(x)
    } else {
        evaluates(right, at)
    }
}

// `&&` has its left side.
pub(crate) fn and_got(w: &World, home: Side, at: Context, right: NodeId, x: Value) -> Move
    requires at { ContextIn w.now at }
    requires value { ValueIn w.now x }
    ensures row { Sure home w.now
        (and_got (context_in (names_of w.now) home.0 at) right.0 (Resolve (names_of w.now) x) finished) result }
    ensures leaves { Leaving home (HeldValue x ∷ expr_held (TheFrame.And at right)) result w.now }
{
    if truth(w, x) {
        evaluates(right, at)
    } else {
        value(x)
    }
}

// `? :` has its test.
pub(crate) fn cond_got(
    w: &World,
    home: Side,
    at: Context,
    main: NodeId,
    other: NodeId,
    x: Value,
) -> Move
    requires at { ContextIn w.now at }
    requires value { ValueIn w.now x }
    ensures row { Sure home w.now (branch (context_in (names_of w.now) home.0 at) main.0 (Some other.0)
        (to_boolean (Resolve (names_of w.now) x)) finished) result }
    ensures leaves { Leaving home (HeldValue x ∷ expr_held (TheFrame.Cond at main other)) result w.now }
{
    if truth(w, x) {
        evaluates(main, at)
    } else {
        evaluates(other, at)
    }
}

// `!` has its operand.
pub(crate) fn not_got(w: &World, home: Side, x: Value) -> Move
    requires { ValueIn w.now x }
    ensures row { Sure home w.now (truth_row (not (to_boolean (Resolve (names_of w.now) x))) finished) result }
    ensures leaves { Leaving home [] result w.now }
{
    truth_value(!truth(w, x))
}

// The next expression of several with commas between; the last gives the value (ECMA-262, 13.16).
pub(crate) fn seq_got(
    w: &World,
    home: Side,
    at: Context,
    node: NodeId,
    next: u32,
    x: Value,
) -> Result<Move, Halt>
    requires acts { Acts w.now home }
    requires at { ContextIn w.now at }
    requires value { ValueIn w.now x }
    ensures row { (f : ℕ) → Part home result w.now w.now f f (sequence (context_in (names_of w.now) home.0 at)
        (drop next (parts_at (forms_at w.now home) node.0)) (Resolve (names_of w.now) x) finished) }
    ensures keeps { Keeps home AValue (HeldValue x ∷ expr_held (TheFrame.Seq at node next)) result w.now w.now }
{
    match part_at(w, home, node, next as usize) {
        Some(part) => {
            if next == u32::MAX {
                return Err(Halt::NoMemory);
            }
            let next = next + 1;
            Ok(Move::Wait(
                Frame::Expr(ExprFrame::Seq { at, node, next }),
                Task::Evaluate { node: part, at },
            ))
        }
        None => Ok(value(x)),
    }
}

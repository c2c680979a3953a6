// Expressions that begin with one part, or with none, and change nothing.
ghost use Rattle.std.specs.Prelude.{◌≡◌, Some, slice_get, true};
ghost use Rattle.mb_base.specs.declared.value.Side.{Side as ASide};
ghost use Rattle.mb_tree.specs.Seen.{seen};
ghost use Rattle.mb_frames.specs.Resolved.{context_in};
ghost use Rattle.mb_frames.specs.Standing.{forms_at};
ghost use Rattle.mb_frames.specs.Stepping.{Sure};
ghost use Rattle.mb_model.specs.Meaning.{finished};
ghost use Rattle.mb_model.specs.Nodes.{node as node_form};
ghost use Rattle.mb_world.specs.Data.{Data};
ghost use Rattle.mb_world.specs.Image.{Resolve, names_of};
ghost use Rattle.mb_frames.specs.Told.{FormIn, told_at, IsNodeOf};
ghost use Rattle.mb_eval_expr.specs.machine.Plain.{is_plain};
ghost use Rattle.mb_parts.specs.Standing.{ContextIn};
ghost use Rattle.mb_frames.specs.Grammatical.{HasItsParts};
ghost use Rattle.mb_eval_expr.specs.machine.Keeping.{IsPlainValue, Leaving, context_held};
ghost use Rattle.mb_world.specs.FormOf.{literal};
ghost use Rattle.mb_world.specs.Ids.{ValueIn};
ghost use Rattle.mb_frames.specs.declared.frame.Frame.TheVariants as TheFrame;
ghost use Rattle.mb_frames.specs.declared.frame.Move.TheVariants as TheMove;
ghost use Rattle.mb_frames.specs.declared.task.Task.TheVariants as TheTask;

use crate::giving::{evaluates, value};
use mb_base::{NodeId, Value};
use mb_frames::{After, Context, ExprFrame, Frame, Move, Task};
use mb_tree::{Fixed, Form};

// An expression begins that has one part first, or none.
pub(crate) fn first(form: Form<'_>, node: NodeId, at: Context) -> Move
    requires { is_plain (seen form) ≡ true }
    ensures row { (home : ASide) (d : Data) → ContextIn d at → FormIn d (seen form.entry) →
        slice_get (forms_at d home) node.0 ≡ Some (told_at d home (seen form.entry)) →
        Sure home d (node_form (context_in (names_of d) home.0 at) node.0 (told_at d home (seen form.entry)) finished)
        result }
    ensures leaves { (home : ASide) (d : Data) → FormIn d (seen form.entry) →
        HasItsParts (IsNodeOf d home) (seen form.entry) →
        slice_get (forms_at d home) node.0 ≡ Some (told_at d home (seen form.entry)) →
        Leaving home (context_held at) result d }
{
    match form {
        Form::This => value(at.this),
        Form::Number { whole } => value(Value::Whole(whole)),
        Form::Text { text } => value(Value::Text(text)),
        Form::Literal { fixed } => value(literal(fixed)),
        Form::Group { inner } => evaluates(inner, at),
        Form::Cond {
            test,
            then,
            otherwise,
        } => {
            let frame = ExprFrame::Cond {
                at,
                main: then,
                other: otherwise,
            };
            waits(frame, test, at)
        }
        Form::Or { left, right } => waits(ExprFrame::Or { at, right }, left, at),
        Form::And { left, right } => waits(ExprFrame::And { at, right }, left, at),
        Form::Binary { sign, left, right } => waits(ExprFrame::Left { at, sign, right }, left, at),
        Form::Member { base, name } => {
            let after = After::Get;
            waits(ExprFrame::MemberBase { at, name, after }, base, at)
        }
        Form::Index { base, key } => {
            let after = After::Get;
            waits(ExprFrame::IndexBase { at, key, after }, base, at)
        }
        Form::New { callee, .. } => waits(ExprFrame::Constructor { at, node }, callee, at),
        _ => unreachable!(),
    }
}

// The value of a literal that is a word.
fn literal(fixed: Fixed) -> Value
    ensures value { (d : Data) → Resolve (names_of d) result ≡ literal fixed }
    ensures plain { IsPlainValue result }
    ensures within { (d : Data) → ValueIn d result }
{
    match fixed {
        Fixed::True => Value::Bool(true),
        Fixed::False => Value::Bool(false),
        Fixed::Null => Value::Null,
        Fixed::Undefined => Value::Undefined,
    }
}

// An expression waits for the value of a node.
fn waits(frame: ExprFrame, node: NodeId, at: Context) -> Move
    ensures { result ≡ TheMove.Wait (TheFrame.Expr frame) (TheTask.Evaluate node at) }
{
    Move::Wait(Frame::Expr(frame), Task::Evaluate { node, at })
}

// Statements that begin with one part, or with none.
ghost use Rattle.std.specs.Prelude.{◌≡◌, Some, slice_get, true};
ghost use Rattle.mb_base.specs.declared.value.Side.{Side};
ghost use Rattle.mb_tree.specs.Seen.{seen};
ghost use Rattle.mb_frames.specs.Resolved.{context_in};
ghost use Rattle.mb_frames.specs.Standing.{forms_at};
ghost use Rattle.mb_frames.specs.Stepping.{Sure};
ghost use Rattle.mb_model.specs.Meaning.{finished};
ghost use Rattle.mb_model.specs.Nodes.{node as node_form};
ghost use Rattle.mb_world.specs.Data.{Data};
ghost use Rattle.mb_world.specs.Image.{names_of};
ghost use Rattle.mb_frames.specs.Told.{told_at, IsNodeOf};
ghost use Rattle.mb_eval_stmt.specs.machine.Plain.{is_plain};
ghost use Rattle.mb_parts.specs.Standing.{ContextIn};
ghost use Rattle.mb_frames.specs.Grammatical.{HasItsParts};
ghost use Rattle.mb_frames.specs.Ready.{Holds, Leaves};
ghost use Rattle.mb_frames.specs.Sorts.{ACompletion};
ghost use Rattle.mb_eval_stmt.specs.machine.Keeping.{context_held};

use mb_base::{NodeId, Value};
use mb_frames::{Answer, Context, Frame, Move, Outcome, StmtFrame, Task};
use mb_tree::Form;

// The row of a node that begins with one part, or with none; the function of a declaration was made as its block began.
pub(crate) fn first(form: Form<'_>, node: NodeId, at: Context) -> Move
    requires { is_plain (seen form) ≡ true }
    ensures row { (home : Side) (d : Data) → ContextIn d at →
        slice_get (forms_at d home) node.0 ≡ Some (told_at d home (seen form.entry)) →
        Sure home d (node_form (context_in (names_of d) home.0 at) node.0 (told_at d home (seen form.entry)) finished)
        result }
    ensures leaves { (home : Side) (d : Data) → Holds d home (context_held at) →
        slice_get (forms_at d home) node.0 ≡ Some (told_at d home (seen form.entry)) →
        HasItsParts (IsNodeOf d home) (seen form.entry) → Leaves d home ACompletion result }
{
    match form {
        Form::Decl { .. } => Move::Done(Outcome::Normal(Answer::Nothing)),
        Form::FunctionDecl { .. } => Move::Done(Outcome::Normal(Answer::Nothing)),
        Form::Empty => Move::Done(Outcome::Normal(Answer::Nothing)),
        Form::Param { .. } => Move::Done(Outcome::Normal(Answer::Nothing)),
        Form::Break => Move::Done(Outcome::Break),
        Form::Continue => Move::Done(Outcome::Continue),
        Form::Return { value: None } => Move::Done(Outcome::Return(Value::Undefined)),
        Form::Return { value: Some(value) } => Move::Wait(
            Frame::Stmt(StmtFrame::Return),
            Task::Evaluate { node: value, at },
        ),
        Form::ExprStmt { value } => Move::Wait(
            Frame::Stmt(StmtFrame::Expression),
            Task::Evaluate { node: value, at },
        ),
        Form::Throw { value } => Move::Wait(
            Frame::Stmt(StmtFrame::Throw),
            Task::Evaluate { node: value, at },
        ),
        Form::If {
            test,
            then,
            otherwise,
        } => Move::Wait(
            Frame::Stmt(StmtFrame::If {
                at,
                main: then,
                other: otherwise,
            }),
            Task::Evaluate { node: test, at },
        ),
        Form::While { test, body } => Move::Wait(
            Frame::Stmt(StmtFrame::WhileTest { at, node, body }),
            Task::Evaluate { node: test, at },
        ),
        Form::DoWhile { body, test } => Move::Wait(
            Frame::Stmt(StmtFrame::DoBody { at, node, test }),
            Task::Evaluate { node: body, at },
        ),
        Form::Try { block, .. } => Move::Wait(
            Frame::Stmt(StmtFrame::Try { at, node }),
            Task::Evaluate { node: block, at },
        ),
        _ => unreachable!(),
    }
}

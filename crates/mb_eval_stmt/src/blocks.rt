// Scripts and blocks (ECMA-262, 14.2, 16.1).
ghost use Rattle.std.specs.Prelude.{◌≡◌, ℕ, Bool, drop, ◌++◌, ◌∷◌, []};
ghost use Rattle.mb_frames.specs.Resolved.{context_in};
ghost use Rattle.mb_frames.specs.Rest.Parts.{parts_at};
ghost use Rattle.mb_frames.specs.Standing.{forms_at};
ghost use Rattle.mb_frames.specs.Stepping.{Step, Written};
ghost use Rattle.mb_model.specs.Meaning.{finished};
ghost use Rattle.mb_model.specs.Nodes.Statements.{run_each, run_scoped};
ghost use Rattle.mb_world.specs.Image.{names_of};
ghost use Rattle.mb_frames.specs.Running.{CanRun};
ghost use Rattle.mb_frames.specs.Making.{HasPrototypes};
ghost use Rattle.mb_parts.specs.Standing.{ContextIn};
ghost use Rattle.mb_frames.specs.Held.{HeldNode};
ghost use Rattle.mb_frames.specs.Holding.{stmt_held};
ghost use Rattle.mb_frames.specs.Kinds.{is_list_form};
ghost use Rattle.mb_frames.specs.Ready.{Holds, Keeps, LeavesBy};
ghost use Rattle.mb_frames.specs.Sorts.{ACompletion};
ghost use Rattle.mb_frames.specs.declared.statements.StmtFrame.TheVariants as stmt;
ghost use Rattle.mb_eval_stmt.specs.machine.Keeping.{context_held};

use crate::functions::declare;
use crate::scopes::enter_scope;
use mb_base::{Fuel, NodeId, Side};
use mb_frames::{Answer, Context, Frame, Halt, Move, Outcome, StmtFrame, Task, after, part_at};
use mb_world::World;

// A script or a block begins: it enters its scope, and its functions are made first.
pub(crate) fn run_scoped(
    w: &mut World,
    fuel: &mut Fuel,
    home: Side,
    at: Context,
    node: NodeId,
) -> Result<Move, Halt>
    requires world { CanRun w.old home }
    requires built_ins { HasPrototypes w.old home }
    requires context { ContextIn w.old at }
    ensures row { (begun : Bool) (l : Written) → Step home begun result w.old w.new fuel.old fuel.new l l
        (run_scoped (context_in (names_of w.old) home.0 at) node.0 (parts_at (forms_at w.old home) node.0) finished) }
    ensures keeps { Keeps home ACompletion (context_held at ++ HeldNode is_list_form node.0 ∷ []) result w.old w.new }
{
    let scope = enter_scope(w, fuel, home, at.scope, node)?;
    declare(w, home, scope, node)?;
    run_each(w, home, Context { scope, ..at }, node, 0)
}

// The statements of a list from that place on.
pub(crate) fn run_each(
    w: &World,
    home: Side,
    at: Context,
    node: NodeId,
    next: u32,
) -> Result<Move, Halt>
    requires world { CanRun w.now home }
    requires context { ContextIn w.now at }
    ensures row { (begun : Bool) (f : ℕ) (l : Written) → Step home begun result w.now w.now f f l l
        (run_each (context_in (names_of w.now) home.0 at)
        (drop next (parts_at (forms_at w.now home) node.0)) finished) }
    ensures leaves { Holds w.now home (stmt_held (stmt.Each at node next)) →
        LeavesBy w.now home ACompletion result }
{
    match part_at(w, home, node, next as usize) {
        Some(part) => {
            let next = after(next as usize)?;
            Ok(Move::Wait(
                Frame::Stmt(StmtFrame::Each { at, node, next }),
                Task::Evaluate { node: part, at },
            ))
        }
        None => Ok(Move::Done(Outcome::Normal(Answer::Nothing))),
    }
}

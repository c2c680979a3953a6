// A statement that waits takes how its part ended.
ghost use Rattle.std.specs.Prelude.{◌≡◌, ℕ, true, ◌++◌, ◌∷◌, []};
ghost use Rattle.mb_frames.specs.Held.{AreIn, HeldValue};
ghost use Rattle.mb_frames.specs.Holding.{stmt_held, outcome_held};
ghost use Rattle.mb_frames.specs.Resolved.{outcome_in};
ghost use Rattle.mb_frames.specs.Rest.Statements.{stmt_rest};
ghost use Rattle.mb_frames.specs.Standing.{forms_at};
ghost use Rattle.mb_frames.specs.Stepping.{Step, Written};
ghost use Rattle.mb_model.specs.Meaning.{finished};
ghost use Rattle.mb_model.specs.Task as model;
ghost use Rattle.mb_model.specs.Writing.{value_in};
ghost use Rattle.mb_world.specs.Ids.{ValueIn};
ghost use Rattle.mb_world.specs.Image.{Resolve, names_of};
ghost use Rattle.mb_frames.specs.Running.{CanRun};
ghost use Rattle.mb_eval_stmt.specs.machine.Plain.{OutcomeIn, is_answered};
ghost use Rattle.mb_frames.specs.Ready.{Keeps};
ghost use Rattle.mb_frames.specs.Sorts.{ACompletion};

use crate::blocks::run_each;
use crate::declarations::declared;
use crate::fors::{for_again, for_body_ended, for_first_done, for_tested};
use crate::loops::{branch, do_ended, do_tested, while_ended, while_tested};
use crate::tries::{finally, finally_ended, try_ended};
use crate::values::value_of;
use mb_base::{Fuel, Side, Value};
use mb_frames::{Answer, Halt, Move, Outcome, StmtFrame};
use mb_parts::truth;
use mb_world::World;

// A statement takes how its part ended, whatever the outcome is.
pub(crate) fn resume(
    w: &mut World,
    fuel: &mut Fuel,
    home: Side,
    frame: StmtFrame,
    outcome: Outcome,
) -> Result<Move, Halt>
    requires world { CanRun w.old home }
    requires frame { AreIn w.old (stmt_held frame) }
    requires outcome { OutcomeIn w.old outcome }
    ensures row { (l : Written) → Step home true result w.old w.new fuel.old fuel.new l l
        (stmt_rest (names_of w.old) (forms_at w.old home) home.0 frame (outcome_in (names_of w.old) outcome) finished) }
    ensures keeps { Keeps home ACompletion (stmt_held frame ++ outcome_held outcome) result w.old w.new }
{
    match frame {
        StmtFrame::WhileBody { at, node } => Ok(while_ended(at, node, outcome)),
        StmtFrame::DoBody { at, node, test } => Ok(do_ended(at, node, test, outcome)),
        StmtFrame::ForBody { at, node } => for_body_ended(w, fuel, home, at, node, outcome),
        StmtFrame::Try { at, node } => try_ended(w, fuel, home, at, node, outcome),
        StmtFrame::Handler { at, ending } => Ok(finally(at, ending, outcome)),
        StmtFrame::Ending { outcome: before } => Ok(finally_ended(before, outcome)),
        frame => match outcome {
            Outcome::Normal(answer) => answered(w, fuel, home, frame, value_of(&answer)),
            Outcome::Throw(x) => Ok(Move::Done(Outcome::Throw(x))),
            Outcome::Return(x) => Ok(Move::Done(Outcome::Return(x))),
            Outcome::Break => Ok(Move::Done(Outcome::Break)),
            Outcome::Continue => Ok(Move::Done(Outcome::Continue)),
        },
    }
}

// A part gave an answer; x is its value.
fn answered(
    w: &mut World,
    fuel: &mut Fuel,
    home: Side,
    frame: StmtFrame,
    x: Value,
) -> Result<Move, Halt>
    requires world { CanRun w.old home }
    requires frame { AreIn w.old (stmt_held frame) }
    requires waits { is_answered frame ≡ true }
    requires value { ValueIn w.old x }
    ensures row { (answer : model.Answer) → value_in answer ≡ Resolve (names_of w.old) x →
        (l : Written) → Step home true result w.old w.new fuel.old fuel.new l l
        (stmt_rest (names_of w.old) (forms_at w.old home) home.0 frame (model.Normal answer) finished) }
    ensures keeps { Keeps home ACompletion (stmt_held frame ++ HeldValue x ∷ []) result w.old w.new }
{
    match frame {
        StmtFrame::Each { at, node, next } => run_each(w, home, at, node, next),
        StmtFrame::Declared {
            at,
            node,
            name,
            next,
        } => declared(w, home, at, node, name, next, x),
        StmtFrame::Expression => Ok(Move::Done(Outcome::Normal(Answer::Nothing))),
        StmtFrame::If { at, main, other } => Ok(branch(at, main, other, truth(w, x))),
        StmtFrame::WhileTest { at, node, body } => Ok(while_tested(at, node, body, truth(w, x))),
        StmtFrame::DoTest { at, node } => Ok(do_tested(at, node, truth(w, x))),
        StmtFrame::ForFirst { at, node } => for_first_done(w, fuel, home, at, node),
        StmtFrame::ForTest { at, node } => Ok(for_tested(w, home, at, node, truth(w, x))),
        StmtFrame::ForLast { at, node } => Ok(for_again(at, node)),
        StmtFrame::Return => Ok(Move::Done(Outcome::Return(x))),
        StmtFrame::Throw => Ok(Move::Done(Outcome::Throw(x))),
        _ => unreachable!(),
    }
}

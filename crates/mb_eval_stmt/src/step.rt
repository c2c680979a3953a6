// One step of a machine with a statement on top.
ghost use Rattle.std.specs.Prelude.{◌≡◌, ℕ, Bool, slice_get, true, ◌++◌};
ghost use Rattle.mb_frames.specs.Held.{AreIn};
ghost use Rattle.mb_frames.specs.Holding.{done_held, frame_held, task_held};
ghost use Rattle.mb_frames.specs.Resolved.{done_in, task_in};
ghost use Rattle.mb_frames.specs.Standing.{at_home, forms_at, row_of, under_way};
ghost use Rattle.mb_frames.specs.Stepping.{PutsNone, Step, Steps, Written, written};
ghost use Rattle.mb_frames.specs.declared.task.Task.TheVariants as t;
ghost use Rattle.mb_model.specs.Engine.{charged_row};
ghost use Rattle.mb_model.specs.Meaning.{row};
ghost use Rattle.mb_world.specs.Image.{names_of};
ghost use Rattle.mb_parts.specs.Top.{IsOnTop};
ghost use Rattle.mb_eval_stmt.specs.Ours.{IsStatementFrame, IsStatementTask, is_statement};
ghost use Rattle.mb_frames.specs.Running.{CanRun};
ghost use Rattle.mb_frames.specs.Making.{HasPrototypes};
ghost use Rattle.mb_parts.specs.Standing.{ContextIn};
ghost use Rattle.mb_frames.specs.Ready.{IsReadyMachine, Keeps, ReadyAfter};
ghost use Rattle.mb_frames.specs.Sorts.{ACompletion};
ghost use Rattle.mb_frames.specs.Wholeness.{StaysFound, StepsKept};
ghost use Rattle.mb_eval_stmt.specs.machine.Keeping.{context_held};

use crate::blocks::run_scoped;
use crate::declarations::give_each;
use crate::first::first;
use crate::fors::{for_row, loop_row};
use crate::resuming::resume;
use mb_base::{Fuel, NodeId, Side};
use mb_frames::{Answer, Context, Frame, Halt, Lines, Machine, Move, Outcome, Task, form_at};
use mb_tree::Form;
use mb_world::World;

/// One step of the statement on top of a machine (ECMA-262, 14, 16.1): a node of a statement that begins, a loop that
/// goes round, or a statement that takes how its part ended. `Spent` comes exactly where its charges are above what is
/// left: a unit for a node that begins, and one for each name of a scope that is entered or copied. After a halt the
/// machine isn't used again.
pub fn step_stmt(
    m: &mut Machine,
    w: &mut World,
    fuel: &mut Fuel,
    lines: &mut Lines,
) -> Result<(), Halt>
    requires ready { IsReadyMachine w.old m.old }
    requires top { IsOnTop (λ y. IsStatementFrame w.old y.home y.frame) m.old.stack.items }
    ensures steps { Steps result m.old m.new w.old w.new fuel.old fuel.new (written lines.old) (written lines.new) }
    ensures ready { ReadyAfter result w.new m.new }
    ensures kept { StepsKept result m.old m.new w.old w.new }
    ensures found { StaysFound w.old w.new }
{
    match m.pop() {
        Some(top) => {
            let done = m.done.take();
            let step = take(w, fuel, top.home, top.frame, done)?;
            m.make(top.home, step)?;
            Ok(())
        }
        None => unreachable!(),
    }
}

// A frame takes the outcome that is there.
fn take(
    w: &mut World,
    fuel: &mut Fuel,
    home: Side,
    frame: Frame,
    done: Option<Outcome>,
) -> Result<Move, Halt>
    requires world { CanRun w.old home }
    requires built_ins { HasPrototypes w.old home }
    requires frame { AreIn w.old (frame_held frame) }
    requires done { AreIn w.old (done_held done) }
    requires ours { IsStatementFrame w.old home frame }
    ensures step { (l : Written) → Step home (under_way frame) result w.old w.new fuel.old fuel.new l l
        (row_of w.old (at_home home frame) done) }
    ensures puts_none { PutsNone result }
    ensures keeps { Keeps home ACompletion (frame_held frame ++ done_held done) result w.old w.new }
{
    match frame {
        Frame::Begin(task) => {
            fuel.charge(1)?;
            start(w, fuel, home, task)
        }
        Frame::Anew(task) => start(w, fuel, home, task),
        Frame::Stmt(frame) => match done {
            Some(outcome) => resume(w, fuel, home, frame, outcome),
            None => resume(w, fuel, home, frame, Outcome::Normal(Answer::Nothing)),
        },
        _ => unreachable!(),
    }
}

// The row of a task starts.
fn start(w: &mut World, fuel: &mut Fuel, home: Side, task: Task) -> Result<Move, Halt>
    requires world { CanRun w.old home }
    requires built_ins { HasPrototypes w.old home }
    requires task { AreIn w.old (task_held task) }
    requires ours { IsStatementTask w.old home task }
    ensures row { (begun : Bool) (l : Written) → Step home begun result w.old w.new fuel.old fuel.new l l
        (row (task_in (names_of w.old) home.0 task)) }
    ensures keeps { Keeps home ACompletion (task_held task) result w.old w.new }
{
    match task {
        Task::Evaluate { node, at } => evaluate(w, fuel, home, node, at),
        Task::Loop { node, at } => Ok(loop_row(w, home, at, node)),
        _ => unreachable!(),
    }
}

// The row of a statement starts.
fn evaluate(
    w: &mut World,
    fuel: &mut Fuel,
    home: Side,
    node: NodeId,
    at: Context,
) -> Result<Move, Halt>
    requires world { CanRun w.old home }
    requires built_ins { HasPrototypes w.old home }
    requires context { ContextIn w.old at }
    requires statement { is_statement (slice_get (forms_at w.old home) node.0) ≡ true }
    ensures row { (begun : Bool) (l : Written) → Step home begun result w.old w.new fuel.old fuel.new l l
        (row (task_in (names_of w.old) home.0 (t.Evaluate node at))) }
    ensures keeps { Keeps home ACompletion (context_held at) result w.old w.new }
{
    match form_at(w, home, node) {
        Some(Form::Script { .. }) => run_scoped(w, fuel, home, at, node),
        Some(Form::Block { .. }) => run_scoped(w, fuel, home, at, node),
        Some(Form::Let { .. }) => give_each(w, home, at, node, 0),
        Some(Form::Const { .. }) => give_each(w, home, at, node, 0),
        Some(Form::For { first, .. }) => for_row(w, fuel, home, at, node, first),
        Some(form) => Ok(first(form, node, at)),
        None => unreachable!(),
    }
}

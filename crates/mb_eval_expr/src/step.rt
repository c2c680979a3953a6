// One step of a machine with an expression on top.
ghost use Rattle.std.specs.Prelude.{Bool, ◌++◌};
ghost use Rattle.mb_frames.specs.Held.{AreIn};
ghost use Rattle.mb_frames.specs.Holding.{done_held, frame_held, task_held};
ghost use Rattle.mb_frames.specs.Ready.{Holds, IsReady, IsReadyMachine, Keeps, ReadyAfter};
ghost use Rattle.mb_frames.specs.Resolved.{task_in};
ghost use Rattle.mb_frames.specs.Standing.{at_home, row_of, under_way};
ghost use Rattle.mb_frames.specs.Stepping.{PutsNone, Step, Steps, Written, written};
ghost use Rattle.mb_model.specs.Meaning.{row};
ghost use Rattle.mb_world.specs.Image.{names_of};
ghost use Rattle.mb_eval_expr.specs.Ours.{IsExpressionFrame, IsExpressionTask};
ghost use Rattle.mb_eval_expr.specs.machine.Resuming.{IsGiven};
ghost use Rattle.mb_parts.specs.Top.{IsOnTop};
ghost use Rattle.mb_parts.specs.Standing.{Acts};
ghost use Rattle.mb_frames.specs.Real.{HasRealNames};
ghost use Rattle.mb_frames.specs.Sorts.{AValue};
ghost use Rattle.mb_frames.specs.Wholeness.{StaysFound, StepsKept};

use crate::beginning::begin;
use crate::operators::chain;
use crate::resuming::resume;
use mb_base::{Fuel, Side};
use mb_frames::{Frame, Halt, Lines, Machine, Move, Outcome, Task};
use mb_world::World;
use std::alloc::Global;

/// One step of the expression on top of a machine: a node of an expression that begins, the next object of
/// `instanceof`, or an expression that takes how its part ended. `Spent` comes exactly where its charges are above what
/// is left.
pub fn step_expr(
    m: &mut Machine,
    w: &mut World,
    fuel: &mut Fuel,
    lines: &mut Lines,
) -> Result<(), Halt>
    requires ready { IsReadyMachine w.old m.old }
    requires top { IsOnTop (λ y. IsExpressionFrame w.old y.home y.frame) m.old.stack.items }
    ensures steps { Steps result m.old m.new w.old w.new fuel.old fuel.new (written lines.old) (written lines.new) }
    ensures ready { ReadyAfter result w.new m.new }
    ensures kept { StepsKept result m.old m.new w.old w.new }
    ensures found { StaysFound w.old w.new }
{
    match m.pop() {
        Some(top) => {
            let done = m.done.take();
            let alloc = *w.trace().allocator();
            let step = take(w, fuel, alloc, top.home, top.frame, done)?;
            m.make(top.home, step)?;
            Ok(())
        }
        None => unreachable!(),
    }
}

// A frame takes the outcome that is there.
fn take(
    w: &mut World,
    fuel: &mut Fuel,
    alloc: Global,
    home: Side,
    frame: Frame,
    done: Option<Outcome>,
) -> Result<Move, Halt>
    requires acts { Acts w.old home }
    requires real { HasRealNames w.old }
    requires ready { IsReady w.old }
    requires held { Holds w.old home (frame_held frame) }
    requires frame { AreIn w.old (frame_held frame) }
    requires done { AreIn w.old (done_held done) }
    requires ours { IsExpressionFrame w.old home frame }
    requires given { IsGiven w.old home frame done }
    ensures step { (l : Written) → Step home (under_way frame) result w.old w.new fuel.old fuel.new l l
        (row_of w.old (at_home home frame) done) }
    ensures puts_none { PutsNone result }
    ensures keeps { Keeps home AValue (frame_held frame ++ done_held done) result w.old w.new }
{
    match frame {
        Frame::Begin(task) => {
            fuel.charge(1)?;
            start(w, fuel, alloc, home, task)
        }
        Frame::Anew(task) => start(w, fuel, alloc, home, task),
        Frame::Expr(frame) => match done {
            Some(done) => match done {
                Outcome::Normal(answer) => resume(w, fuel, alloc, home, frame, answer),
                Outcome::Throw(x) => Ok(Move::Done(Outcome::Throw(x))),
                _ => unreachable!(),
            },
            None => unreachable!(),
        },
        _ => unreachable!(),
    }
}

// The row of a task starts.
fn start(
    w: &mut World,
    fuel: &mut Fuel,
    alloc: Global,
    home: Side,
    task: Task,
) -> Result<Move, Halt>
    requires acts { Acts w.old home }
    requires real { HasRealNames w.old }
    requires ready { IsReady w.old }
    requires held { Holds w.old home (task_held task) }
    requires task { AreIn w.old (task_held task) }
    requires ours { IsExpressionTask w.old home task }
    ensures row { (begun : Bool) (l : Written) → Step home begun result w.old w.new fuel.old fuel.new l l
        (row (task_in (names_of w.old) home.0 task)) }
    ensures keeps { Keeps home AValue (task_held task) result w.old w.new }
{
    match task {
        Task::Evaluate { node, at } => begin(w, fuel, alloc, home, node, at),
        Task::Chain { object, prototype } => Ok(chain(home, object, prototype)),
        _ => unreachable!(),
    }
}

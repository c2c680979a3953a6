// One step of a machine with a member of Object or Reflect, an error constructor or one of these that waits on top.
ghost use Rattle.std.specs.Prelude.{◌≡◌, ℕ, Bool, List, Some, is_some, true};
ghost use Rattle.mb_call.specs.Ours.{Acts};
ghost use Rattle.mb_frames.specs.Holding.{done_held, frame_held, task_held};
ghost use Rattle.mb_frames.specs.Ready.{Holds, IsReadyMachine, KeepsBy, ReadyAfter};
ghost use Rattle.mb_frames.specs.Resolved.{task_in};
ghost use Rattle.mb_frames.specs.Sorts.{Sort, frame_sort, task_gives};
ghost use Rattle.mb_frames.specs.Standing.{at_home, row_of, under_way};
ghost use Rattle.mb_frames.specs.Stepping.{PutsNone, Step, Steps, Written, written};
ghost use Rattle.mb_frames.specs.Wholeness.{StaysFound, StepsKept};
ghost use Rattle.mb_model.specs.Meaning.{row};
ghost use Rattle.mb_parts.specs.Top.{IsOnTop};
ghost use Rattle.mb_reflect.specs.Ours.{IsReflectFrame, IsReflectTask};
ghost use Rattle.mb_reflect.specs.machine.Running.{IsHanded};
ghost use Rattle.mb_world.specs.Form.{Form};
ghost use Rattle.mb_world.specs.Image.{names_of};

use crate::resuming::resume;
use crate::running::run;
use mb_base::{Fuel, Side};
use mb_frames::{Frame, Halt, Lines, Machine, Move, Outcome, Task};
use mb_world::World;

/// One step of Object, a member of Object or Reflect, an error constructor, `call` or `apply` on top of a machine: it
/// is entered, or takes how its part ended. No line is written. `Spent` comes exactly where its charges are above what
/// is left: a unit for entering it, and one for each key that it visits or lists. After a halt the machine isn't used
/// again.
pub fn step_reflect(
    m: &mut Machine,
    w: &mut World,
    fuel: &mut Fuel,
    lines: &mut Lines,
) -> Result<(), Halt>
    requires ready { IsReadyMachine w.old m.old }
    requires top { IsOnTop (λ y. IsReflectFrame y.frame) m.old.stack.items }
    ensures steps { Steps result m.old m.new w.old w.new fuel.old fuel.new (written lines.old) (written lines.new) }
    ensures ready { ReadyAfter result w.new m.new }
    ensures kept { StepsKept result m.old m.new w.old w.new }
    ensures found { StaysFound w.old w.new }
{
    match m.pop() {
        Some(top) => {
            let done = m.done.take();
            let step = take(w, fuel, top.home, top.frame, done)?;
            m.make(top.home, step)?;
            Ok(())
        }
        None => unreachable!(),
    }
}

// A frame takes the outcome that is there.
fn take(
    w: &mut World,
    fuel: &mut Fuel,
    home: Side,
    frame: Frame,
    done: Option<Outcome>,
) -> Result<Move, Halt>
    requires acts { Acts w.old home (frame_held frame) }
    requires done { Holds w.old home (done_held done) }
    requires ours { IsReflectFrame frame }
    requires handed { IsHanded frame done }
    ensures step { (l : Written) → Step home (under_way frame) result w.old w.new fuel.old fuel.new l l
        (row_of w.old (at_home home frame) done) }
    ensures puts_none { PutsNone result }
    ensures keeps { (fs : List Form) (sort : Sort) → KeepsBy home (frame_sort fs frame sort) result w.old w.new }
{
    match frame {
        Frame::Begin(task) => {
            fuel.charge(1)?;
            start(w, home, task)
        }
        Frame::Anew(task) => start(w, home, task),
        Frame::Reflect(frame) => resume(w, fuel, home, frame, ended(done)),
        _ => unreachable!(),
    }
}

// How what stood above ended.
fn ended(done: Option<Outcome>) -> Outcome
    requires { is_some done ≡ true }
    ensures { done ≡ Some result }
{
    match done {
        Some(outcome) => outcome,
        None => unreachable!(),
    }
}

// The row of a task.
fn start(w: &mut World, home: Side, task: Task) -> Result<Move, Halt>
    requires acts { Acts w.old home (task_held task) }
    requires ours { IsReflectTask task }
    ensures step { (begun : Bool) (f : ℕ) (l : Written) → Step home begun result w.old w.new f f l l
        (row (task_in (names_of w.old) home.0 task)) }
    ensures keeps { (fs : List Form) → KeepsBy home (task_gives fs task) result w.old w.new }
{
    match task {
        Task::Run {
            place,
            this,
            arguments,
            target,
        } => run(w, home, place, this, &arguments, target),
        _ => unreachable!(),
    }
}

// One step of a machine with a call on top.
ghost use Rattle.std.specs.Prelude.{◌≡◌, Bool, IfOk, Some, false, is_some, true};
ghost use Rattle.mb_frames.specs.Holding.{done_held, frame_held, task_held};
ghost use Rattle.mb_frames.specs.Ready.{IsReadyMachine, KeepsBy, ReadyAfter};
ghost use Rattle.mb_frames.specs.Resolved.{task_in};
ghost use Rattle.mb_frames.specs.Sorts.{Sort, task_gives};
ghost use Rattle.mb_frames.specs.Standing.{at_home, forms_at, row_of, under_way};
ghost use Rattle.mb_frames.specs.Stepping.{IsBegin, IsEntered, Step, Steps, Written, written};
ghost use Rattle.mb_frames.specs.Wholeness.{IsFitFrame, IsFitTask, StaysFound, StepsKept};
ghost use Rattle.mb_model.specs.Engine.{charged_row};
ghost use Rattle.mb_model.specs.Meaning.{row};
ghost use Rattle.mb_world.specs.Image.{names_of};
ghost use Rattle.mb_call.specs.Ours.{Acts, IsCallFrame, IsCallTask};
ghost use Rattle.mb_call.specs.machine.Acting.{acting_side, begun_side, task_side};
ghost use Rattle.mb_call.specs.Due.{is_due};
ghost use Rattle.mb_call.specs.machine.Noting.{KeepsFrame};
ghost use Rattle.mb_call.specs.machine.Resuming.{IsHanded};
ghost use Rattle.mb_parts.specs.Top.{IsOnTop};

use crate::acting::{acting_side, is_due};
use crate::entering::enter_row;
use crate::entries::{entered, note};
use crate::methods::perform;
use crate::resuming::resume;
use crate::walk::walk_row;
use mb_base::{Fuel, Side};
use mb_frames::{Frame, Halt, Lines, Machine, Move, Outcome, Task};
use mb_world::World;

/// One step of the call on top of a machine: a method of an object that is neither a script-made Proxy nor a membrane
/// proxy, the walk of setPrototypeOf, the entering of a function, one of these that takes how its part ended, or, in a
/// joined world, an entry whose method has ended. `Spent` comes exactly where its charges are above what is left.
pub fn step_call(
    m: &mut Machine,
    w: &mut World,
    fuel: &mut Fuel,
    lines: &mut Lines,
) -> Result<(), Halt>
    requires ready { IsReadyMachine w.old m.old }
    requires top { IsOnTop (λ y. IsCallFrame w.old y.frame) m.old.stack.items }
    ensures steps { Steps result m.old m.new w.old w.new fuel.old fuel.new (written lines.old) (written lines.new) }
    ensures ready { ReadyAfter result w.new m.new }
    ensures kept { StepsKept result m.old m.new w.old w.new }
    ensures found { StaysFound w.old w.new }
{
    match m.pop() {
        Some(top) => {
            let done = m.done.take();
            let side = acting_side(w, top.home, &top.frame);
            let step = take(w, fuel, lines, top.home, side, top.frame, done)?;
            m.make(side, step)?;
            Ok(())
        }
        None => unreachable!(),
    }
}

// A frame takes the outcome that is there.
fn take(
    w: &mut World,
    fuel: &mut Fuel,
    lines: &mut Lines,
    home: Side,
    side: Side,
    frame: Frame,
    done: Option<Outcome>,
) -> Result<Move, Halt>
    requires acts { Acts w.old home (frame_held frame) }
    requires done { Acts w.old home (done_held done) }
    requires ours { IsCallFrame w.old frame }
    requires fit { IsFitFrame w.old frame }
    requires handed { IsHanded frame done }
    requires side { side ≡ acting_side w.old home frame }
    ensures step { Step side (under_way frame) result w.old w.new fuel.old fuel.new (written lines.old)
        (written lines.new) (row_of w.old (at_home home frame) done) }
    ensures enters { IfOk result (λ m. IsEntered m → IsBegin frame) }
    ensures keeps { (sort : Sort) → KeepsFrame home side frame sort result w.old w.new }
{
    match frame {
        Frame::Begin(task) => begin(w, fuel, home, side, task),
        Frame::Begun(task) => {
            fuel.charge(1)?;
            start(w, fuel, home, side, task)
        }
        Frame::Anew(task) => start(w, fuel, home, side, task),
        Frame::Call(frame) => resume(w, fuel, home, frame, ended(done)),
        Frame::Entry(entering) => note(w, lines, home, entering, ended(done)),
        _ => unreachable!(),
    }
}

// How what stood above ended.
fn ended(done: Option<Outcome>) -> Outcome
    requires { is_some done ≡ true }
    ensures { done ≡ Some result }
{
    match done {
        Some(outcome) => outcome,
        None => unreachable!(),
    }
}

// A task begins: an entry is put below it where one is due, and else its unit is paid.
fn begin(w: &mut World, fuel: &mut Fuel, home: Side, side: Side, task: Task) -> Result<Move, Halt>
    requires acts { Acts w.old home (task_held task) }
    requires ours { IsCallTask w.old task }
    requires fit { IsFitTask w.old task }
    requires side { side ≡ begun_side (is_due w.old home task) w.old home task }
    ensures step { (l : Written) → Step side false result w.old w.new fuel.old fuel.new l l
        (charged_row row (task_in (names_of w.old) home.0 task)) }
    ensures keeps { KeepsBy side (task_gives (forms_at w.old home) task) result w.old w.new }
{
    if is_due(w, home, &task) {
        return entered(w, task);
    }
    fuel.charge(1)?;
    start(w, fuel, home, side, task)
}

// The row of a task that makes no entry starts.
fn start(w: &mut World, fuel: &mut Fuel, home: Side, side: Side, task: Task) -> Result<Move, Halt>
    requires acts { Acts w.old home (task_held task) }
    requires ours { IsCallTask w.old task }
    requires fit { IsFitTask w.old task }
    requires free { is_due w.old home task ≡ false }
    requires side { side ≡ task_side w.old home task }
    ensures step { (begun : Bool) (l : Written) → Step side begun result w.old w.new fuel.old fuel.new l l
        (row (task_in (names_of w.old) home.0 task)) }
    ensures keeps { KeepsBy side (task_gives (forms_at w.old home) task) result w.old w.new }
{
    match task {
        Task::Perform {
            method,
            object,
            viewer,
            ..
        } => perform(w, fuel, home, side, viewer, object, method),
        Task::Walk {
            object,
            given,
            next,
        } => walk_row(w, fuel, object, given, next),
        Task::Enter {
            function,
            this,
            arguments,
        } => enter_row(w, fuel, side, function, this, arguments),
        _ => unreachable!(),
    }
}

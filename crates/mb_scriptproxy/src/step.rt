// One step of a machine with a script-made Proxy on top.
ghost use Rattle.std.specs.Prelude.{◌≡◌, ◌∷◌, [], ℕ, Bool, IfOk, Some, false, is_some, true};
ghost use Rattle.mb_frames.specs.Held.{HeldValues};
ghost use Rattle.mb_frames.specs.Holding.{done_held, frame_held, task_held};
ghost use Rattle.mb_frames.specs.Passing.{Part};
ghost use Rattle.mb_frames.specs.Ready.{IsReadyMachine, KeepsBy, ReadyAfter};
ghost use Rattle.mb_frames.specs.Resolved.{task_in, values_in};
ghost use Rattle.mb_frames.specs.Sorts.{Sort, frame_sort, run_gives, task_gives};
ghost use Rattle.mb_frames.specs.Standing.{at_home, forms_at, row_of, under_way};
ghost use Rattle.mb_frames.specs.Stepping.{IsBegin, IsEntered, Step, Steps, Written, written};
ghost use Rattle.mb_frames.specs.Wholeness.{IsFitFrame, StaysFound, StepsKept};
ghost use Rattle.mb_model.specs.BuiltIns.{run_row};
ghost use Rattle.mb_model.specs.Engine.{charged_row};
ghost use Rattle.mb_model.specs.Meaning.{finished, row};
ghost use Rattle.mb_world.specs.Image.{Resolve, names_of};
ghost use Rattle.mb_world.specs.Intrinsics.{intrinsic};
ghost use Rattle.mb_world.specs.Objects.{intrinsic_is};
ghost use Rattle.mb_world.specs.Standard.{constructs};
ghost use Rattle.mb_world.specs.Value.{Val};
ghost use Rattle.mb_call.specs.Due.{is_due};
ghost use Rattle.mb_call.specs.Ours.{Acts};
ghost use Rattle.mb_parts.specs.Top.{IsOnTop};
ghost use Rattle.mb_scriptproxy.specs.Ours.{IsProxyFrame, IsProxyTask, makes_proxies};
ghost use Rattle.mb_scriptproxy.specs.machine.Acting.{acting_side, begun_side, task_side};
ghost use Rattle.mb_scriptproxy.specs.machine.Resuming.{IsHanded};

use crate::acting::acting_side;
use crate::making::{proxy_fn, revocable};
use crate::performing::perform;
use crate::resuming::resume;
use crate::revoking::revoke;
use mb_base::{Fuel, Side, Value};
use mb_call::{entered, is_due};
use mb_frames::{Frame, Halt, Lines, Machine, Move, Outcome, Task, Values};
use mb_world::World;

// The place of Proxy in the table of built-ins.
const PROXY: u16 = 6;

/// One step of a script-made Proxy on top of a machine: one of its methods, `Proxy` or `Proxy.revocable`, the function
/// that revokes one, or one of its methods that takes how its part ended. It crosses nothing. `Spent` comes exactly
/// where its unit is above what is left. After a halt the machine isn't used again.
pub fn step_scriptproxy(
    m: &mut Machine,
    w: &mut World,
    fuel: &mut Fuel,
    lines: &mut Lines,
) -> Result<(), Halt>
    requires ready { IsReadyMachine w.old m.old }
    requires top { IsOnTop (λ y. IsProxyFrame w.old y.frame) m.old.stack.items }
    ensures steps { Steps result m.old m.new w.old w.new fuel.old fuel.new (written lines.old) (written lines.new) }
    ensures ready { ReadyAfter result w.new m.new }
    ensures kept { StepsKept result m.old m.new w.old w.new }
    ensures found { StaysFound w.old w.new }
{
    match m.pop() {
        Some(top) => {
            let done = m.done.take();
            let side = acting_side(w, top.home, &top.frame, &done);
            let step = take(w, fuel, top.home, side, top.frame, done)?;
            m.make(side, step)?;
            Ok(())
        }
        None => unreachable!(),
    }
}

// A frame takes the outcome that is there.
fn take(
    w: &mut World,
    fuel: &mut Fuel,
    home: Side,
    side: Side,
    frame: Frame,
    done: Option<Outcome>,
) -> Result<Move, Halt>
    requires acts { Acts w.old home (frame_held frame) }
    requires done { Acts w.old home (done_held done) }
    requires ours { IsProxyFrame w.old frame }
    requires fit { IsFitFrame w.old frame }
    requires handed { IsHanded frame done }
    requires side { side ≡ acting_side w.old home frame done }
    ensures step { (l : Written) → Step side (under_way frame) result w.old w.new fuel.old fuel.new l l
        (row_of w.old (at_home home frame) done) }
    ensures enters { IfOk result (λ m. IsEntered m → IsBegin frame) }
    ensures keeps { (sort : Sort) → KeepsBy side (frame_sort (forms_at w.old home) frame sort) result w.old w.new }
{
    match frame {
        Frame::Begin(task) => begin(w, fuel, home, side, task),
        Frame::Begun(task) => {
            fuel.charge(1)?;
            start(w, home, side, task)
        }
        Frame::Anew(task) => start(w, home, side, task),
        Frame::Proxy(frame) => resume(w, home, frame, ended(done)),
        _ => unreachable!(),
    }
}

// How what stood above ended.
fn ended(done: Option<Outcome>) -> Outcome
    requires { is_some done ≡ true }
    ensures { done ≡ Some result }
{
    match done {
        Some(outcome) => outcome,
        None => unreachable!(),
    }
}

// A task begins: an entry is put below it where one is due, and else its unit is paid.
fn begin(w: &mut World, fuel: &mut Fuel, home: Side, side: Side, task: Task) -> Result<Move, Halt>
    requires acts { Acts w.old home (task_held task) }
    requires ours { IsProxyTask w.old task }
    requires side { side ≡ begun_side (is_due w.old home task) w.old home task }
    ensures step { (l : Written) → Step side false result w.old w.new fuel.old fuel.new l l
        (charged_row row (task_in (names_of w.old) home.0 task)) }
    ensures keeps { KeepsBy side (task_gives (forms_at w.old home) task) result w.old w.new }
{
    if is_due(w, home, &task) {
        return entered(w, task);
    }
    fuel.charge(1)?;
    start(w, home, side, task)
}

// The row of a task that makes no entry starts.
fn start(w: &mut World, home: Side, side: Side, task: Task) -> Result<Move, Halt>
    requires acts { Acts w.old home (task_held task) }
    requires ours { IsProxyTask w.old task }
    requires free { is_due w.old home task ≡ false }
    requires side { side ≡ task_side w.old home task }
    ensures part { (f : ℕ) → Part side result w.old w.new f f (row (task_in (names_of w.old) home.0 task)) }
    ensures keeps { KeepsBy side (task_gives (forms_at w.old home) task) result w.old w.new }
{
    match task {
        Task::Perform {
            method,
            object,
            viewer,
            ..
        } => perform(w, home, side, viewer, object, method),
        Task::Run {
            place,
            arguments,
            target,
            ..
        } => run(w, home, place, &arguments, target),
        Task::Enter { function, .. } => Ok(revoke(w, function)),
        _ => unreachable!(),
    }
}

// The row of a built-in, for which `this` doesn't matter.
fn run(
    w: &mut World,
    home: Side,
    place: u16,
    arguments: &Values,
    target: Value,
) -> Result<Move, Halt>
    requires acts { Acts w.old home (HeldValues arguments.now ∷ []) }
    requires ours { makes_proxies (intrinsic place) ≡ true }
    ensures part { (this : Val) (f : ℕ) → Part home result w.old w.new f f (run_row home.0 place this
        (values_in (names_of w.old) arguments.now) (Resolve (names_of w.old) target) finished) }
    ensures keeps { KeepsBy home (run_gives target (intrinsic_is constructs (intrinsic place))) result w.old w.new }
{
    match place {
        PROXY => proxy_fn(w, home, arguments, target),
        _ => revocable(w, home, arguments),
    }
}

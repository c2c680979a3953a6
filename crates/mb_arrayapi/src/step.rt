// One step of a machine with Array or one of its members on top.
ghost use Rattle.std.specs.Prelude.{◌≡◌, ◌∷◌, ℕ, Some, [], false, is_some, true};
ghost use Rattle.mb_arrayapi.specs.Ours.{IsArrayFrame, IsArrayTask, is_of_arrays};
ghost use Rattle.mb_arrayapi.specs.machine.Handing.{IsHanded};
ghost use Rattle.mb_arrayapi.specs.machine.Membering.{is_member};
ghost use Rattle.mb_call.specs.Ours.{Acts};
ghost use Rattle.mb_frames.specs.Held.{HeldValue, HeldValues};
ghost use Rattle.mb_frames.specs.Holding.{done_held, frame_held, task_held};
ghost use Rattle.mb_frames.specs.Ready.{IsReadyMachine, KeepsBy, ReadyAfter};
ghost use Rattle.mb_frames.specs.Resolved.{task_in, values_in};
ghost use Rattle.mb_frames.specs.Sorts.{AValue, Sort, frame_sort, run_gives, task_gives};
ghost use Rattle.mb_frames.specs.Standing.{at_home, forms_at, row_of, under_way};
ghost use Rattle.mb_frames.specs.Stepping.{PutsNone, Step, Steps, Written, written};
ghost use Rattle.mb_frames.specs.Passing.{Part};
ghost use Rattle.mb_frames.specs.Wholeness.{StaysFound, StepsKept};
ghost use Rattle.mb_model.specs.BuiltIns.{run_row};
ghost use Rattle.mb_model.specs.Meaning.{finished, row};
ghost use Rattle.mb_parts.specs.Top.{IsOnTop};
ghost use Rattle.mb_world.specs.Image.{Resolve, names_of};
ghost use Rattle.mb_world.specs.Intrinsics.{intrinsic};
ghost use Rattle.mb_world.specs.Objects.{intrinsic_is};
ghost use Rattle.mb_world.specs.Standard.{constructs};
ghost use Rattle.mb_world.specs.Value.{Val};

use crate::constructing::{array_row, is_array_row};
use crate::giving::value;
use crate::members::{argument, member_at, member_row};
use crate::places::{ARRAY, ARRAY_PROTOTYPE, IS_ARRAY};
use crate::resuming::resume;
use mb_base::{Fuel, Side, Value};
use mb_frames::{Frame, Halt, Lines, Machine, Move, Outcome, Task, Values};
use mb_world::World;

/// One step of Array, Array.isArray or a member of Array.prototype on top of a machine, which is entered or takes how
/// its part ended. No line is written. `Spent` comes exactly where its charges are above what is left. After a halt the
/// machine isn't used again.
pub fn step_arrayapi(
    m: &mut Machine,
    w: &mut World,
    fuel: &mut Fuel,
    lines: &mut Lines,
) -> Result<(), Halt>
    requires ready { IsReadyMachine w.old m.old }
    requires top { IsOnTop (λ y. IsArrayFrame y.frame) m.old.stack.items }
    ensures steps { Steps result m.old m.new w.old w.new fuel.old fuel.new (written lines.old) (written lines.new) }
    ensures ready { ReadyAfter result w.new m.new }
    ensures kept { StepsKept result m.old m.new w.old w.new }
    ensures found { StaysFound w.old w.new }
{
    match m.pop() {
        Some(top) => {
            let done = m.done.take();
            let step = take(w, fuel, top.home, top.frame, done)?;
            m.make(top.home, step)?;
            Ok(())
        }
        None => unreachable!(),
    }
}

// A frame takes the outcome that is there.
fn take(
    w: &mut World,
    fuel: &mut Fuel,
    home: Side,
    frame: Frame,
    done: Option<Outcome>,
) -> Result<Move, Halt>
    requires acts { Acts w.old home (frame_held frame) }
    requires done { Acts w.old home (done_held done) }
    requires ours { IsArrayFrame frame }
    requires handed { IsHanded frame done }
    ensures step { (l : Written) → Step home (under_way frame) result w.old w.new fuel.old fuel.new l l
        (row_of w.old (at_home home frame) done) }
    ensures puts_none { PutsNone result }
    ensures keeps { (sort : Sort) →
        KeepsBy home (frame_sort (forms_at w.old home) frame sort) result w.old w.new }
{
    match frame {
        Frame::Begin(task) => {
            fuel.charge(1)?;
            start(w, home, task)
        }
        Frame::Anew(task) => start(w, home, task),
        Frame::Array(frame) => resume(w, fuel, home, frame, ended(done)),
        _ => unreachable!(),
    }
}

// How what stood above ended.
fn ended(done: Option<Outcome>) -> Outcome
    requires { is_some done ≡ true }
    ensures { done ≡ Some result }
{
    match done {
        Some(outcome) => outcome,
        None => unreachable!(),
    }
}

// The row of a task.
fn start(w: &mut World, home: Side, task: Task) -> Result<Move, Halt>
    requires acts { Acts w.old home (task_held task) }
    requires ours { IsArrayTask task }
    ensures row { (f : ℕ) → Part home result w.old w.new f f (row (task_in (names_of w.old) home.0 task)) }
    ensures keeps { KeepsBy home (task_gives (forms_at w.old home) task) result w.old w.new }
{
    match task {
        Task::Run {
            place,
            this,
            arguments,
            target,
        } => run(w, home, place, this, arguments, target),
        _ => unreachable!(),
    }
}

// The row of a built-in; Array.prototype, which nothing calls, gives undefined.
#[tactic(auto, using(crate::proofs::TablePlaces::member_else))]
fn run(
    w: &mut World,
    home: Side,
    place: u16,
    this: Value,
    arguments: Values,
    target: Value,
) -> Result<Move, Halt>
    requires acts { Acts w.old home (HeldValue this ∷ HeldValues arguments ∷ HeldValue target ∷ []) }
    requires ours { is_of_arrays (intrinsic place) ≡ true }
    ensures row { (f : ℕ) → Part home result w.old w.new f f (run_row home.0 place
        (Resolve (names_of w.old) this) (values_in (names_of w.old) arguments) (Resolve (names_of w.old) target)
        finished) }
    ensures keeps { KeepsBy home (run_gives target (intrinsic_is constructs (intrinsic place))) result w.old w.new }
{
    match place {
        ARRAY => array_row(w, home, arguments, target),
        IS_ARRAY => is_array_row(w, home, argument(&arguments, 0)),
        ARRAY_PROTOTYPE => Ok(value(Value::Undefined)),
        _ => member(w, home, place, this, arguments),
    }
}

// A member of Array.prototype, which is no constructor.
fn member(
    w: &mut World,
    home: Side,
    place: u16,
    this: Value,
    arguments: Values,
) -> Result<Move, Halt>
    requires acts { Acts w.old home (HeldValue this ∷ HeldValues arguments ∷ []) }
    requires ours { is_member (intrinsic place) ≡ true }
    ensures row { (f : ℕ) (target : Val) → Part home result w.old w.new f f (run_row home.0 place
        (Resolve (names_of w.old) this) (values_in (names_of w.old) arguments) target finished) }
    ensures keeps { KeepsBy home AValue result w.old w.new }
    ensures calls { intrinsic_is constructs (intrinsic place) ≡ false }
{
    let member = member_at(place, arguments);
    member_row(w, home, this, member)
}

// One step of a machine with a basic built-in on top.
ghost use Rattle.std.specs.Prelude.{◌≡◌, ◌∷◌, Bool, Option, [], slice_get, true, unwrap_or};
ghost use Rattle.mb_base.specs.declared.value.Value.TheVariants as v;
ghost use Rattle.mb_frames.specs.Held.{HeldValues};
ghost use Rattle.mb_frames.specs.Holding.{frame_held, task_held};
ghost use Rattle.mb_frames.specs.Ready.{IsReadyMachine, KeepsBy, ReadyAfter};
ghost use Rattle.mb_frames.specs.Resolved.{task_in, values_in};
ghost use Rattle.mb_frames.specs.Sorts.{AValue};
ghost use Rattle.mb_frames.specs.Standing.{at_home, row_of, under_way};
ghost use Rattle.mb_frames.specs.Stepping.{PutsNone, Step, Steps, written};
ghost use Rattle.mb_frames.specs.Wholeness.{StaysFound, StepsKept};
ghost use Rattle.mb_frames.specs.declared.task.Outcome.{Outcome as AnOutcome};
ghost use Rattle.mb_intrinsics.specs.Ours.{IsBasicFrame, IsBasicTask, is_basic};
ghost use Rattle.mb_intrinsics.specs.machine.Acting.{Acting};
ghost use Rattle.mb_model.specs.BuiltIns.{run_row};
ghost use Rattle.mb_model.specs.Meaning.{finished, row};
ghost use Rattle.mb_parts.specs.Top.{IsOnTop};
ghost use Rattle.mb_world.specs.Image.{names_of};
ghost use Rattle.mb_world.specs.Intrinsics.{intrinsic};
ghost use Rattle.mb_world.specs.Value.{Val};

use crate::basics::{labelled, later, string, symbol};
use crate::places::{LABELLED, LATER, PRINT, STRING, SYMBOL};
use crate::printing::print;
use mb_base::{Fuel, Side, Value};
use mb_frames::{Frame, Halt, Lines, Machine, Move, Task, Values};
use mb_world::World;

/// One step of `print`, `later`, `labelled`, `String` or `Symbol` on top of a machine, which is entered and ends. The
/// line of `print` is the only one that is written. `Spent` comes exactly where its charges are above what is left: a
/// unit for entering it, and for each text of `print` one for 64 units of it. After a halt the machine isn't used
/// again.
pub fn step_intrinsic(
    m: &mut Machine,
    w: &mut World,
    fuel: &mut Fuel,
    lines: &mut Lines,
) -> Result<(), Halt>
    requires ready { IsReadyMachine w.old m.old }
    requires top { IsOnTop (λ y. IsBasicFrame y.frame) m.old.stack.items }
    ensures steps { Steps result m.old m.new w.old w.new fuel.old fuel.new (written lines.old) (written lines.new) }
    ensures ready { ReadyAfter result w.new m.new }
    ensures kept { StepsKept result m.old m.new w.old w.new }
    ensures found { StaysFound w.old w.new }
{
    match m.pop() {
        Some(top) => {
            let step = take(w, fuel, lines, top.home, top.frame)?;
            m.make(top.home, step)?;
            Ok(())
        }
        None => unreachable!(),
    }
}

// A built-in is entered.
fn take(
    w: &mut World,
    fuel: &mut Fuel,
    lines: &mut Lines,
    home: Side,
    frame: Frame,
) -> Result<Move, Halt>
    requires acting { Acting w.old home (frame_held frame) }
    requires ours { IsBasicFrame frame }
    ensures step { (done : Option AnOutcome) → Step home (under_way frame) result w.old w.new fuel.old fuel.new
        (written lines.old) (written lines.new) (row_of w.old (at_home home frame) done) }
    ensures puts_none { PutsNone result }
    ensures keeps { KeepsBy home AValue result w.old w.new }
{
    match frame {
        Frame::Begin(task) => {
            fuel.charge(1)?;
            start(w, fuel, lines, home, task)
        }
        Frame::Anew(task) => start(w, fuel, lines, home, task),
        _ => unreachable!(),
    }
}

// The row of a task.
fn start(
    w: &mut World,
    fuel: &mut Fuel,
    lines: &mut Lines,
    home: Side,
    task: Task,
) -> Result<Move, Halt>
    requires acting { Acting w.old home (task_held task) }
    requires ours { IsBasicTask task }
    ensures row { (begun : Bool) → Step home begun result w.old w.new fuel.old fuel.new (written lines.old)
        (written lines.new) (row (task_in (names_of w.old) home.0 task)) }
    ensures keeps { KeepsBy home AValue result w.old w.new }
{
    match task {
        Task::Run {
            place,
            arguments,
            ..
        } => run(w, fuel, lines, home, place, &arguments),
        _ => unreachable!(),
    }
}

// The row of a built-in, for which `this` and the new target don't matter.
#[tactic(auto, using(crate::proofs::Stepped::no_other_place))]
fn run(
    w: &mut World,
    fuel: &mut Fuel,
    lines: &mut Lines,
    home: Side,
    place: u16,
    arguments: &Values,
) -> Result<Move, Halt>
    requires acting { Acting w.old home (HeldValues arguments.now ∷ []) }
    requires ours { is_basic (intrinsic place) ≡ true }
    ensures row { (begun : Bool) (this target : Val) → Step home begun result w.old w.new fuel.old fuel.new
        (written lines.old) (written lines.new)
        (run_row home.0 place this (values_in (names_of w.old) arguments.now) target finished) }
    ensures keeps { KeepsBy home AValue result w.old w.new }
{
    match place {
        PRINT => print(w, fuel, lines, home, arguments),
        LATER => later(w, home, first(arguments)),
        LABELLED => labelled(w, home, first(arguments)),
        STRING => string(w, home, arguments),
        SYMBOL => symbol(w, home, first(arguments)),
        _ => unreachable!(),
    }
}

// The first argument, or undefined.
fn first(arguments: &Values) -> Value
    ensures { result ≡ unwrap_or (slice_get arguments.now 0) v.Undefined }
{
    match arguments.at(0) {
        Some(x) => x,
        None => Value::Undefined,
    }
}

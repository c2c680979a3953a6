// Turns that go round.
ghost use Rattle.std.specs.Prelude.{◌≡◌, ◌≢◌, ◌≤◌, IfOk, false, true};
ghost use Rattle.mb_engine.specs.Begun.{IsBegun};
ghost use Rattle.mb_model.specs.Story.{Stage};
ghost use Rattle.mb_story.specs.Running.{CountsFaults, Leaves};
ghost use Rattle.mb_story.specs.machine.Telling.{FallsBehind, HasJob, HasNoJobs, IsOver, IsUnderWay, Rounds, RoundsOver, Scene, Stands, scene};

use crate::ending::{Ending, RunFault};
use crate::style::Style;
use crate::turns::tell_turn;
use mb_base::{Fuel, Side};
use mb_engine::Driver;
use mb_outer::Sink;
use mb_world::World;

// Whether some side has a job.
fn has_jobs(w: &World) -> bool
    requires { w.now.sides ≤ 8 }
    ensures some { result ≡ true → HasJob w.now }
    ensures none { result ≡ false → HasNoJobs w.now w.now.sides }
{
    for side in 0..w.sides() {
        if !w.jobs(Side(side)).is_empty() {
            return true;
        }
    }
    false
}

// Whether no turn is to come.
fn is_over(w: &World, ending: Ending) -> bool
    requires { Leaves ending w.now }
    ensures over { result ≡ true → IsOver ending w.now }
    ensures going { result ≡ false → IsUnderWay ending w.now }
{
    if ending.is_spent() {
        return true;
    }
    !has_jobs(w)
}

// A turn of each side, up to one that is spent.
fn tell_round<K: Sink, D: Driver>(
    w: &mut World,
    fuel: &mut Fuel,
    style: Style,
    ending: Ending,
    sink: &mut K,
    driver: &mut D,
) -> Result<Ending, RunFault>
    requires begun { IsBegun w.old }
    requires running { w.old.halted ≡ false }
    requires unspent { ending ≢ Ending.Spent }
    requires jobs { HasJob w.old }
    ensures told { (start : Scene) (t : Stage) → Stands style start
        (scene w.old fuel.old (K.taken sink.old) (K.room sink.old) (D.ran driver.old)) ending t
        → Rounds style result start
        (scene w.new fuel.new (K.taken sink.new) (K.room sink.new) (D.ran driver.new)) t }
    ensures leaves { IfOk result (λ after. Leaves after w.new) }
    ensures falls { IfOk result (λ after. FallsBehind after w.old fuel.old w.new fuel.new) }
    ensures same { (w.new.joined ≡ w.old.joined) × (w.new.sides ≡ w.old.sides) }
    ensures faults { CountsFaults result (K.faults sink.old) (K.faults sink.new) }
{
    let mut after = ending;
    for side in 0..w.sides() {
        after = tell_turn(w, Side(side), fuel, style, after, sink, driver)?;
        if after.is_spent() {
            return Ok(after);
        }
    }
    Ok(after)
}

// Rounds until no side has a job.
pub(crate) fn tell_rounds<K: Sink, D: Driver>(
    w: &mut World,
    fuel: &mut Fuel,
    style: Style,
    ending: Ending,
    sink: &mut K,
    driver: &mut D,
) -> Result<Ending, RunFault>
    requires leaves { Leaves ending w.old }
    ensures told { (start : Scene) (t : Stage) → Stands style start
        (scene w.old fuel.old (K.taken sink.old) (K.room sink.old) (D.ran driver.old)) ending t
        → RoundsOver style result start
        (scene w.new fuel.new (K.taken sink.new) (K.room sink.new) (D.ran driver.new)) t }
    ensures leaves { IfOk result (λ after. Leaves after w.new) }
    ensures same { (w.new.joined ≡ w.old.joined) × (w.new.sides ≡ w.old.sides) }
    ensures faults { CountsFaults result (K.faults sink.old) (K.faults sink.new) }
{
    let mut after = ending;
    'rounds: while !is_over(w, after) {
        after = tell_round(w, fuel, style, after, sink, driver)?;
    }
    Ok(after)
}

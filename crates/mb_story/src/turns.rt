// A turn whose lines are put.
ghost use Rattle.std.specs.Prelude.{◌≡◌, ◌≢◌, ◌<◌, IfOk, false};
ghost use Rattle.mb_engine.specs.Begun.{IsBegun};
ghost use Rattle.mb_model.specs.Story.{Stage, one_turn};
ghost use Rattle.mb_story.specs.Running.{CountsFaults, Leaves};
ghost use Rattle.mb_story.specs.machine.Telling.{Falls, Gets, Scene, Stands, scene};

use crate::ending::{Ending, RunFault};
use crate::puts::put_lines;
use crate::style::Style;
use mb_base::{Fuel, Side};
use mb_engine::Driver;
use mb_frames::Lines;
use mb_outer::Sink;
use mb_world::World;

// Makes a turn of a side, and puts its lines. How the turns ended so far is `ending`, and then the answer.
pub(crate) fn tell_turn<K: Sink, D: Driver>(
    w: &mut World,
    side: Side,
    fuel: &mut Fuel,
    style: Style,
    ending: Ending,
    sink: &mut K,
    driver: &mut D,
) -> Result<Ending, RunFault>
    requires begun { IsBegun w.old }
    requires running { w.old.halted ≡ false }
    requires side { side.0 < w.old.sides }
    requires unspent { ending ≢ Ending.Spent }
    ensures told { (start : Scene) (t : Stage) → Stands style start
        (scene w.old fuel.old (K.taken sink.old) (K.room sink.old) (D.ran driver.old)) ending t
        → Gets style result start (scene w.new fuel.new (K.taken sink.new) (K.room sink.new) (D.ran driver.new))
        (one_turn t side.0) }
    ensures leaves { IfOk result (λ after. Leaves after w.new) }
    ensures falls { IfOk result (λ after. Falls side after w.old fuel.old w.new fuel.new) }
    ensures same { (w.new.joined ≡ w.old.joined) × (w.new.sides ≡ w.old.sides) }
    ensures faults { CountsFaults result (K.faults sink.old) (K.faults sink.new) }
{
    let mut lines = Lines {
        traced: style.traced,
        lettered: style.lettered,
        all: Vec::new(*w.trace().allocator()),
    };
    let end = driver.turn(w, side, fuel, &mut lines);
    match ending.after(end) {
        None => Err(RunFault::NoMemory),
        Some(after) => {
            put_lines(lines.all, sink)?;
            Ok(after)
        }
    }
}

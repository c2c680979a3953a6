// The turns of a schedule.
ghost use Rattle.std.specs.Prelude.{◌≡◌, IfOk, false, map};
ghost use Rattle.mb_engine.specs.Begun.{IsBegun};
ghost use Rattle.mb_model.specs.Story.{Stage, letters};
ghost use Rattle.mb_story.specs.Running.{CountsFaults, Leaves, NamesItsSides, letter_of};
ghost use Rattle.mb_story.specs.machine.Telling.{Gets, Scene, Stands, scene};

use crate::ending::{Ending, RunFault};
use crate::style::Style;
use crate::turns::tell_turn;
use mb_base::{Fuel, Side};
use mb_engine::Driver;
use mb_outer::Sink;
use mb_world::World;

/// A letter of a schedule.
#[derive(Clone, Copy, Debug, PartialEq, Eq)]
pub enum Letter {
    /// A turn of that side.
    Turn(Side),
}

impl Letter {
    // The side whose turn it is.
    fn side(self) -> Side
        ensures { self ≡ Letter.Turn result }
    {
        match self {
            Letter::Turn(side) => side,
        }
    }
}

// Follows a schedule up to its end, or to the turn that is spent.
pub(crate) fn tell_schedule<K: Sink, D: Driver>(
    w: &mut World,
    schedule: &[Letter],
    fuel: &mut Fuel,
    style: Style,
    sink: &mut K,
    driver: &mut D,
) -> Result<Ending, RunFault>
    requires begun { IsBegun w.old }
    requires running { w.old.halted ≡ false }
    requires sides { NamesItsSides w.old.sides schedule.now }
    ensures told { (start : Scene) (t : Stage) → Stands style start
        (scene w.old fuel.old (K.taken sink.old) (K.room sink.old) (D.ran driver.old)) Ending.Done t
        → Gets style result start (scene w.new fuel.new (K.taken sink.new) (K.room sink.new) (D.ran driver.new))
        (letters (map letter_of schedule.now) t) }
    ensures leaves { IfOk result (λ ending. Leaves ending w.new) }
    ensures same { (w.new.joined ≡ w.old.joined) × (w.new.sides ≡ w.old.sides) }
    ensures faults { CountsFaults result (K.faults sink.old) (K.faults sink.new) }
{
    let mut ending = Ending::Done;
    for letter in schedule {
        ending = tell_turn(w, letter.side(), fuel, style, ending, sink, driver)?;
        if ending.is_spent() {
            return Ok(ending);
        }
    }
    Ok(ending)
}

// The run of a story.
ghost use Rattle.std.specs.Prelude.{◌≡◌, ◌≢◌, Err, IfOk, false};
ghost use Rattle.mb_engine.specs.Begun.{IsBegun};
ghost use Rattle.mb_model.specs.Text.{Text_of};
ghost use Rattle.mb_story.specs.Running.{CountsFaults, HasRoom, IsPut, Leaves, NamesItsSides, OnStory, Receives, StandsAt, ending_of, halts, with_turns};
ghost use Rattle.mb_story.specs.machine.Telling.{Ends, scene};

use crate::ending::{Ending, RunFault};
use crate::puts::put_ending;
use crate::rounds::tell_rounds;
use crate::schedule::{Letter, tell_schedule};
use crate::style::Style;
use mb_base::Fuel;
use mb_engine::Driver;
use mb_outer::Sink;
use mb_world::World;

/// Runs the story of a world that has begun: makes the turns of the schedule, then a turn of each side in their order
/// until no side has a job, and puts each line with its line feed by one put after the turn that made it, and the last
/// line, which tells the ending, after the last turn. A turn that is spent is the last one.
///
/// The answer tells how the story ended, or why it broke off. After a spent turn and where it broke off the world is
/// halted.
pub fn run<K: Sink, D: Driver>(
    w: &mut World,
    schedule: &[Letter],
    fuel: &mut Fuel,
    style: Style,
    sink: &mut K,
    driver: &mut D,
) -> Result<Ending, RunFault>
    requires begun { IsBegun w.old }
    requires running { w.old.halted ≡ false }
    requires sides { NamesItsSides w.old.sides schedule.now }

    // the story of the world's scripts and rules
    ensures ending { OnStory w.old schedule.now fuel.old (λ story.
        IfOk result (λ ending. story.ending ≡ ending_of ending)) }
    ensures text { OnStory w.old schedule.now fuel.old (λ story.
        IsPut result (Receives (K.taken sink.old) (K.taken sink.new)) (Text_of style.traced style.lettered story)) }
    ensures world { OnStory w.old schedule.now fuel.old (λ story.
        IfOk result (λ ending. StandsAt w.new fuel.new story)) }
    ensures ran { OnStory w.old schedule.now fuel.old (λ story.
        IfOk result (λ ending. D.ran driver.new ≡ with_turns w.old.joined story.ran (D.ran driver.old))) }

    // the sink: its faults rise exactly where a put failed, and none fails where there is room for the text
    ensures faults { CountsFaults result (K.faults sink.old) (K.faults sink.new) }
    ensures room { OnStory w.old schedule.now fuel.old (λ story.
        HasRoom (K.room sink.old) (Text_of style.traced style.lettered story) → result ≢ Err RunFault.Write) }

    // the world after it
    ensures halted { w.new.halted ≡ halts result }
    ensures begun { halts result ≡ false → IsBegun w.new }
    ensures same { (w.new.joined ≡ w.old.joined) × (w.new.sides ≡ w.old.sides) }
{
    match tell(w, schedule, fuel, style, sink, driver) {
        Ok(ending) => Ok(ending),
        Err(fault) => {
            w.halt();
            Err(fault)
        }
    }
}

// Tells the whole text.
fn tell<K: Sink, D: Driver>(
    w: &mut World,
    schedule: &[Letter],
    fuel: &mut Fuel,
    style: Style,
    sink: &mut K,
    driver: &mut D,
) -> Result<Ending, RunFault>
    requires begun { IsBegun w.old }
    requires running { w.old.halted ≡ false }
    requires sides { NamesItsSides w.old.sides schedule.now }
    ensures told { OnStory w.old schedule.now fuel.old (λ story. Ends style result
        (scene w.old fuel.old (K.taken sink.old) (K.room sink.old) (D.ran driver.old))
        (scene w.new fuel.new (K.taken sink.new) (K.room sink.new) (D.ran driver.new)) story) }
    ensures leaves { IfOk result (λ ending. Leaves ending w.new) }
    ensures same { (w.new.joined ≡ w.old.joined) × (w.new.sides ≡ w.old.sides) }
    ensures faults { CountsFaults result (K.faults sink.old) (K.faults sink.new) }
{
    let scheduled = tell_schedule(w, schedule, fuel, style, sink, driver)?;
    let ended = tell_rounds(w, fuel, style, scheduled, sink, driver)?;
    put_ending(*w.trace().allocator(), ended, sink)?;
    Ok(ended)
}

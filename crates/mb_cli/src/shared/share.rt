// Two scripts of a library are read, and run on one graph.
ghost use Rattle.std.specs.Prelude.{◌≡◌, ◌≢◌, IsTrue, List, Option, Some, ℕ};
ghost use Rattle.mb_outer.specs.Shelf.{Shelf};
ghost use Rattle.mb_words.specs.declared.fault.WordsKind.{WordsKind};
ghost use Rattle.mb_story.specs.Running.{Receives};
ghost use Rattle.mb_world.specs.Data.{fresh};
ghost use Rattle.mb_cli.specs.Serving.{HasRoom, IsAnswer, IsFaultless, IsPut, IsTold, Leaves, OnRead, TellsFaults};
ghost use Rattle.mb_cli.specs.Tasks.{IsThere, left_of};
ghost use Rattle.mb_cli.specs.machine.Commands.{task_of_pair, task_of_sharing};
ghost use Rattle.mb_cli.specs.machine.Pairs.{AreRead};
ghost use Rattle.mb_cli.specs.machine.Runs.{IsOfRun, status_of_run};

use crate::shared::letters::letters;
use crate::shared::pair::read_pair;
use crate::status::Status;
use crate::words::Sharing;
use mb_base::Fuel;
use mb_engine::{Driver, begin};
use mb_outer::{Library, Sink};
use mb_story::{Ending, RunFault, Style, run};
use mb_text::Texts;
use mb_tree::Program;
use mb_world::{Rules, World};
use std::alloc::Global;

impl From<Ending> for Status {
    ghost use Rattle.std.specs.Prelude.{◌≡◌};
    ghost use Rattle.mb_cli.specs.machine.Runs.{of_ending};

    ghost from_gives = { λ ending status. status ≡ of_ending ending };

    fn from(ending: Ending) -> Status {
        match ending {
            Ending::Done => Status::Done,
            Ending::Uncaught => Status::Uncaught,
            Ending::Spent => Status::Spent,
        }
    }
}

impl From<RunFault> for Status {
    ghost use Rattle.std.specs.Prelude.{◌≡◌};
    ghost use Rattle.mb_cli.specs.machine.Runs.{of_fault};

    ghost from_gives = { λ fault status. status ≡ of_fault fault };

    fn from(fault: RunFault) -> Status {
        match fault {
            RunFault::Write => Status::WriteFault,
            RunFault::NoMemory => Status::NoMemory,
        }
    }
}

// How a run ended or broke off, as a status.
fn ended(answer: Result<Ending, RunFault>) -> Status
    ensures { result ≡ status_of_run answer }
{
    match answer {
        Ok(ending) => Status::from(ending),
        Err(fault) => Status::from(fault),
    }
}

// Runs two programs on one graph.
fn run_pair<K: Sink, D: Driver>(
    alloc: Global,
    sharing: &Sharing,
    texts: Texts,
    programs: Vec<Program>,
    sink: &mut K,
    world: &mut World,
    driver: &mut D,
) -> Status
    requires fresh { world.old ≡ fresh }
    requires read { (lefts rights : Option (List ℕ)) × AreRead texts lefts rights programs.items }
    ensures run { IsOfRun result }
    ensures answer { (lefts rights : Option (List ℕ)) → AreRead texts lefts rights programs.items
        → IsAnswer (task_of_pair lefts rights sharing.now) result }
    ensures text { (lefts rights : Option (List ℕ)) → AreRead texts lefts rights programs.items
        → IsPut (task_of_pair lefts rights sharing.now) result (sink.new ≡ sink.old)
        (Receives (K.taken sink.old) (K.taken sink.new)) }
    ensures world { Leaves result world.new (sink.new ≡ sink.old) }
    ensures told { (lefts rights : Option (List ℕ)) → AreRead texts lefts rights programs.items
        → IsTold (task_of_pair lefts rights sharing.now) result world.new (D.ran driver.old) (D.ran driver.new) }
    ensures puts { TellsFaults Status.WriteFault result (K.faults sink.old) (K.faults sink.new) }
    ensures room { (lefts rights : Option (List ℕ)) → AreRead texts lefts rights programs.items
        → HasRoom (task_of_pair lefts rights sharing.now) (K.room sink.old)
        → IsFaultless Status.WriteFault result (K.faults sink.old) (K.faults sink.new) }
{
    let Ok(word) = letters(alloc, sharing.schedule.as_bytes()) else {
        return Status::NoMemory;
    };
    let Ok(()) = begin(world, texts, programs, Rules::none(alloc), true) else {
        return Status::NoMemory;
    };
    let mut fuel = Fuel::new(sharing.budget);
    let style = Style {
        traced: sharing.traced,
        lettered: false,
    };
    ended(run(world, &word, &mut fuel, style, sink, driver))
}

// Reads two scripts and runs them on one graph.
pub fn share<L: Library, K: Sink, D: Driver>(
    alloc: Global,
    sharing: &Sharing,
    library: &mut L,
    sink: &mut K,
    world: &mut World,
    driver: &mut D,
) -> Status
    requires fresh { world.old ≡ fresh }
    ensures answer { (s : Shelf) → L.shelf library.old ≡ Some s → IsAnswer (task_of_sharing s sharing.now) result }
    ensures text { (s : Shelf) → L.shelf library.old ≡ Some s
        → IsPut (task_of_sharing s sharing.now) result (sink.new ≡ sink.old)
        (Receives (K.taken sink.old) (K.taken sink.new)) }
    ensures world { Leaves result world.new (sink.new ≡ sink.old) }
    ensures told { (s : Shelf) → L.shelf library.old ≡ Some s
        → IsTold (task_of_sharing s sharing.now) result world.new (D.ran driver.old) (D.ran driver.new) }
    ensures reads { TellsFaults Status.ReadFault result (L.faults library.old) (L.faults library.new) }
    ensures puts { TellsFaults Status.WriteFault result (K.faults sink.old) (K.faults sink.new) }
    ensures faultless { (s : Shelf) → L.shelf library.old ≡ Some s
        → IsThere (task_of_sharing s sharing.now) → IsTrue (L.sound library.old)
        → IsFaultless Status.ReadFault result (L.faults library.old) (L.faults library.new) }
    ensures room { (s : Shelf) → L.shelf library.old ≡ Some s
        → HasRoom (task_of_sharing s sharing.now) (K.room sink.old)
        → IsFaultless Status.WriteFault result (K.faults sink.old) (K.faults sink.new) }
    ensures worded { (kind : WordsKind) → result ≢ Status.BadWords kind }
    ensures shelf { L.shelf library.new ≡ L.shelf library.old }
    ensures sound { IsTrue (L.sound library.old) → IsTrue (L.sound library.new) }
    ensures read { (s : Shelf) → L.shelf library.old ≡ Some s
        → OnRead result (L.rest library.new ≡ left_of (task_of_sharing s sharing.now)) }
{
    let mut texts = Texts::new(alloc);
    let left = sharing.left.as_str();
    let right = sharing.right.as_str();
    match read_pair(alloc, library, left, right, &mut texts) {
        Ok(programs) => run_pair(alloc, sharing, texts, programs, sink, world, driver),
        Err(refusal) => Status::from(refusal),
    }
}

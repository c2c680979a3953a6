// One call of the program.
ghost use Rattle.std.specs.Prelude.{◌≡◌, ◌≢◌, ◌↔◌, Err, IsTrue, map, string_bytes};
ghost use Rattle.mb_words.specs.declared.fault.WordsKind.{WordsKind};
ghost use Rattle.mb_story.specs.Running.{Receives};
ghost use Rattle.mb_cli.specs.Serving.{IsAnswer, IsPut, IsTold, Leaves, TellsFaults, IsFaultless, HasRoom, OnRead};
ghost use Rattle.mb_cli.specs.Settings.{settings_of};
ghost use Rattle.mb_world.specs.Data.{fresh};
ghost use Rattle.mb_cli.specs.Tasks.{OnTask, IsThere, left_of};

use crate::list::list;
use crate::shared::share;
use crate::status::Status;
use crate::words::{Command, command_of};
use mb_engine::Driver;
use mb_outer::{Library, Sink};
use mb_words::WordsFault;
use mb_world::World;
use std::alloc::Global;

/// Runs one command. `shared LEFT RIGHT` runs two scripts on one graph, which are read from the library by these names,
/// and puts what they print and how that ended. `run LEFT RIGHT` runs two scripts of the first form, and puts what they
/// print, those of the left script first. `check FILE` tells whether a script has a tree: it is judged as a left one.
/// Each line is put with its line feed by one put; `shared` puts it after the turn that made it.
///
/// `words` are those behind the program's name. A refusal is answered in this order: the words, a fault or too great a
/// length of the left read, of the right read, the left script, the right script. Of a script no more is read than one
/// byte behind what it may have: 65,536 bytes for `run`, 1,048,576 for `shared` and `check`.
/// The turns are made by the driver. The world is left as the run ended: halted where it was spent or broke off.
pub fn serve<L: Library, K: Sink, D: Driver>(
    alloc: Global,
    words: &[String],
    library: &mut L,
    sink: &mut K,
    world: &mut World,
    driver: &mut D,
) -> Status
    requires fresh { world.old ≡ fresh }

    // The words.
    ensures words { result ≢ Status.NoMemory → (kind : WordsKind)
        → (result ≡ Status.BadWords kind) ↔ (settings_of (map string_bytes words.now) ≡ Err kind) }
    ensures unread { (kind : WordsKind) → result ≡ Status.BadWords kind
        → library.new ≡ library.old }

    // The answer, what was put, and the world with its turns.
    ensures answer { OnTask (L.shelf library.old) words.now (λ task. IsAnswer task result) }
    ensures text { OnTask (L.shelf library.old) words.now
        (λ task. IsPut task result (sink.new ≡ sink.old)
        (Receives (K.taken sink.old) (K.taken sink.new))) }
    ensures world { Leaves result world.new (sink.new ≡ sink.old) }
    ensures told { OnTask (L.shelf library.old) words.now
        (λ task. IsTold task result world.new (D.ran driver.old) (D.ran driver.new)) }

    // Faults have a cause, and none is passed over.
    ensures reads { TellsFaults Status.ReadFault result
        (L.faults library.old) (L.faults library.new) }
    ensures puts { TellsFaults Status.WriteFault result (K.faults sink.old) (K.faults sink.new) }
    ensures sound { OnTask (L.shelf library.old) words.now
        (λ task. IsThere task → IsTrue (L.sound library.old)
        → IsFaultless Status.ReadFault result (L.faults library.old) (L.faults library.new)) }
    ensures room { OnTask (L.shelf library.old) words.now (λ task. HasRoom task (K.room sink.old)
        → IsFaultless Status.WriteFault result (K.faults sink.old) (K.faults sink.new)) }

    // What stays of the library, and how far it was read.
    ensures shelf { L.shelf library.new ≡ L.shelf library.old }
    ensures still_sound { IsTrue (L.sound library.old) → IsTrue (L.sound library.new) }
    ensures read { OnTask (L.shelf library.old) words.now
        (λ task. OnRead result (L.rest library.new ≡ left_of task)) }
{
    let command = match command_of(alloc, words) {
        Ok(command) => command,
        Err(WordsFault::Refused(kind)) => return Status::BadWords(kind),
        Err(WordsFault::NoMemory) => return Status::NoMemory,
    };
    match &command {
        Command::List(listing) => list(alloc, listing, library, sink, world),
        Command::Share(sharing) => share(alloc, sharing, library, sink, world, driver),
    }
}

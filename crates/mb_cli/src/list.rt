// Commands whose lines are all made before the first is put.
ghost use Rattle.std.specs.Prelude.{◌≡◌, ◌≢◌, Some, IsTrue, IfOk};
ghost use Rattle.std.specs.List.{concat};
ghost use Rattle.mb_outer.specs.Shelf.{Shelf};
ghost use Rattle.mb_words.specs.declared.fault.WordsKind.{WordsKind};
ghost use Rattle.mb_story.specs.Running.{Receives};
ghost use Rattle.mb_cli.specs.Serving.{IsAnswer, IsPut, Leaves, TellsFaults, IsFaultless, HasRoom, OnRead};
ghost use Rattle.mb_cli.specs.Tasks.{IsThere, Writes, left_of, task_of};
ghost use Rattle.mb_cli.specs.machine.Commands.{listed_by};
ghost use Rattle.mb_cli.specs.machine.Lines.{contents_of};
ghost use Rattle.mb_cli.specs.machine.Refusals.{ending};
ghost use Rattle.mb_world.specs.Data.{fresh};

use crate::check::check_lines;
use crate::first_form::run_lines;
use crate::puts::put_lines;
use crate::refusal::Refusal;
use crate::status::Status;
use crate::words::Listing;
use mb_outer::{Library, Put, Sink};
use mb_world::World;
use std::alloc::Global;

// The lines that a command puts.
fn command_lines<L: Library>(
    alloc: Global,
    listing: &Listing,
    library: &mut L,
) -> Result<Vec<Vec<u8>>, Refusal>
    ensures shelf { L.shelf library.new ≡ L.shelf library.old }
    ensures sound { IsTrue (L.sound library.old) → IsTrue (L.sound library.new) }
    ensures answer { (s : Shelf) → L.shelf library.old ≡ Some s
        → IsAnswer (task_of s (listed_by listing.now)) (ending result) }
    ensures lines { (s : Shelf) → L.shelf library.old ≡ Some s
        → IfOk result (λ lines. Writes (task_of s (listed_by listing.now)) (concat (contents_of lines.items))) }
    ensures reads { TellsFaults Status.ReadFault (ending result) (L.faults library.old) (L.faults library.new) }
    ensures faultless { (s : Shelf) → L.shelf library.old ≡ Some s
        → IsThere (task_of s (listed_by listing.now)) → IsTrue (L.sound library.old)
        → IsFaultless Status.ReadFault (ending result) (L.faults library.old) (L.faults library.new) }
    ensures read { (s : Shelf) → L.shelf library.old ≡ Some s
        → OnRead (ending result) (L.rest library.new ≡ left_of (task_of s (listed_by listing.now))) }
{
    match listing {
        Listing::Run { left, right } => run_lines(alloc, left.as_str(), right.as_str(), library),
        Listing::Check { file } => check_lines(alloc, file.as_str(), library),
    }
}

// Makes the lines of a command, and puts them.
pub fn list<L: Library, K: Sink>(
    alloc: Global,
    listing: &Listing,
    library: &mut L,
    sink: &mut K,
    world: &mut World,
) -> Status
    requires fresh { world.old ≡ fresh }
    ensures answer { (s : Shelf) → L.shelf library.old ≡ Some s → IsAnswer (task_of s (listed_by listing.now)) result }
    ensures text { (s : Shelf) → L.shelf library.old ≡ Some s
        → IsPut (task_of s (listed_by listing.now)) result (sink.new ≡ sink.old)
        (Receives (K.taken sink.old) (K.taken sink.new)) }
    ensures world { Leaves result world.new (sink.new ≡ sink.old) }
    ensures reads { TellsFaults Status.ReadFault result (L.faults library.old) (L.faults library.new) }
    ensures puts { TellsFaults Status.WriteFault result (K.faults sink.old) (K.faults sink.new) }
    ensures faultless { (s : Shelf) → L.shelf library.old ≡ Some s
        → IsThere (task_of s (listed_by listing.now)) → IsTrue (L.sound library.old)
        → IsFaultless Status.ReadFault result (L.faults library.old) (L.faults library.new) }
    ensures room { (s : Shelf) → L.shelf library.old ≡ Some s
        → HasRoom (task_of s (listed_by listing.now)) (K.room sink.old)
        → IsFaultless Status.WriteFault result (K.faults sink.old) (K.faults sink.new) }
    ensures worded { (kind : WordsKind) → result ≢ Status.BadWords kind }
    ensures shelf { L.shelf library.new ≡ L.shelf library.old }
    ensures sound { IsTrue (L.sound library.old) → IsTrue (L.sound library.new) }
    ensures read { (s : Shelf) → L.shelf library.old ≡ Some s
        → OnRead result (L.rest library.new ≡ left_of (task_of s (listed_by listing.now))) }
{
    let lines = match command_lines(alloc, listing, library) {
        Ok(lines) => lines,
        Err(refusal) => return Status::from(refusal),
    };
    match put_lines(&lines, sink) {
        Put::All => Status::Done,
        Put::Failed => {
            world.halt();
            Status::WriteFault
        }
    }
}

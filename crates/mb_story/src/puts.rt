// Lines, each with its line feed by one put.
ghost use Rattle.std.specs.Prelude.{◌≡◌, ◌++◌, ◌∷◌, [], List, ℕ};
ghost use Rattle.mb_model.specs.Text.{ending_line, with_feeds};
ghost use Rattle.mb_story.specs.Running.{CountsFaults, ending_of};
ghost use Rattle.mb_story.specs.machine.Telling.{Sunk, Takes, Took, contents_of, sunk};

use crate::ending::{Ending, RunFault};
use mb_outer::{Put, Sink};
use std::alloc::Global;

// Puts a line.
pub(crate) fn put_line<K: Sink>(mut line: Vec<u8>, sink: &mut K) -> Result<(), RunFault>
    ensures takes { (start : Sunk) (before : List ℕ) → Took start (sunk (K.taken sink.old) (K.room sink.old)) before
        → Takes result start (sunk (K.taken sink.new) (K.room sink.new)) (before ++ (line.items ++ 10 ∷ [])) }
    ensures faults { CountsFaults result (K.faults sink.old) (K.faults sink.new) }
{
    line.push(b'\n')?;
    match sink.put(line.as_slice()) {
        Put::All => Ok(()),
        Put::Failed => Err(RunFault::Write),
    }
}

// Puts lines in order. Where it breaks off, a prefix of their bytes was put.
pub(crate) fn put_lines<K: Sink>(lines: Vec<Vec<u8>>, sink: &mut K) -> Result<(), RunFault>
    ensures takes { (start : Sunk) (before : List ℕ) → Took start (sunk (K.taken sink.old) (K.room sink.old)) before
        → Takes result start (sunk (K.taken sink.new) (K.room sink.new))
        (before ++ with_feeds (contents_of lines.items)) }
    ensures faults { CountsFaults result (K.faults sink.old) (K.faults sink.new) }
{
    for line in lines {
        put_line(line, sink)?;
    }
    Ok(())
}

// Puts the last line.
pub(crate) fn put_ending<K: Sink>(
    alloc: Global,
    ending: Ending,
    sink: &mut K,
) -> Result<(), RunFault>
    ensures takes { (start : Sunk) (before : List ℕ) → Took start (sunk (K.taken sink.old) (K.room sink.old)) before
        → Takes result start (sunk (K.taken sink.new) (K.room sink.new))
        (before ++ (ending_line (ending_of ending) ++ 10 ∷ [])) }
    ensures faults { CountsFaults result (K.faults sink.old) (K.faults sink.new) }
{
    let mut line = Vec::new(alloc);
    line.extend_from_slice(ending.line())?;
    put_line(line, sink)
}

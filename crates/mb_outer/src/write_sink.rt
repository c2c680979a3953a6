// Bytes to any writer of std's.
ghost use Rattle.std.specs.Prelude.{◌≡◌, ◌<◌, ◌↔◌, ℕ, None, length, take, IsErr, IfOk, IfErr, OnOk, OnErr};
ghost use Rattle.std.specs.Io.KnownBytes.{Appends};
ghost use Rattle.mb_outer.specs.machine.Answers.{TookNone};

use crate::counts::count_fault;
use crate::{Put, Sink};
use std::io;
use std::io::Write;
use std::marker::Model;

/// The most turns of the loop of one put.
const MOST_TURNS: u32 = 2_000_000;

/// A sink that hands its bytes to a writer. It tells no room, and its bytes as far as the writer
/// tells them.
#[derive(Drop)]
pub struct WriteSink<W> {
    writer: W,
    faults: u64,
}

impl<W> Model for WriteSink<W> {
    ghost use Rattle.mb_outer.specs.WriteState.{WriteState};

    ghost Value = { WriteState W };

    ghost view = { λ s. record { writer = s.writer; faults = s.faults } };
}

impl<W: Write> WriteSink<W> {
    pub fn new(writer: W) -> WriteSink<W>
        ensures writer { result.writer ≡ writer }
        ensures faults { result.faults ≡ 0 }
    {
        WriteSink { writer, faults: 0 }
    }
}

impl<W: Write> Sink for WriteSink<W> {
    ghost use Rattle.mb_outer.specs.Causes.{PutHasCause, Puts};
    ghost use Rattle.mb_outer.specs.Counts.{one_more};

    ghost taken = { λ s. W.contents s.writer };

    ghost faults = { λ s. s.faults };

    ghost room = { λ _. None };

    // Each error of the writer is a fault, and so are a write that takes no byte and a loop that
    // doesn't end within its turns.
    fn put(&mut self, bytes: &[u8]) -> Put
        ensures fault { result ≡ Put.Failed → self.new.faults ≡ one_more self.old.faults }
        ensures cause { PutHasCause self.old.faults self.new.faults result }
        ensures puts { Puts (W.contents self.old.writer) (W.contents self.new.writer)
            bytes.now result }
    {
        match write_all(&mut self.writer, bytes) {
            Ok(()) => Put::All,
            Err(_) => {
                count_fault(&mut self.faults);
                Put::Failed
            }
        }
    }
}

// Why a put ends before its last byte: by a write, or by the number of its turns.
#[derive(Clone, Copy)]
enum Stop {
    Write,
    Turns,
}

// Writes the bytes, one write a turn.
fn write_all<W: Write>(writer: &mut W, bytes: &[u8]) -> Result<(), Stop>
    ensures all { OnOk result (Appends (W.contents writer.old) (W.contents writer.new) bytes.now) }
    ensures front { OnErr result ((n : ℕ)
        × Appends (W.contents writer.old) (W.contents writer.new) (take n bytes.now)) }
    ensures turns { result ≡ Err Stop.Turns → 2_000_000 < length bytes.now }
{
    let mut done = 0;
    for _turn in 0..MOST_TURNS {
        if done == bytes.len() {
            return Ok(());
        }
        done += taken(writer.write(&bytes[done..]))?;
    }
    if done == bytes.len() {
        Ok(())
    } else {
        Err(Stop::Turns)
    }
}

// How many bytes a write took. None, and an error, end the put.
fn taken(written: io::Result<usize>) -> Result<usize, Stop>
    ensures count { IfOk result (λ count. written ≡ Ok count) }
    ensures some { IfOk result (λ count. 0 < count) }
    ensures fault { IsErr result ↔ TookNone written }
    ensures stop { IfErr result (λ stop. stop ≡ Stop.Write) }
{
    match written {
        Ok(0) => Err(Stop::Write),
        Ok(count) => Ok(count),
        Err(_) => Err(Stop::Write),
    }
}

#[cfg(test)]
mod tests {
    use super::*;
    use std::io::ErrorKind;

    // One answer of the writer below.
    #[derive(Clone, Copy)]
    enum Turn {
        Takes(usize),
        Errs,
    }

    // Answers its writes by these turns, and each write behind them by the last. It counts the writes.
    #[derive(Drop)]
    struct Scripted {
        turns: [Turn; 3],
        writes: usize,
        taken: usize,
    }

    impl Write for Scripted {
        fn write(&mut self, buf: &[u8]) -> io::Result<usize> {
            let turn = self.turns[self.writes.min(2)];
            self.writes = self.writes.saturating_add(1);
            match turn {
                Turn::Takes(most) => {
                    let count = most.min(buf.len());
                    self.taken = self.taken.saturating_add(count);
                    Ok(count)
                }
                Turn::Errs => Err(io::Error::from(ErrorKind::Interrupted)),
            }
        }

        fn flush(&mut self) -> io::Result<()> {
            Ok(())
        }
    }

    // The turns of a writer, and after each of two puts of 100 bytes: the answer, the writes so far, the bytes taken,
    // and the faults.
    #[test]
    fn a_put_ends_with_its_bytes_or_at_the_first_fault(rt: HostRuntime) {
        let bytes = [b'x'; 100];
        let one = Turn::Takes(1);
        let all = Turn::Takes(100);
        let rows = [
            (
                [Turn::Errs, all, all],
                (Put::Failed, 1, 0, 1),
                (Put::All, 2, 100, 1),
            ),
            (
                [Turn::Takes(0), all, all],
                (Put::Failed, 1, 0, 1),
                (Put::All, 2, 100, 1),
            ),
            (
                [one, one, one],
                (Put::All, 100, 100, 0),
                (Put::All, 200, 200, 0),
            ),
            (
                [all, Turn::Takes(60), Turn::Errs],
                (Put::All, 1, 100, 0),
                (Put::Failed, 3, 160, 1),
            ),
        ];
        for (turns, first, second) in rows {
            let mut sink = WriteSink::new(Scripted {
                turns,
                writes: 0,
                taken: 0,
            });
            for want in [first, second] {
                let answer = sink.put(&bytes);
                assert_eq!(rt;
                    (answer, sink.writer.writes, sink.writer.taken, sink.faults),
                    want
                );
            }
            assert_eq!(rt; sink.put(&[]), Put::All);
        }
    }
}

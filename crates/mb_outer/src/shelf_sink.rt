// Bytes in memory, with a list of the puts that are to fail.
ghost use Rattle.std.specs.Prelude.{◌≡◌, ◌≤◌, ◌-◌, ◌++◌, min, length, take, vec_len, vec_capacity};

use crate::counts::{count_fault, count_put};
use crate::{Put, Sink};
use mb_base::NoMemory;
use std::alloc::Global;
use std::marker::Model;

/// A sink in memory, of a fixed room.
#[derive(Drop)]
pub struct ShelfSink {
    bytes: Vec<u8>,
    room: usize,
    failing: Vec<(u64, usize)>,
    puts: u64,
    faults: u64,
}

impl Model for ShelfSink {
    ghost use Rattle.std.specs.Prelude.{◌≤◌, ◌-◌, vec_len, vec_capacity};
    ghost use Rattle.mb_outer.specs.SinkState.{SinkState};

    ghost Value = { SinkState };

    ghost view = { λ s. record {
      bytes = s.bytes.items;
      left = s.room - vec_len s.bytes;
      failing = s.failing.items;
      puts = s.puts;
      faults = s.faults;
    } };

    ghost invariant = { λ s. (vec_len s.bytes ≤ s.room) × (s.room ≤ vec_capacity s.bytes) };
}

impl ShelfSink {
    ghost use Rattle.std.specs.Prelude.{◌≡◌, [], IfOk};

    /// Reserves `room` bytes. A pair of `failing` is the number of a put, counted from 1, that is
    /// to fail, and how many of its bytes it takes, at most those that fit. Of two pairs of one
    /// number the first counts.
    pub fn new(
        alloc: Global,
        room: usize,
        failing: Vec<(u64, usize)>,
    ) -> Result<ShelfSink, NoMemory>
        ensures bytes { IfOk result (λ s. s.bytes ≡ []) }
        ensures left { IfOk result (λ s. s.left ≡ room) }
        ensures failing { IfOk result (λ s. s.failing ≡ failing.items) }
        ensures puts { IfOk result (λ s. s.puts ≡ 0) }
        ensures faults { IfOk result (λ s. s.faults ≡ 0) }
    {
        let bytes = Vec::with_capacity(alloc, room)?;
        Ok(ShelfSink {
            bytes,
            room,
            failing,
            puts: 0,
            faults: 0,
        })
    }

    /// The bytes so far.
    pub fn bytes(&self) -> &[u8]
        ensures { result.now ≡ self.now.bytes }
    {
        self.bytes.as_slice()
    }

    /// The number of faults so far.
    pub fn faults(&self) -> u64
        ensures { result ≡ self.now.faults }
    {
        self.faults
    }
}

impl Sink for ShelfSink {
    ghost use Rattle.std.specs.Prelude.{◌≡◌, Some};
    ghost use Rattle.mb_outer.specs.Causes.{PutHasCause, FitsIn};
    ghost use Rattle.mb_outer.specs.SinkState.{room_told, next_fails, after_put, put_answer};

    ghost taken = { λ s. Some s.bytes };

    ghost faults = { λ s. s.faults };

    ghost room = { λ s. room_told s };

    fn put(&mut self, bytes: &[u8]) -> Put
        ensures answer { result ≡ put_answer (next_fails self.old bytes.now) }
        ensures after { self.new ≡ after_put self.old bytes.now }
        // of the trait's clauses those that don't follow from these
        ensures cause { PutHasCause self.old.faults self.new.faults result }
        ensures fits { FitsIn (room_told self.old) (room_told self.new) bytes.now result }
    {
        let cut = count_put(&mut self.puts, self.failing.as_slice());
        let wanted = cut.unwrap_or(bytes.len());
        let count = append(&mut self.bytes, self.room, bytes, wanted);
        if cut.is_none() && count == bytes.len() {
            return Put::All;
        }
        count_fault(&mut self.faults);
        Put::Failed
    }
}

// Appends as many of the bytes as are wanted and fit in the room, which is reserved.
fn append(held: &mut Vec<u8>, room: usize, bytes: &[u8], wanted: usize) -> usize
    requires within { vec_len held.old ≤ room }
    requires reserved { room ≤ vec_capacity held.old }
    ensures count { result ≡ length (take (min wanted (room - vec_len held.old)) bytes.now) }
    ensures items { held.new.items
        ≡ held.old.items ++ take (min wanted (room - vec_len held.old)) bytes.now }
    ensures within { vec_len held.new ≤ room }
    ensures reserved { room ≤ vec_capacity held.new }
{
    let count = wanted.min(room - held.len()).min(bytes.len());
    match held.extend_from_slice(&bytes[..count]) {
        Ok(()) => count,
        Err(_) => 0,
    }
}

#[cfg(test)]
mod tests {
    use super::*;
    use std::test::Fail;

    // What each put of three bytes answers and takes, the faults after it, and the last bytes.
    #[test]
    fn takes_what_fits_and_fails_by_number(rt: HostRuntime) -> Result<(), Fail> {
        let failing = vec![in rt.alloc(); (2, 1), (2, 3), (3, 9)]?;
        let mut sink = ShelfSink::new(rt.alloc(), 8, failing)?;
        let rows = [
            (Put::All, "abc", 0),
            (Put::Failed, "abca", 1),
            (Put::Failed, "abcaabc", 2),
            (Put::Failed, "abcaabca", 3),
            (Put::Failed, "abcaabca", 4),
        ];
        for (want, bytes, faults) in rows {
            assert_eq!(rt; sink.put(b"abc"), want);
            assert_eq!(rt; sink.bytes(), bytes.as_bytes());
            assert_eq!(rt; sink.faults(), faults);
        }
        assert_eq!(rt; sink.put(b""), Put::All);
        Ok(())
    }
}

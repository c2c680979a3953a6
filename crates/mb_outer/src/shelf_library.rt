// Texts in memory, with a list of the calls that are to fail.
ghost use Rattle.std.specs.Prelude.{◌≡◌, ◌≤◌, ◌<◌};

use crate::counts::{count_call, count_fault};
use crate::place::Place;
use crate::{Got, Library, Start};
use std::marker::Model;

/// Texts in memory under their names, read at most a piece at a time.
#[derive(Drop)]
pub struct ShelfLibrary {
    shelf: Vec<(String, Vec<u8>)>,
    started: Option<Place>,
    piece: usize,
    failing: Vec<u64>,
    calls: u64,
    faults: u64,
}

impl Model for ShelfLibrary {
    ghost use Rattle.std.specs.Prelude.{◌≤◌, IfSome};
    ghost use Rattle.mb_outer.specs.machine.Place.{rest_at, IsOn};
    ghost use Rattle.mb_outer.specs.Shelf.{shelf_of};
    ghost use Rattle.mb_outer.specs.ShelfState.{ShelfState};

    ghost Value = { ShelfState };

    ghost view = { λ s. record {
      shelf = shelf_of s.shelf.items;
      rest = rest_at (shelf_of s.shelf.items) s.started;
      piece = s.piece;
      failing = s.failing.items;
      calls = s.calls;
      faults = s.faults;
    } };

    ghost invariant = { λ s. (1 ≤ s.piece) × IfSome s.started (IsOn s.shelf.items) };
}

impl ShelfLibrary {
    ghost use Rattle.std.specs.Prelude.{◌≡◌, ◌≤◌, None};
    ghost use Rattle.mb_outer.specs.Shelf.{shelf_of};

    /// `failing` lists the calls of `start` and `read`, counted from 1 over both, that are to fail.
    /// Of two entries with one name the first counts. A read gives at most `piece` bytes.
    pub fn new(shelf: Vec<(String, Vec<u8>)>, piece: usize, failing: Vec<u64>) -> ShelfLibrary
        requires piece { 1 ≤ piece }
        ensures shelf { result.shelf ≡ shelf_of shelf.items }
        ensures rest { result.rest ≡ None }
        ensures piece { result.piece ≡ piece }
        ensures failing { result.failing ≡ failing.items }
        ensures calls { result.calls ≡ 0 }
        ensures faults { result.faults ≡ 0 }
    {
        ShelfLibrary {
            shelf,
            started: None,
            piece,
            failing,
            calls: 0,
            faults: 0,
        }
    }

    /// The number of faults so far.
    pub fn faults(&self) -> u64
        ensures { result ≡ self.now.faults }
    {
        self.faults
    }
}

impl Library for ShelfLibrary {
    ghost use Rattle.std.specs.Prelude.{◌≡◌, ◌≢◌, Some, None, IsTrue, IsSome, refl, length};
    ghost use Rattle.mb_outer.specs.Causes.{StartHasCause, GotHasCause, Gets};
    ghost use Rattle.mb_outer.specs.Shelf.{held};
    ghost use Rattle.mb_outer.specs.ShelfState.{is_sound, next_text, next_bytes, after_start, after_read, start_answer, read_answer, filled};

    ghost shelf = { λ s. Some s.shelf };

    ghost rest = { λ s. s.rest };

    ghost faults = { λ s. s.faults };

    ghost sound = { λ s. is_sound s };

    ghost sound_tells = { λ s h. refl };

    fn start(&mut self, name: &str) -> Start
        ensures answer { result ≡ start_answer (next_text self.old name.now) }
        ensures after { self.new ≡ after_start self.old (next_text self.old name.now) }
        // of the trait's clauses those that don't follow from these
        ensures sound { IsTrue (is_sound self.old) → IsTrue (is_sound self.new) }
        ensures cause { StartHasCause self.old.faults self.new.faults result }
        ensures never { IsTrue (is_sound self.old) → IsSome (held name.now self.old.shelf)
            → result ≡ Start.Started }
    {
        self.started = if count_call(&mut self.calls, self.failing.as_slice()) {
            None
        } else {
            Place::of_name(self.shelf.as_slice(), name)
        };
        if self.started.is_some() {
            return Start::Started;
        }
        count_fault(&mut self.faults);
        Start::Failed
    }

    fn read(&mut self, into: &mut [u8]) -> Got
        ensures answer { result ≡ read_answer (next_bytes self.old (length into.old)) }
        ensures after { self.new ≡ after_read self.old (next_bytes self.old (length into.old)) }
        ensures into { into.new ≡ filled into.old (next_bytes self.old (length into.old)) }
        // of the trait's clauses those that don't follow from these
        ensures sound { IsTrue (is_sound self.old) → IsTrue (is_sound self.new) }
        ensures cause { GotHasCause self.old.faults self.new.faults result }
        ensures bytes { Gets self.old.rest self.new.rest into.new result }
        ensures never { IsTrue (is_sound self.old) → IsSome self.old.rest → result ≢ Got.Failed }
    {
        if !count_call(&mut self.calls, self.failing.as_slice()) {
            if let Some(place) = &mut self.started {
                return Got::Bytes(place.read(self.shelf.as_slice(), self.piece, into));
            }
        }
        count_fault(&mut self.faults);
        Got::Failed
    }
}

#[cfg(test)]
mod tests {
    use super::*;
    use std::alloc::{AllocError, Global};
    use std::test::Fail;

    fn shelf(alloc: Global) -> Result<Vec<(String, Vec<u8>)>, AllocError> {
        let mut entries = Vec::new(alloc);
        for (name, text) in [("a", "hello"), ("b", ""), ("a", "other")] {
            let mut bytes = Vec::new(alloc);
            bytes.extend_from_slice(text.as_bytes())?;
            entries.push((String::from_str(alloc, name)?, bytes))?;
        }
        Ok(entries)
    }

    // The piece, how many bytes each read of the text gives to a buffer of four, and that buffer
    // after the last of them.
    #[test]
    fn reads_by_pieces(rt: HostRuntime) -> Result<(), Fail> {
        let rows = [
            (2, [2, 2, 1, 0], b"ol.."),
            (9, [4, 1, 0, 0], b"oell"),
            (1, [1, 1, 1, 1], b"l..."),
        ];
        for (piece, counts, last) in rows {
            let failing = Vec::new(rt.alloc());
            let mut library = ShelfLibrary::new(shelf(rt.alloc())?, piece, failing);
            assert_eq!(rt; library.start("a"), Start::Started);
            let mut buffer = *b"....";
            for count in counts {
                assert_eq!(rt; library.read(&mut buffer), Got::Bytes(count));
            }
            assert_eq!(rt; &buffer, last);
            assert_eq!(rt; library.faults(), 0);
        }
        Ok(())
    }

    #[test]
    fn fails_by_number_by_name_and_idle(rt: HostRuntime) -> Result<(), Fail> {
        let failing = vec![in rt.alloc(); 2, 6]?;
        let mut library = ShelfLibrary::new(shelf(rt.alloc())?, 3, failing);
        let mut buffer = [0; 4];
        assert_eq!(rt; library.read(&mut buffer), Got::Failed);
        assert_eq!(rt; library.start("a"), Start::Failed);
        assert_eq!(rt; library.start("c"), Start::Failed);
        assert_eq!(rt; library.start("a"), Start::Started);
        assert_eq!(rt; library.read(&mut buffer), Got::Bytes(3));
        assert_eq!(rt; library.read(&mut buffer), Got::Failed);
        assert_eq!(rt; library.read(&mut buffer), Got::Bytes(2));
        assert_eq!(rt; library.start("b"), Start::Started);
        assert_eq!(rt; library.read(&mut buffer), Got::Bytes(0));
        assert_eq!(rt; library.start("c"), Start::Failed);
        assert_eq!(rt; library.read(&mut buffer), Got::Failed);
        assert_eq!(rt; library.faults(), 6);
        Ok(())
    }
}

// Texts by their names.
ghost use Rattle.std.specs.Prelude.{◌≡◌, ◌≢◌, ℕ, List, Option, Some, None, Bool, IsSome, IsTrue};
ghost use Rattle.mb_outer.specs.Causes.{StartHasCause, GotHasCause, Starts, Gets, GotWithin};
ghost use Rattle.mb_outer.specs.Shelf.{Shelf, held};

/// The answer of [`Library::start`].
#[derive(Clone, Copy, Debug, PartialEq, Eq)]
pub enum Start {
    /// The text is started; reads give its bytes from the first one on.
    Started,
    /// A fault; nothing is started.
    Failed,
}

/// The answer of [`Library::read`].
#[derive(Clone, Copy, Debug, PartialEq, Eq)]
pub enum Got {
    /// The front of the buffer holds this many bytes of the text.
    Bytes(usize),
    /// A fault.
    Failed,
}

/// Texts that are read piece by piece, one at a time.
pub trait Library {
    /// The texts by their names, where they are told. No call changes them.
    ghost shelf: { Self → Option Shelf };

    /// What is left of the text that was started, where that is told.
    ghost rest: { Self → Option (List ℕ) };

    /// The number of faults so far, which never falls.
    ghost faults: { Self → ℕ };

    /// Only a name that isn't there and a read with nothing started are faults, from here on.
    ghost sound: { Self → Bool };

    /// Starts the text that has this name, from its first byte, and ends the one that was started before. Where no
    /// text has the name, that is a fault.
    fn start(&mut self, name: &str) -> Start
        ensures same { shelf self.new ≡ shelf self.old }
        ensures sound { IsTrue (sound self.old) → IsTrue (sound self.new) }
        ensures cause { StartHasCause (faults self.old) (faults self.new) result }
        ensures rest { Starts (shelf self.old) name.now (rest self.new) result }
        ensures never { (s : Shelf) → IsTrue (sound self.old) → shelf self.old ≡ Some s
            → IsSome (held name.now s) → result ≡ Start.Started };

    /// Puts the next bytes of the started text at the front of the buffer. Where the buffer has room, `Bytes(0)` says
    /// that the text has ended. A read before any start is a fault.
    fn read(&mut self, into: &mut [u8]) -> Got
        ensures same { shelf self.new ≡ shelf self.old }
        ensures sound { IsTrue (sound self.old) → IsTrue (sound self.new) }
        ensures cause { GotHasCause (faults self.old) (faults self.new) result }
        ensures bound { GotWithin result into.new }
        ensures bytes { Gets (rest self.old) (rest self.new) into.new result }
        ensures never { IsTrue (sound self.old) → IsSome (rest self.old) → result ≢ Got.Failed }
        ensures idle { IsSome (shelf self.old) → rest self.old ≡ None → result ≡ Got.Failed };

    /// A sound library tells its texts.
    ghost sound_tells: { (library : Self) → IsTrue (sound library) → IsSome (shelf library) };
}

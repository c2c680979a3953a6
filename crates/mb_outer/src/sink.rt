// A place to put bytes.
ghost use Rattle.std.specs.Prelude.{ℕ, List, Option};
ghost use Rattle.mb_outer.specs.Causes.{PutHasCause, Puts, FitsIn};

/// The answer of [`Sink::put`].
#[derive(Clone, Copy, Debug, PartialEq, Eq)]
pub enum Put {
    /// All bytes are taken.
    All,
    /// A fault; a prefix of the bytes is taken.
    Failed,
}

/// A place that takes bytes, one after the other.
pub trait Sink {
    /// The bytes so far, where they are told.
    ghost taken: { Self → Option (List ℕ) };

    /// The number of faults so far, which never falls.
    ghost faults: { Self → ℕ };

    /// The number of bytes that still fit for certain, where it is told.
    ghost room: { Self → Option ℕ };

    /// Puts the bytes behind those so far.
    fn put(&mut self, bytes: &[u8]) -> Put
        ensures cause { PutHasCause (faults self.old) (faults self.new) result }
        ensures puts { Puts (taken self.old) (taken self.new) bytes.now result }
        ensures fits { FitsIn (room self.old) (room self.new) bytes.now result };
}

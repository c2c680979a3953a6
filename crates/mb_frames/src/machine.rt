// The machine.
ghost use Rattle.std.specs.Prelude.{◌≡◌, ◌++◌, ◌∷◌, [], None, OnOk, OnErr};
ghost use Rattle.std.specs.Option.{option_to_list};
ghost use Rattle.mb_frames.specs.declared.frame.Frame.TheVariants as Frame;
ghost use Rattle.mb_frames.specs.Standing.{above, done_by, at_home};

use crate::frame::{Frame, Move};
use crate::task::{Outcome, Task};
use mb_base::{NoMemory, Side, Spent};

/// Why a machine stops.
#[derive(Clone, Copy, Debug, PartialEq, Eq)]
pub enum Halt {
    Spent,
    NoMemory,
}

impl From<NoMemory> for Halt {
    ghost use Rattle.std.specs.Prelude.{◌≡◌};
    ghost use Rattle.mb_frames.specs.declared.machine.Halt.TheVariants as Halt;

    ghost from_gives = { λ refusal halt. halt ≡ Halt.NoMemory };

    fn from(_: NoMemory) -> Halt {
        Halt::NoMemory
    }
}

impl From<Spent> for Halt {
    ghost use Rattle.std.specs.Prelude.{◌≡◌};
    ghost use Rattle.mb_frames.specs.declared.machine.Halt.TheVariants as Halt;

    ghost from_gives = { λ refusal halt. halt ≡ Halt.Spent };

    fn from(_: Spent) -> Halt {
        Halt::Spent
    }
}

/// The lines so far, of bytes without their line feeds: entries of the trace where `traced`, with the letters A to H
/// for sides where `lettered`, and else L and R.
#[derive(Drop)]
pub struct Lines {
    pub traced: bool,
    pub lettered: bool,
    pub all: Vec<Vec<u8>>,
}

/// A frame, and whose it is: the side that acts in it.
#[derive(Drop)]
pub struct Waiting {
    pub home: Side,
    pub frame: Frame,
}

/// The frames that wait, the last one on top, and the outcome for which that one waits, which is there but where a task
/// begins or a row starts anew. Its home is `now`.
#[derive(Drop)]
pub struct Machine {
    pub stack: Vec<Waiting>,
    pub now: Side,
    pub done: Option<Outcome>,
}

impl Machine {
    /// One more frame, on top.
    pub fn push(&mut self, f: Waiting) -> Result<(), NoMemory>
        ensures pushed { OnOk result (self.new.stack.items ≡ self.old.stack.items ++ f ∷ []) }
        ensures kept { OnErr result (self.new.stack.items ≡ self.old.stack.items) }
        ensures now { self.new.now ≡ self.old.now }
        ensures done { self.new.done ≡ self.old.done }
    {
        self.stack.push(f)?;
        Ok(())
    }

    /// Takes the top frame. It is `None` exactly where there is none.
    pub fn pop(&mut self) -> Option<Waiting>
        ensures popped { self.old.stack.items ≡ self.new.stack.items ++ option_to_list result }
        ensures empty { result ≡ None → self.old.stack.items ≡ [] }
        ensures now { self.new.now ≡ self.old.now }
        ensures done { self.new.done ≡ self.old.done }
    {
        self.stack.pop()
    }

    /// Makes a move of that home, whose frame was taken. After `NoMemory` the machine isn't used again.
    pub fn make(&mut self, home: Side, step: Move) -> Result<(), NoMemory>
        ensures is { OnOk result (self.new.stack.items ≡ self.old.stack.items ++ above home step) }
        ensures done { OnOk result (self.new.done ≡ done_by step) }
        ensures now { OnOk result (self.new.now ≡ home) }
    {
        self.now = home;
        match step {
            Move::Done(o) => {
                self.set_done(Some(o));
                Ok(())
            }
            Move::Wait(x, t) => self.waits(home, x, Frame::Begin(t)),
            Move::Next(t) => self.starts(home, Frame::Begin(t)),
            Move::Anew(t) => self.starts(home, Frame::Anew(t)),
            Move::Entered(x, t) => self.waits(home, x, Frame::Begun(t)),
        }
    }

    // A frame waits for what starts above it.
    fn waits(&mut self, home: Side, frame: Frame, start: Frame) -> Result<(), NoMemory>
        ensures stack { OnOk result (self.new.stack.items
            ≡ self.old.stack.items ++ at_home home frame ∷ at_home home start ∷ []) }
        ensures now { self.new.now ≡ self.old.now }
        ensures done { OnOk result (self.new.done ≡ None) }
    {
        self.push(Waiting { home, frame })?;
        self.starts(home, start)
    }

    // Something starts on top.
    fn starts(&mut self, home: Side, start: Frame) -> Result<(), NoMemory>
        ensures stack { OnOk result (self.new.stack.items ≡ self.old.stack.items ++ at_home home start ∷ []) }
        ensures now { self.new.now ≡ self.old.now }
        ensures done { OnOk result (self.new.done ≡ None) }
    {
        self.push(Waiting { home, frame: start })?;
        self.set_done(None);
        Ok(())
    }

    // The outcome that was there is dropped here, in one place.
    fn set_done(&mut self, done: Option<Outcome>)
        ensures stack { self.new.stack ≡ self.old.stack }
        ensures now { self.new.now ≡ self.old.now }
        ensures done { self.new.done ≡ done }
    {
        self.done = done;
    }
}

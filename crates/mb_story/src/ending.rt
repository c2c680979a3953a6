// How a run ends.
ghost use Rattle.std.specs.Prelude.{◌≡◌};
ghost use Rattle.mb_model.specs.Story.{is_spent};
ghost use Rattle.mb_model.specs.Text.{ending_line};
ghost use Rattle.mb_story.specs.Running.{ending_of};
ghost use Rattle.mb_story.specs.machine.Telling.{ended_by};

use mb_engine::TurnEnd;
use std::alloc::{AllocError, AllocFailed};

/// How the turns of a run ended.
#[derive(Clone, Copy, Debug, PartialEq, Eq)]
pub enum Ending {
    /// Each job ended.
    Done,
    /// A job threw what no script caught.
    Uncaught,
    /// A charge was above what is left.
    Spent,
}

/// Why a run broke off.
#[derive(Clone, Copy, Debug, PartialEq, Eq)]
pub enum RunFault {
    /// The sink didn't take all bytes of a line.
    Write,
    NoMemory,
}

impl From<AllocError> for RunFault {
    ghost use Rattle.std.specs.Prelude.{◌≡◌};
    ghost use Rattle.mb_story.specs.declared.ending.RunFault.TheVariants.{NoMemory as no_memory};

    ghost from_gives = { λ _ fault. fault ≡ no_memory };

    fn from(_: AllocError) -> RunFault {
        RunFault::NoMemory
    }
}

impl<T: Drop> From<AllocFailed<T>> for RunFault {
    ghost use Rattle.std.specs.Prelude.{◌≡◌};
    ghost use Rattle.mb_story.specs.declared.ending.RunFault.TheVariants.{NoMemory as no_memory};

    ghost from_gives = { λ _ fault. fault ≡ no_memory };

    fn from(_: AllocFailed<T>) -> RunFault {
        RunFault::NoMemory
    }
}

impl Ending {
    // After one more turn; `None` where that wanted memory.
    pub(crate) fn after(self, end: TurnEnd) -> Option<Ending>
        ensures { result ≡ ended_by self end }
    {
        match end {
            TurnEnd::Idle => Some(self),
            TurnEnd::Ended => Some(self),
            TurnEnd::Uncaught => Some(Ending::Uncaught),
            TurnEnd::Spent => Some(Ending::Spent),
            TurnEnd::NoMemory => None,
        }
    }

    pub(crate) fn is_spent(self) -> bool
        ensures { result ≡ is_spent (ending_of self) }
    {
        match self {
            Ending::Done => false,
            Ending::Uncaught => false,
            Ending::Spent => true,
        }
    }

    // The last line of the text.
    pub(crate) fn line(self) -> &'static [u8]
        ensures { result.now ≡ ending_line (ending_of self) }
    {
        match self {
            Ending::Done => b"= done",
            Ending::Uncaught => b"= uncaught",
            Ending::Spent => b"= spent",
        }
    }
}

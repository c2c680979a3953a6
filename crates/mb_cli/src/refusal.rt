// What refuses a command before anything of its text is put.
ghost use Rattle.std.specs.Prelude.{◌≡◌};
ghost use Rattle.mb_cli.specs.machine.TreeFaults.{refusal_of};

use crate::status::{ScriptKind, Status, Which};
use crate::tree::TreeFault;
use mb_base::{NoMemory, Side};
use std::alloc::AllocError;

// Why a text wasn't read.
#[derive(Clone, Copy, Debug, PartialEq, Eq)]
pub enum ReadError {
    Fault,
    NoMemory,
}

impl From<NoMemory> for ReadError {
    ghost use Rattle.std.specs.Prelude.{◌≡◌};
    ghost use Rattle.mb_cli.specs.declared.refusal.ReadError.TheVariants.{NoMemory as no_memory};

    ghost from_gives = { λ _ error. error ≡ no_memory };

    fn from(_: NoMemory) -> ReadError {
        ReadError::NoMemory
    }
}

impl From<AllocError> for ReadError {
    ghost use Rattle.std.specs.Prelude.{◌≡◌};
    ghost use Rattle.mb_cli.specs.declared.refusal.ReadError.TheVariants.{NoMemory as no_memory};

    ghost from_gives = { λ _ error. error ≡ no_memory };

    fn from(_: AllocError) -> ReadError {
        ReadError::NoMemory
    }
}

// Why a command doesn't come to its text.
#[derive(Clone, Copy, Debug, PartialEq, Eq)]
pub enum Refusal {
    ReadFault,
    Script { side: Side, kind: ScriptKind },
    TooLong(Which),
    NoMemory,
}

impl From<NoMemory> for Refusal {
    ghost use Rattle.std.specs.Prelude.{◌≡◌};
    ghost use Rattle.mb_cli.specs.declared.refusal.Refusal.TheVariants.{NoMemory as no_memory};

    ghost from_gives = { λ _ refusal. refusal ≡ no_memory };

    fn from(_: NoMemory) -> Refusal {
        Refusal::NoMemory
    }
}

impl From<ReadError> for Refusal {
    ghost use Rattle.std.specs.Prelude.{◌≡◌};
    ghost use Rattle.mb_cli.specs.machine.Refusals.{of_reading};

    ghost from_gives = { λ error refusal. refusal ≡ of_reading error };

    fn from(error: ReadError) -> Refusal {
        match error {
            ReadError::Fault => Refusal::ReadFault,
            ReadError::NoMemory => Refusal::NoMemory,
        }
    }
}

impl From<Refusal> for Status {
    ghost use Rattle.std.specs.Prelude.{◌≡◌};
    ghost use Rattle.mb_cli.specs.machine.Refusals.{status_of};

    ghost from_gives = { λ refusal status. status ≡ status_of refusal };

    fn from(refusal: Refusal) -> Status {
        match refusal {
            Refusal::ReadFault => Status::ReadFault,
            Refusal::Script { side, kind } => Status::BadScript { side, kind },
            Refusal::TooLong(which) => Status::TooLong(which),
            Refusal::NoMemory => Status::NoMemory,
        }
    }
}

// The refusal of a script of that side.
pub fn refuse(side: Side, fault: TreeFault) -> Refusal
    ensures { result ≡ refusal_of side fault }
{
    match fault {
        TreeFault::Bad(kind) => Refusal::Script { side, kind },
        TreeFault::NoMemory => Refusal::NoMemory,
    }
}

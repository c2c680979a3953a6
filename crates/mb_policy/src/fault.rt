// What can be wrong with a policy file.
use mb_base::NoMemory;
use std::alloc::{AllocError, AllocFailed};

/// What is wrong with a policy file. Rows count from 1, and row 0 is the top level.
#[derive(Clone, Copy, Debug, PartialEq, Eq)]
pub enum PolicyKind {
    /// The bytes are no TOML.
    NotToml,
    /// The row is no rule, and each row before it is right. It is 1,001 where there are more than 1,000 rows.
    Field { row: u32 },
    /// The two rows name one key of one label for an owner and a viewer that both mean: the least second one, and the
    /// least first one beside it.
    Conflict { first: u32, second: u32 },
}

/// Why there are no rules.
#[derive(Clone, Copy, Debug, PartialEq, Eq)]
pub enum PolicyFault {
    Refused(PolicyKind),
    NoMemory,
}

impl From<AllocError> for PolicyFault {
    ghost use Rattle.std.specs.Prelude.{◌≡◌};
    ghost use Rattle.mb_policy.specs.declared.fault.PolicyFault.TheVariants.{NoMemory as no_memory};

    ghost from_gives = { λ _ fault. fault ≡ no_memory };

    fn from(_: AllocError) -> PolicyFault {
        PolicyFault::NoMemory
    }
}

impl<T: Drop> From<AllocFailed<T>> for PolicyFault {
    ghost use Rattle.std.specs.Prelude.{◌≡◌};
    ghost use Rattle.mb_policy.specs.declared.fault.PolicyFault.TheVariants.{NoMemory as no_memory};

    ghost from_gives = { λ _ fault. fault ≡ no_memory };

    fn from(_: AllocFailed<T>) -> PolicyFault {
        PolicyFault::NoMemory
    }
}

impl From<NoMemory> for PolicyFault {
    ghost use Rattle.std.specs.Prelude.{◌≡◌};
    ghost use Rattle.mb_policy.specs.declared.fault.PolicyFault.TheVariants.{NoMemory as no_memory};

    ghost from_gives = { λ _ fault. fault ≡ no_memory };

    fn from(_: NoMemory) -> PolicyFault {
        PolicyFault::NoMemory
    }
}

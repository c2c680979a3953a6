//! The small types that every crate speaks of: ids, values, keys, sides, fuel and its refusals.
#![tactic(auto)]

mod fuel;
mod value;

pub use fuel::{Fuel, Spent};
use std::alloc::{AllocError, AllocFailed};
pub use value::{Key, NodeId, ObjId, ScopeId, Side, StrId, SymId, Value};

/// Memory was wanted and wasn't there. It is the one refusal without a cause in a contract.
#[derive(Clone, Copy, Debug, PartialEq, Eq)]
pub struct NoMemory;

impl From<AllocError> for NoMemory {
    fn from(_: AllocError) -> NoMemory {
        NoMemory
    }
}

impl<T: Drop> From<AllocFailed<T>> for NoMemory {
    fn from(_: AllocFailed<T>) -> NoMemory {
        NoMemory
    }
}

//! Property descriptors (ECMA-262, 6.2.6) and which of them a property accepts
//! (ECMA-262, 10.1.6.3), in any kind of value.
#![tactic(auto)]

mod descriptor;
mod laws;
mod slot;
#[cfg(test)]
mod tests;
mod validation;

pub use descriptor::{Desc, Full};
pub use laws::{
    absent_accepts, accepted_again, closed_refuses, configurable_accepts, fixed_is_kept,
    given_is_there, no_fields_leave, not_given_stays,
};
pub use slot::Slot;
pub use validation::{compatible, complete, validate};

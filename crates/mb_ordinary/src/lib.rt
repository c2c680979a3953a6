//! The atomic parts of the internal methods of ordinary objects (ECMA-262, 10.1): what each does to one cell, before
//! any other object is asked.
#![tactic(auto)]

mod answers;
mod changing;
pub mod laws;
mod prototypes;
mod reading;
#[cfg(test)]
mod tests;

pub use answers::{Look, SetStep, Visit};
pub use changing::{define, delete, prevent};
pub use prototypes::{proto_answer, set_proto, visit};
pub use reading::{extensible, keys, look, own, proto, set_step};

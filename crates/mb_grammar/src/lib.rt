//! The grammar of scripts, in `specs/`, and what its definitions speak of.
#![tactic(auto)]

mod function;
mod laws;
mod level;
mod role;

pub use function::{Maker, Property};
pub use laws::{each_node_has_a_form, ids_do_not_matter};
pub use level::Level;
pub use role::Role;

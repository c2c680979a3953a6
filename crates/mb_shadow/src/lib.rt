//! What a side sees through its membrane proxies, and the shadows that keep what was fixed of it.
#![tactic(auto)]

mod bringing;
mod following;
pub mod laws;
mod part;
mod seeing;
mod sight;
#[cfg(test)]
mod tests;

pub use following::follow;
pub use part::Part;
pub use seeing::{seen, seen_extensible, seen_keys, seen_proto};

//! What a side sees of an object under the policy's rules, and which changes the rules decide.
#![tactic(auto)]

mod applying;
mod change;
mod ruling;
#[cfg(test)]
mod tests;
mod view;

pub use change::{Change, Ruling};
pub use ruling::admits;
pub use view::{cut, listed, shown};

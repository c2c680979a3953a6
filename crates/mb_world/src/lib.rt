//! The world of a run: an arena of cells, scopes, queues of jobs and the trace, seen as plain lists.
#![tactic(auto)]

mod cell;
mod entry;
mod intrinsics;
pub mod laws;
mod long;
mod roles;
mod rule;
mod scope;
#[cfg(test)]
mod tests;
mod world;

pub use cell::{Cell, CellKind, Code, Coll, ErrorKind, Shape, Slots};
pub use entry::{Entry, KeyList, Op, Said, Seen};
pub use intrinsics::name_of;
pub use rule::{Rule, RuleKind, Rules};
pub use scope::{Bound, Job, Names, Scope};
pub use world::World;

//! The steps of Array, of its own members, and of the members of Array.prototype (ECMA-262, 23.1).
#![tactic(auto)]

mod beginning;
mod calling;
mod constructing;
mod errors;
mod finding;
mod giving;
mod joining;
mod keys;
mod making;
mod members;
mod places;
mod popping;
mod pushing;
mod ranges;
mod resuming;
mod step;
mod storing;
mod texts;
mod turns;

pub use step::step_arrayapi;

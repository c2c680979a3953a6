//! The steps of statements (ECMA-262, 14).
#![tactic(auto)]

mod blocks;
mod declarations;
mod first;
mod fors;
mod functions;
mod loops;
mod resuming;
mod scopes;
mod step;
mod tries;
mod values;

pub use step::step_stmt;

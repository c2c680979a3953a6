//! The steps of expressions.
#![tactic(auto)]

mod assignments;
mod beginning;
mod binary;
mod calls;
mod choices;
mod computing;
mod definitions;
mod elements;
mod first;
mod functions;
mod giving;
mod making;
mod names;
mod operators;
mod places;
mod properties;
mod props;
mod resuming;
mod step;
mod targets;
mod uses;
mod using;

pub use step::step_expr;

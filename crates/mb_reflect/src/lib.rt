//! One step of Object, Reflect, the error constructors and Function.prototype (ECMA-262, 20.1, 20.2.3, 20.5, 28.1).
#![tactic(auto)]

mod arguments;
mod arrays;
mod asking;
mod errors;
mod failures;
mod freezing;
mod functions;
mod giving;
mod keyed;
mod keys;
mod listing;
mod objects;
mod places;
mod resuming;
mod running;
mod settling;
mod step;
mod targets;

pub use step::step_reflect;

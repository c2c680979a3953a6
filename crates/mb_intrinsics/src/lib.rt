//! The built-ins of the host: the table, a world that has them, and one step of the basic ones.
#![tactic(auto)]

mod basics;
mod desk;
mod furnishing;
mod giving;
mod laws;
mod names;
pub mod places;
mod printing;
mod standard;
mod step;
mod table;
#[cfg(test)]
mod tests;
mod texts;

pub use basics::symbol_text;
pub use furnishing::furnish;
pub use mb_world::name_of;
pub use names::bind_names;
pub use printing::letter;
pub use step::step_intrinsic;

//! Turns: a world is begun with its scripts, and each turn does the next job of a side to its end.
#![tactic(auto)]

mod advancing;
mod beginning;
mod drivers;
mod owners;
mod starting;
#[cfg(test)]
mod tests;
mod turns;
mod uncaught;

pub use beginning::begin;
pub use drivers::{Driver, Noting, Ran, Straight};
pub use turns::{TurnEnd, turn};

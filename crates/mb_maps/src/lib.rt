//! Crossing: what a side has for a value of another side, and the one proxy that it has for each foreign object.
#![tactic(auto)]

mod crossing;
pub mod laws;
mod proxies;
#[cfg(test)]
mod tests;

pub use crossing::{behind, cross, cross_full};

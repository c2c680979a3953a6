//! The line of an entry of the trace.
#![tactic(auto)]

mod desc;
mod entry;
mod part;
#[cfg(test)]
mod tests;

pub use entry::line;

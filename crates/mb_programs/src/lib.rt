//! That a script which was read is one that a run can start.
#![tactic(auto)]

pub mod laws;

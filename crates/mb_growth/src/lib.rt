//! How the objects of the graph change: each evolves, and so does what each side sees of it.
#![tactic(auto)]

mod laws;

pub use laws::{
    a_side_sees_it_evolve, checks_tell, names_last, objects_evolve, objects_move,
    ordinary_entries_pass, proxy_entries_pass, runs_are_lawful, runs_evolve,
    targets_are_no_proxies, tasks_evolve, tasks_must_fit,
};

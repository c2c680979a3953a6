//! The run of a story: the turns of a schedule, then rounds of turns until no side has a job, each line put after the
//! turn that made it.
#![tactic(auto)]

mod ending;
mod puts;
mod rounds;
mod running;
mod schedule;
mod style;
#[cfg(test)]
mod tests;
mod turns;

pub use ending::{Ending, RunFault};
pub use running::run;
pub use schedule::Letter;
pub use style::Style;

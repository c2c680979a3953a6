//! The machine: a stack of frames, each of which stands for the rest of a row of the meaning.
#![tactic(auto)]

mod arrays;
mod calls;
mod collections;
mod crossing;
mod expressions;
mod failing;
mod frame;
mod functions;
mod laws;
mod machine;
mod nodes;
mod passing;
mod proxies;
mod ready;
mod reflecting;
mod statements;
mod task;
#[cfg(test)]
mod tests;
mod values;

pub use arrays::{ArrayFrame, Callback, Member, Turn};
pub use calls::{AfterDesc, AfterList, CallFrame, Field};
pub use collections::{CollectFrame, Visiting};
pub use crossing::MembraneFrame;
pub use expressions::{After, ExprFrame, Reference};
pub use failing::fail;
pub use frame::{Entering, Frame, Given, Move};
pub use functions::{built_in, make_function, put};
pub use laws::{
    a_contained_machine_stays_contained, a_formed_machine_stays_formed, a_ready_world_can_run,
    a_side_can_throw_errors, a_step_keeps_the_machine_whole, a_step_leaves_the_rest,
    a_step_needs_only_its_own_row, a_step_that_cannot_pay_is_spent, a_world_is_kept_in_steps,
    each_step_lowers_the_weight, parts_that_change_nothing, parts_that_charge,
    the_meaning_does_rows, what_goes_on_is_formed, what_was_found_is_found_in_steps,
    what_was_found_stays_found,
};
pub use machine::{Halt, Lines, Machine, Waiting};
pub use nodes::{after, count_of, declares, form_at, name_of, part_at};
pub use passing::{parts_go_on_with_answers, parts_go_over, steps_begin_with_parts};
pub use proxies::{Absent, ProxyFrame};
pub use ready::{
    a_ready_world_has_its_built_ins, a_step_leaves_a_ready_machine, changes_keep_a_world_ready,
    what_a_part_leaves, what_a_ready_machine_holds, what_a_ready_world_holds,
    what_is_held_stays_held, what_is_made_may_be_held,
};
pub use reflecting::ReflectFrame;
pub use statements::StmtFrame;
pub use task::{Answer, Context, Method, Outcome, Request, Task};
pub use values::{Units, Values};

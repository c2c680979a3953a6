//! The meaning of scripts: definitions, and the laws that hold of them.
#![tactic(auto)]

mod laws;

pub use laws::{
    a_row_takes_the_place, a_story_is_told_to_its_end, a_task_is_done_by_its_row,
    a_task_keeps_what_the_run_was_given, a_task_pays_first, an_end_is_a_frame_below,
    an_end_is_added_to_a_task, entries_of_accesses, entries_of_methods, fuel_never_grows,
    more_rounds_change_nothing, stacks_are_put_on_stacks,
};

//! What a side sees of an object, how that may change, what the answers of an object promise of it,
//! and how a shadow follows it: definitions and their laws.
#![tactic(auto)]

mod laws;
#[cfg(test)]
mod tests;

pub use laws::{
    Name, a_lean_shadow_loses_the_order, alike_agrees, alike_evolve, alike_list_the_same,
    changes_evolve, clock_orders, closed_keys_are_sublist, each_side_sees_it_evolve,
    element_steps_are_allowed, entry_owes, evolves_in_steps, facts_stay, follows_key,
    follows_whole, in_order_are_own_keys, is_reached, kept_in_turn, length_steps_are_allowed,
    one_more_is_lawful, one_more_tells, only_is_absent, ordinary_passes, passing_agrees,
    shadow_is_told, shadow_keeps_told, shadow_passes, shown_evolves,
    the_moment_of_the_begin_is_needed, the_order_of_fixed_keys_is_needed,
    the_ruling_on_hidden_keys_is_needed, whole_keeps_told, witnessed_is_lawful,
};

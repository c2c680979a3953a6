// Each law at the keys and values of a world.
use super::*;
use mb_base::{Key, Value};

#[test]
fn laws_hold_at_keys_and_values(_rt: HostRuntime) {
    alike_agrees::<Key, Value>();
    alike_evolve::<Key, Value>();
    alike_list_the_same::<Key, Value>();
    changes_evolve::<Key, Value>();
    clock_orders::<Key, Value>();
    closed_keys_are_sublist::<Key, Value>();
    each_side_sees_it_evolve::<Key, Value>();
    element_steps_are_allowed::<Key, Value>();
    entry_owes::<Key, Value>();
    evolves_in_steps::<Key, Value>();
    facts_stay::<Key, Value>();
    follows_key::<Key, Value>();
    follows_whole::<Key, Value>();
    in_order_are_own_keys::<Value>();
    is_reached::<Key, Value>();
    kept_in_turn::<Key>();
    length_steps_are_allowed::<Key, Value>();
    one_more_is_lawful::<Key, Value>();
    one_more_tells::<Key, Value>();
    only_is_absent::<Key, Value>();
    ordinary_passes::<Key, Value>();
    passing_agrees::<Key, Value>();
    shadow_is_told::<Key, Value>();
    shadow_keeps_told::<Key, Value>();
    shadow_passes::<Key, Value>();
    shown_evolves::<Key, Value>();
    whole_keeps_told::<Key, Value>();
    witnessed_is_lawful::<Key, Value>();
}

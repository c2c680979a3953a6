//! The rules that the answers of a script-made Proxy's traps keep (ECMA-262, 10.5). Each call decides the rules of one
//! method, which docs/PROXY-RULES.md numbers, by what the trap answered and what the target has. No call takes memory.
#![tactic(auto)]

mod keys;
mod laws;
mod rules;
#[cfg(test)]
mod tests;
mod verdict;

pub use keys::own_keys;
pub use laws::{keys_in_any_order, the_first_broken_rule_counts, unbroken_rules_pass};
pub use rules::{
    construct, define, delete, get, get_prototype, has_not, is_extensible, own_absent, own_present,
    prevent_extensions, set, set_prototype,
};
pub use verdict::Verdict;

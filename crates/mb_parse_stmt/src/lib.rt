//! The parser of scripts, which drives the parser of expressions.
#![tactic(auto)]

mod beginnings;
mod declarations;
mod endings;
mod expects;
mod heads;
mod laws;
mod machine;
mod parameters;
mod parser;
mod statements;
mod terminal;
#[cfg(test)]
mod tests;

pub use laws::{
    a_body_has_one_list_of_statements, a_place_has_one_expression, token_lists_have_a_tree_or_none,
    token_lists_have_one_tree,
};
pub use parser::{ParseFault, parse};

//! The parser of expressions, which pauses at the statements of each function body.
#![tactic(auto)]

mod functions;
mod labels;
mod laws;
mod levels;
mod lists;
mod machine;
mod operands;
mod parser;
mod properties;
mod role;
#[cfg(test)]
mod tests;

pub use laws::{bodies_are_named_once_in_order, one_expression_where_bodies_are_one};
pub use mb_grammar::Level;
pub use parser::{ExprParser, Paused};

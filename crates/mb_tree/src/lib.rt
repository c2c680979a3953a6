//! Trees of scripts, laid flat: each node behind the nodes of its parts, and the root last.
#![tactic(auto)]

mod form;
mod kind;
mod laws;
mod parts;
mod program;
#[cfg(test)]
mod tests;
mod tree;

pub use form::{Form, FunctionParts, PropName};
pub use kind::{Fixed, Kind, PropKey, Sign};
pub use laws::a_form_tells_its_node;
pub use program::{Program, Scopes};
pub use tree::{Label, MOST_NODES, Node, Tree};

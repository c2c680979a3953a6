//! Parts of rows that the steps of several crates do: conversions, errors, arrays, names of scopes, functions of
//! declarations.
#![tactic(auto)]

mod arrays;
mod conversions;
mod errors;
mod functions;
mod scopes;
mod shapes;

pub use arrays::{empty_array, make_array, open_desc, store_element};
pub use conversions::{digits, key_from, text_from, truth, word};
pub use errors::{throws, type_error};
pub use functions::declare_one;
pub use scopes::{initialize, unbound_names};
pub use shapes::{callable, constructor};

//! The steps of calls, constructions and the ordinary internal methods (ECMA-262, 7.3, 10.1, 10.2, 10.4).
#![tactic(auto)]

mod acting;
mod arrays;
mod bodies;
mod calls;
mod changing;
mod constructions;
mod descriptors;
mod entering;
mod entries;
mod errors;
mod fields;
mod giving;
mod lists;
mod making;
mod methods;
mod parts;
mod reading;
mod resuming;
mod rulings;
mod saying;
mod shapes;
mod step;
mod walk;
mod writing;

pub use acting::is_due;
pub use arrays::is_array;
pub use changing::{delete_key, prevent_extensions};
pub use constructions::construct;
pub use descriptors::todesc;
pub use entries::{entered, entry_by, write_last};
pub use giving::{asks, keys, performs, property, value, yes_or_no};
pub use lists::list_of;
pub use making::fromdesc;
pub use methods::own_keys;
pub use parts::key_of_word;
pub use reading::call_getter;
pub use step::step_call;
pub use walk::set_prototype;
pub use writing::{set_found, store};

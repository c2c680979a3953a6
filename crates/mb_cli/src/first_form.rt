// The command `run` for scripts of the first form, statements `print(LITERAL);`. All of it goes when scripts run.
mod laws;
mod lines;
mod number;
mod reading;
mod run;
mod script;
mod token;
mod whole;

pub use laws::{literals_are_unique, scripts_of_the_first_form_have_a_tree, tokens_are_unique};
pub use run::run_lines;

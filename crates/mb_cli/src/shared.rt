// The command `shared`: two scripts on one graph.
mod letters;
mod pair;
mod share;

pub use share::share;

//! What lies outside of the program: texts to read by their names, and a place to put bytes.
#![tactic(auto)]

mod counts;
mod files;
mod library;
mod place;
mod shelf_library;
mod shelf_sink;
mod sink;
mod write_sink;

pub use files::FileLibrary;
pub use library::{Got, Library, Start};
pub use shelf_library::ShelfLibrary;
pub use shelf_sink::ShelfSink;
pub use sink::{Put, Sink};
pub use write_sink::WriteSink;

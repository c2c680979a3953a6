//! `membrane`: runs two scripts, each on a side of its own or both on one graph, and prints what they print, or checks
//! one.
#![tactic(auto)]

mod check;
mod command;
mod first_form;
mod laws;
mod list;
mod pieces;
mod puts;
mod refusal;
mod shared;
mod status;
#[cfg(test)]
mod tests;
mod tree;
mod words;

pub use command::serve;
pub use first_form::{
    literals_are_unique, scripts_of_the_first_form_have_a_tree, tokens_are_unique,
};
pub use laws::{
    a_script_has_a_tree_or_a_fault, a_script_has_one_fault, a_script_has_one_program,
    a_task_ends_one_way, answers_are_exact, never_a_tree_and_a_fault,
};
use mb_base::Side;
use mb_engine::Straight;
use mb_outer::{FileLibrary, WriteSink};
use mb_words::WordsKind;
pub use mb_world::World;
pub use status::{ScriptKind, Status, Which};
use std::io::ErrorKind;
use std::process::ExitCode;
use thiserror::Error;
pub use tree::{TreeFault, read_tree};

// What a status that isn't an end of a run says on standard error.
#[derive(Debug, Drop, Error)]
enum Complaint {
    #[error("membrane: words: usage")]
    Usage,
    #[error("membrane: words: schedule at {at}")]
    Schedule {
        at: u32,
    },
    #[error("membrane: words: budget")]
    Budget,
    #[error("membrane: read failed")]
    ReadFault,
    #[error("membrane: write failed")]
    WriteFault,
    #[error("membrane: {side}: {kind}")]
    Script {
        side: &'static str,
        kind: ScriptKind,
    },
    #[error("membrane: too long: {side}")]
    Long {
        side: &'static str,
    },
    #[error("membrane: no memory")]
    NoMemory,
}

// A side as it is told.
fn name_of(side: Side) -> &'static str {
    match side.0 {
        0 => "left",
        _ => "right",
    }
}

// The complaint of a status, where it has one.
fn complaint_of(status: Status) -> Option<Complaint> {
    match status {
        Status::Done | Status::Uncaught | Status::Spent => None,
        Status::BadWords(WordsKind::Usage) => Some(Complaint::Usage),
        Status::BadWords(WordsKind::Schedule { at }) => Some(Complaint::Schedule { at }),
        Status::BadWords(WordsKind::Budget) => Some(Complaint::Budget),
        Status::ReadFault => Some(Complaint::ReadFault),
        Status::WriteFault => Some(Complaint::WriteFault),
        Status::BadScript { side, kind } => Some(Complaint::Script {
            side: name_of(side),
            kind,
        }),
        Status::TooLong(Which::Script(side)) => Some(Complaint::Long {
            side: name_of(side),
        }),
        Status::NoMemory => Some(Complaint::NoMemory),
    }
}

// The words behind the program's name.
fn words_of(rt: &HostRuntime) -> Result<Vec<String>, Status> {
    match std::env::args(rt) {
        Ok(all) => all
            .skip(1)
            .collect(rt.alloc())
            .map_err(|_| Status::NoMemory),
        Err(error) if error.kind() == ErrorKind::OutOfMemory => Err(Status::NoMemory),
        Err(_) => Err(Status::BadWords(WordsKind::Usage)),
    }
}

fn served(rt: &HostRuntime) -> Status {
    let words = match words_of(rt) {
        Ok(words) => words,
        Err(status) => return status,
    };
    let mut world = match World::new(rt.alloc()) {
        Ok(world) => world,
        Err(_) => return Status::NoMemory,
    };
    let mut library = FileLibrary::new(rt);
    let mut sink = WriteSink::new(std::io::writer(rt));
    serve(
        rt.alloc(),
        &words,
        &mut library,
        &mut sink,
        &mut world,
        &mut Straight,
    )
}

fn main(rt: HostRuntime) -> ExitCode {
    let status = served(&rt);
    if let Some(complaint) = complaint_of(status) {
        let _ = eprintln!(rt; "{complaint}");
    }
    ExitCode::from(status.code())
}

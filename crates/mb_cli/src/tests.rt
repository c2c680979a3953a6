// Rows of `serve` over a shelf, and a sink in memory.
mod crossing;
mod faults;
mod hostile;
mod refused;
mod scripts;
mod sharing;

use crate::{ScriptKind, Status, World, serve};
use mb_base::{NoMemory, Side};
use mb_engine::{Driver, Straight};
use mb_outer::{ShelfLibrary, ShelfSink};
use mb_words::WordsKind;
use std::alloc::{AllocError, Global};

const USAGE: Status = Status::BadWords(WordsKind::Usage);

const SHAPE: ScriptKind = ScriptKind::Shape;

fn left(kind: ScriptKind) -> Status {
    Status::BadScript {
        side: Side::LEFT,
        kind,
    }
}

fn right(kind: ScriptKind) -> Status {
    Status::BadScript {
        side: Side::RIGHT,
        kind,
    }
}

// What a call is served over: the scripts `l` and `r` on the shelf, how they are read, and the sink.
#[derive(Clone, Copy)]
struct Call<'a> {
    left: &'a [u8],
    right: &'a [u8],
    piece: usize,
    failing_call: Option<u64>,
    room: usize,
    failing_put: Option<(u64, usize)>,
}

const RUN: [&str; 3] = ["run", "l", "r"];

const CHECK: [&str; 2] = ["check", "l"];

const SHARED: [&str; 3] = ["shared", "l", "r"];

const FIRST: Call<'static> = Call {
    left: b"print(1);",
    right: b"print(2);",
    piece: 9,
    failing_call: None,
    room: 1_000,
    failing_put: None,
};

// How a call ended: its status, whether the world is halted, and what the sink holds.
#[derive(Drop)]
struct Ended {
    status: Status,
    halted: bool,
    sink: ShelfSink,
}

fn shelf_of(
    alloc: Global,
    left: &[u8],
    right: &[u8],
) -> Result<Vec<(String, Vec<u8>)>, AllocError> {
    let mut shelf = Vec::new(alloc);
    shelf.push((String::from_str(alloc, "l")?, left.to_vec(alloc)?))?;
    shelf.push((String::from_str(alloc, "r")?, right.to_vec(alloc)?))?;
    Ok(shelf)
}

fn words_of(alloc: Global, words: &[&str]) -> Result<Vec<String>, AllocError> {
    let mut all = Vec::new(alloc);
    for word in words {
        all.push(String::from_str(alloc, word)?)?;
    }
    Ok(all)
}

fn list_of<T: Drop>(alloc: Global, item: Option<T>) -> Result<Vec<T>, AllocError> {
    let mut list = Vec::new(alloc);
    if let Some(item) = item {
        list.push(item)?;
    }
    Ok(list)
}

fn called(alloc: Global, words: &[&str], call: Call<'_>) -> Result<Ended, NoMemory> {
    called_by(alloc, words, call, &mut Straight)
}

// The call, with this driver for its turns.
fn called_by<D: Driver>(
    alloc: Global,
    words: &[&str],
    call: Call<'_>,
    driver: &mut D,
) -> Result<Ended, NoMemory> {
    let words = words_of(alloc, words)?;
    let shelf = shelf_of(alloc, call.left, call.right)?;
    let failing_calls = list_of(alloc, call.failing_call)?;
    let failing_puts = list_of(alloc, call.failing_put)?;
    let mut library = ShelfLibrary::new(shelf, call.piece.max(1), failing_calls);
    let mut sink = ShelfSink::new(alloc, call.room, failing_puts)?;
    let mut world = World::new(alloc)?;
    let status = serve(alloc, &words, &mut library, &mut sink, &mut world, driver);
    let halted = world.halted();
    Ok(Ended {
        status,
        halted,
        sink,
    })
}

// The call ends so, and with these bytes in the sink.
fn ends(
    alloc: Global,
    words: &[&str],
    call: Call<'_>,
    status: Status,
    halted: bool,
    bytes: &[u8],
) -> bool {
    match called(alloc, words, call) {
        Ok(ended) => {
            ended.status == status && ended.halted == halted && ended.sink.bytes() == bytes
        }
        Err(_) => false,
    }
}

// A call over these scripts ends so, with this text, and leaves the world halted where it is spent.
fn shares(
    alloc: Global,
    words: &[&str],
    left: &str,
    right: &str,
    status: Status,
    text: &str,
) -> bool {
    let call = Call {
        left: left.as_bytes(),
        right: right.as_bytes(),
        piece: 100,
        room: 2_000,
        ..FIRST
    };
    let halted = status == Status::Spent;
    ends(alloc, words, call, status, halted, text.as_bytes())
}

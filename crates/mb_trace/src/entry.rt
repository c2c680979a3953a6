// The line.
ghost use Rattle.std.specs.Prelude.{◌≡◌, ◌<◌, ◌++◌, false, Contains, IfOk, OnOk, OnErr};
ghost use Rattle.mb_world.specs.EntryLine.{side_letter};
ghost use Rattle.mb_trace.specs.Line.{line_of};
ghost use Rattle.mb_trace.specs.machine.Told.{EntryTold, head_of};

use crate::part::{push_key_if, push_number, push_op, push_said, push_word};
use mb_base::{NoMemory, Side};
use mb_world::{Entry, World};
use std::alloc::Global;

/// Appends the line of an entry of this world, without a line feed: `T`, how many entries were complete when it began,
/// the letter of the side, the object as `#` and its number, the name of the method or, behind `@`, of the built-in
/// that accessed a collection, the key, what was given, and the answer, with a blank between two. `-` stands for
/// nothing. The letters are A to H where `lettered`, else L and R. The time is linear in the line.
pub fn line(entry: &Entry, w: &World, lettered: bool, out: &mut Vec<u8>) -> Result<(), NoMemory>
    requires entry { Contains w.now.entries entry.now }
    requires two_sides { lettered ≡ false → w.now.sides ≡ 2 }
    ensures line { OnOk result (out.new.items ≡ out.old.items ++ line_of w.now lettered entry.now) }
    ensures kept { OnErr result (out.new.items ≡ out.old.items) }
{
    // With its texts the world tells that each id of its entries is one of it.
    let _texts = w.texts();
    let line = whole_line(*out.allocator(), entry, w, lettered)?;
    out.extend_from_slice(&line)?;
    Ok(())
}

fn whole_line(alloc: Global, entry: &Entry, w: &World, lettered: bool) -> Result<Vec<u8>, NoMemory>
    requires side { entry.now.side.0 < 8 }
    requires told { EntryTold w.now entry.now }
    ensures { IfOk result (λ line. line.items ≡ line_of w.now lettered entry.now) }
{
    let mut line = Vec::new(alloc);
    push_head(entry, lettered, &mut line)?;
    line.push(b' ')?;
    push_key_if(w, entry.key, &mut line)?;
    line.push(b' ')?;
    push_said(w, &entry.given, &mut line)?;
    line.push(b' ')?;
    push_said(w, &entry.answer, &mut line)?;
    Ok(line)
}

// The parts in front of the key.
fn push_head(entry: &Entry, lettered: bool, out: &mut Vec<u8>) -> Result<(), NoMemory>
    requires { entry.now.side.0 < 8 }
    ensures { OnOk result (out.new.items ≡ out.old.items ++
        head_of lettered entry.now.began entry.now.side.0 entry.now.object entry.now.op) }
{
    push_word("T ", out)?;
    push_number(entry.began, out)?;
    out.push(b' ')?;
    out.push(side_letter(lettered, entry.side))?;
    push_word(" #", out)?;
    push_number(entry.object, out)?;
    out.push(b' ')?;
    push_op(entry.op, out)?;
    Ok(())
}

fn side_letter(lettered: bool, side: Side) -> u8
    requires { side.0 < 8 }
    ensures { result ≡ side_letter lettered side.0 }
{
    match side.0 {
        place if lettered => b'A' + place,
        0 => b'L',
        _ => b'R',
    }
}

// Each form of an entry's parts.
ghost use Rattle.std.specs.Prelude.{◌≡◌, true, false, IfOk};
ghost use Rattle.mb_world.specs.Ids.{EntryIn, KeyIn, Maybe, SaidIn, SeenIn};

mod rows;

use self::rows::{Name, Part, ROWS, Row};
use super::line;
use mb_base::{Key, Side, StrId, SymId};
use mb_world::{Entry, KeyList, Op, Said, Seen, World};
use std::alloc::Global;
use std::process::Abort;
use std::test::Fail;

fn two_sides(alloc: Global) -> Result<World, Fail> {
    let mut w = World::new(alloc)?;
    w.set_sides(2);
    Ok(w)
}

fn add_texts(w: &mut World) -> Result<(), Fail> {
    let texts: [&[u16]; 5] = [
        &[0x6B],
        &[0x61, 0x22, 0x62, 0x0A, 0xD83D],
        &[0x78; 64],
        &[0x79; 65],
        &[0x7A; 65],
    ];
    for units in texts {
        w.intern(units)?;
    }
    Ok(())
}

fn add_symbols(w: &mut World) -> Result<(), Fail> {
    for _ in 0..2u8 {
        w.make_symbol(None)?;
    }
    Ok(())
}

// A world with five texts and two symbols.
fn world(alloc: Global) -> Result<World, Fail> {
    let mut w = two_sides(alloc)?;
    add_texts(&mut w)?;
    add_symbols(&mut w)?;
    Ok(w)
}

fn known(rt: &impl Abort, w: &World, value: Seen)
    ensures { SeenIn w.now value }
{
    match value {
        Seen::Text(text) => assert!(rt; (text.0 as usize) < w.texts().len()),
        Seen::Symbol(number) => assert!(rt; number < w.symbols()),
        _ => {}
    }
}

fn known_if(rt: &impl Abort, w: &World, value: Option<Seen>)
    ensures { Maybe (SeenIn w.now) value }
{
    if let Some(value) = value {
        known(rt, w, value);
    }
}

fn key_of(rt: &impl Abort, w: &World, name: Name) -> Key
    ensures { KeyIn w.now result }
{
    match name {
        Name::Text(number) => {
            assert!(rt; (number as usize) < w.texts().len());
            w.texts().key(StrId(number))
        }
        Name::Symbol(number) => {
            assert!(rt; number < w.symbols());
            Key::Symbol(SymId(number))
        }
    }
}

fn said_of(rt: &impl Abort, alloc: Global, w: &World, part: Part) -> Result<Said, Fail>
    ensures { IfOk result (SaidIn w.now) }
{
    match part {
        Part::Nothing => Ok(Said::Nothing),
        Part::Flag(flag) => Ok(Said::Flag(flag)),
        Part::Value(value) => {
            known(rt, w, value);
            Ok(Said::Plain(value))
        }
        Part::Absent => Ok(Said::Absent),
        Part::Prop(desc) => {
            known_if(rt, w, desc.value);
            known_if(rt, w, desc.get);
            known_if(rt, w, desc.set);
            Ok(Said::Prop(desc))
        }
        Part::NoKeys => Ok(Said::Keys(KeyList::from(Vec::new(alloc)))),
        Part::Keys(first, second) => {
            let keys = [key_of(rt, w, first), key_of(rt, w, second)];
            Ok(Said::Keys(KeyList::from(Vec::from_array(alloc, keys)?)))
        }
        Part::Thrown(value) => {
            known(rt, w, value);
            Ok(Said::Thrown(value))
        }
        Part::Pair(key, value) => {
            known(rt, w, key);
            known(rt, w, value);
            Ok(Said::Pair(key, value))
        }
    }
}

// The entry of a row.
fn entry_of(rt: &impl Abort, alloc: Global, w: &World, row: Row, began: u32) -> Result<Entry, Fail>
    ensures { IfOk result (EntryIn w.now) }
{
    let (place, op, name, given, answer, _) = row;
    assert!(rt; place < 8);
    let key = match name {
        Some(name) => Some(key_of(rt, w, name)),
        None => None,
    };
    Ok(Entry {
        began,
        side: Side(place),
        object: 7,
        op,
        key,
        given: said_of(rt, alloc, w, given)?,
        answer: said_of(rt, alloc, w, answer)?,
    })
}

// Adds the entry of a row.
fn add(rt: &impl Abort, alloc: Global, w: &mut World, row: Row, began: u32) -> Result<(), Fail> {
    let entry = entry_of(rt, alloc, w, row, began)?;
    w.add_entry(entry)?;
    Ok(())
}

// The line of the last entry.
fn last_line(rt: &impl Abort, alloc: Global, w: &World, lettered: bool) -> Result<Vec<u8>, Fail> {
    assert!(rt; lettered || w.sides() == 2);
    let trace = w.trace();
    let count = trace.len();
    assert!(rt; count > 0);
    let mut out = Vec::new(alloc);
    line(&trace[count - 1], w, lettered, &mut out)?;
    Ok(out)
}

#[test]
fn lines_of_two_sides(rt: HostRuntime) -> Result<(), Fail> {
    let mut w = world(rt.alloc())?;
    for (began, row) in ROWS.iter().enumerate() {
        add(&rt, rt.alloc(), &mut w, *row, began as u32)?;
        let out = last_line(&rt, rt.alloc(), &w, false)?;
        let wanted = format!(in rt.alloc(); "T {began} {}", row.5)?;
        assert_eq!(rt; out.as_slice(), wanted.as_bytes(), "{wanted}");
    }
    Ok(())
}

#[test]
fn letters_of_eight_sides(rt: HostRuntime) -> Result<(), Fail> {
    let mut w = world(rt.alloc())?;
    for (place, letter) in b"ABCDEFGH".iter().enumerate() {
        let row = (
            place as u8,
            Op::IsExtensible,
            None,
            Part::Nothing,
            Part::Flag(true),
            "",
        );
        add(&rt, rt.alloc(), &mut w, row, 0)?;
        let out = last_line(&rt, rt.alloc(), &w, true)?;
        assert_eq!(rt; out.get(4), Some(letter));
    }
    Ok(())
}

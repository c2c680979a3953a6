// Rows over one array, each of which takes up where the one before it left.
mod asked;

use crate::{Defined, define_any};
use asked::{LENGTH, apart, key, length_of_an_array, plain, there};
use mb_base::{Key, ObjId, Side, StrId, Value};
use mb_desc::{Desc, Full};
use mb_world::{CellKind, World};
use std::process::Abort;
use std::test::Fail;

const NONE: Desc<Value> = Desc {
    value: None,
    writable: None,
    get: None,
    set: None,
    enumerable: None,
    configurable: None,
};

fn defines(
    rt: &impl Abort,
    w: &mut World,
    o: ObjId,
    text: StrId,
    desc: Desc<Value>,
) -> Result<Defined, Fail> {
    there(rt, w, o);
    let key = key(rt, w, text);
    plain(rt, w, desc);
    apart(rt, w, o, key, desc);
    length_of_an_array(rt, w, o)?;
    Ok(define_any(w, o, key, desc)?)
}

// ---- worlds

fn value(n: i64) -> Desc<Value> {
    Desc {
        value: Some(Value::Whole(n)),
        ..NONE
    }
}

fn open(n: i64, configurable: bool) -> Desc<Value> {
    Desc {
        value: Some(Value::Whole(n)),
        writable: Some(true),
        enumerable: Some(true),
        configurable: Some(configurable),
        ..NONE
    }
}

fn fixed(n: i64) -> Desc<Value> {
    Desc {
        value: Some(Value::Whole(n)),
        writable: Some(false),
        ..NONE
    }
}

// An array of 1, 2 and 3. The one in the middle is fixed.
fn array(rt: &impl Abort, w: &mut World) -> Result<ObjId, Fail> {
    let o = w.make(Side::LEFT, CellKind::Array, Value::Null, None)?;
    for (n, configurable) in [(0, true), (1, false), (2, true)] {
        let text = w.of_whole(n)?;
        let answer = defines(rt, w, o, text, open(n + 1, configurable))?;
        assert_eq!(rt; answer, Defined::Answer(true));
    }
    Ok(o)
}

// Whether the key is there.
fn has(rt: &impl Abort, w: &mut World, o: ObjId, n: i64) -> Result<bool, Fail> {
    let text = w.of_whole(n)?;
    let key = key(rt, w, text);
    there(rt, w, o);
    Ok(w.cell(o).props.get(key).is_some())
}

fn has_length_of(
    rt: &impl Abort,
    w: &mut World,
    o: ObjId,
    n: i64,
    writable: bool,
) -> Result<(), Fail> {
    let text = w.intern(&LENGTH)?;
    let key = key(rt, w, text);
    there(rt, w, o);
    let property = Full::Datum {
        value: Value::Whole(n),
        writable,
        enumerable: false,
        configurable: false,
    };
    assert_eq!(rt; w.cell(o).props.get(key), Some(property));
    Ok(())
}

// A definition of `length`: the answer, the length afterwards, and which of the elements 0, 1, 2 are there.
#[derive(Clone, Copy)]
struct Row {
    desc: Desc<Value>,
    answer: Defined,
    length: i64,
    writable: bool,
    elements: [bool; 3],
}

fn tried(rt: &impl Abort, w: &mut World, o: ObjId, row: &Row) -> Result<(), Fail> {
    let length = w.intern(&LENGTH)?;
    let answer = defines(rt, w, o, length, row.desc)?;
    assert_eq!(rt; answer, row.answer);
    has_length_of(rt, w, o, row.length, row.writable)?;
    let [first, second, third] = row.elements;
    has_all(rt, w, o, &[(0, first), (1, second), (2, third)])
}

fn try_all(rt: &impl Abort, w: &mut World, o: ObjId, rows: &[Row]) -> Result<(), Fail> {
    for row in rows {
        tried(rt, w, o, row)?;
    }
    Ok(())
}

fn has_all(rt: &impl Abort, w: &mut World, o: ObjId, rows: &[(i64, bool)]) -> Result<(), Fail> {
    for row in rows {
        let (n, expected) = *row;
        let there = has(rt, w, o, n)?;
        assert_eq!(rt; there, expected);
    }
    Ok(())
}

fn make_row(desc: Desc<Value>, answer: Defined, length: i64, writable: bool, third: bool) -> Row {
    Row {
        desc,
        answer,
        length,
        writable,
        elements: [true, true, third],
    }
}

// The array 1, 2, 3 with its index 1 fixed.
fn shorter_rows() -> [Row; 7] {
    let truth = Desc {
        value: Some(Value::Bool(true)),
        ..NONE
    };
    let (yes, no) = (Defined::Answer(true), Defined::Answer(false));
    [
        make_row(value(-1), Defined::Range, 3, true, true),
        make_row(value(0x1_0000_0000), Defined::Range, 3, true, true),
        make_row(truth, Defined::Kind, 3, true, true),
        make_row(value(0xFFFF_FFFF), yes, 0xFFFF_FFFF, true, true),
        make_row(fixed(0), no, 2, false, false),
        make_row(value(0), no, 2, false, false),
        make_row(fixed(2), yes, 2, false, false),
    ]
}

// The same array again, whose elements are looked up one by one.
fn rows_one_by_one() -> [Row; 5] {
    let (yes, no) = (Defined::Answer(true), Defined::Answer(false));
    [
        make_row(value(3), yes, 3, true, true),
        make_row(value(2), yes, 2, true, false),
        make_row(value(0), no, 2, true, false),
        make_row(fixed(2), yes, 2, false, false),
        make_row(value(3), no, 2, false, false),
    ]
}

#[test]
fn a_length_goes_down_to_what_is_fixed(rt: HostRuntime) -> Result<(), Fail> {
    let mut w = World::new(rt.alloc())?;
    let o = array(&rt, &mut w)?;
    try_all(&rt, &mut w, o, &shorter_rows())
}

#[test]
fn a_length_goes_down_one_by_one(rt: HostRuntime) -> Result<(), Fail> {
    let mut w = World::new(rt.alloc())?;
    let o = array(&rt, &mut w)?;
    try_all(&rt, &mut w, o, &rows_one_by_one())
}

// A definition of an element: the answer, and the length afterwards.
#[derive(Clone, Copy)]
struct Element {
    index: i64,
    desc: Desc<Value>,
    answer: bool,
    length: i64,
    writable: bool,
}

fn try_element(rt: &impl Abort, w: &mut World, o: ObjId, row: &Element) -> Result<(), Fail> {
    let text = w.of_whole(row.index)?;
    let answer = defines(rt, w, o, text, row.desc)?;
    assert_eq!(rt; answer, Defined::Answer(row.answer));
    has_length_of(rt, w, o, row.length, row.writable)
}

fn elements(rt: &impl Abort, w: &mut World, o: ObjId, rows: &[Element]) -> Result<(), Fail> {
    for row in rows {
        try_element(rt, w, o, row)?;
    }
    Ok(())
}

// The greatest index, and a number that is none.
fn high_elements() -> [Element; 2] {
    let at = |index| Element {
        index,
        desc: open(7, true),
        answer: true,
        length: 0xFFFF_FFFF,
        writable: true,
    };
    [at(0xFFFF_FFFE), at(0xFFFF_FFFF)]
}

// At a fixed `length` of 2, below it, far above it.
fn elements_about_two() -> [Element; 3] {
    let at = |index, answer| Element {
        index,
        desc: value(5),
        answer,
        length: 2,
        writable: false,
    };
    [at(2, false), at(1, true), at(9, false)]
}

#[test]
fn an_element_is_below_the_length(rt: HostRuntime) -> Result<(), Fail> {
    let mut w = World::new(rt.alloc())?;
    let o = array(&rt, &mut w)?;
    elements(&rt, &mut w, o, &high_elements())?;
    // the elements go, and what is no index stays
    let shorter = make_row(fixed(2), Defined::Answer(true), 2, false, false);
    tried(&rt, &mut w, o, &shorter)?;
    has_all(&rt, &mut w, o, &[(0xFFFF_FFFE, false), (0xFFFF_FFFF, true)])?;
    elements(&rt, &mut w, o, &elements_about_two())
}

#[test]
fn another_object_has_no_such_length(rt: HostRuntime) -> Result<(), Fail> {
    let mut w = World::new(rt.alloc())?;
    let o = w.make(Side::LEFT, CellKind::Plain, Value::Null, None)?;
    let length = w.intern(&LENGTH)?;
    let answer = defines(&rt, &mut w, o, length, open(-1, true))?;
    assert_eq!(&rt; answer, Defined::Answer(true));
    Ok(())
}

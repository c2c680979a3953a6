// Rows over small worlds. A key in a row is a text of the world by its id.
mod asked;

use crate::{
    Look, SetStep, define, delete, extensible, keys, look, prevent, proto, set_proto, set_step,
};
use asked::{fields, key, one_kind, ordinary, there, value};
use mb_base::{Fuel, Key, ObjId, Side, Spent, Value};
use mb_desc::{Desc, Full};
use mb_world::{CellKind, Shape, World};
use std::process::Abort;
use std::test::Fail;

const NONE: Desc<Value> = Desc {
    value: None,
    writable: None,
    get: None,
    set: None,
    enumerable: None,
    configurable: None,
};

// ---- worlds

// The objects of a world, as they are made.
const A: ObjId = ObjId(0);

const B: ObjId = ObjId(1);

const C: ObjId = ObjId(2);

const D: ObjId = ObjId(3);

// The texts `a`, `7`, `b`, `3` under the ids 0 to 3, and no object.
fn world(rt: &HostRuntime) -> Result<World, Fail> {
    let mut w = World::new(rt.alloc())?;
    for unit in [97, 55, 98, 51] {
        w.intern(&[unit])?;
    }
    Ok(w)
}

fn plain(rt: &impl Abort, w: &mut World, home: Side, proto: Value) -> Result<(), Fail> {
    assert!(rt; home.0 < 8);
    value(rt, w, proto);
    w.make(home, CellKind::Plain, proto, None)?;
    Ok(())
}

// Objects of the left side, each with its prototype.
fn objects(rt: &impl Abort, w: &mut World, protos: &[Value]) -> Result<(), Fail> {
    for proto in protos {
        plain(rt, w, Side::LEFT, *proto)?;
    }
    Ok(())
}

// A membrane proxy of that side, with the object behind it, which stands for a shadow too.
fn proxy(rt: &impl Abort, w: &mut World, home: Side, behind: ObjId) -> Result<(), Fail> {
    assert!(rt; home.0 < 8);
    there(rt, w, behind);
    let kind = CellKind::Membrane {
        behind,
        shadow: behind,
    };
    w.make(home, kind, Value::Null, None)?;
    Ok(())
}

// A script-made Proxy that is revoked.
fn scripted(rt: &impl Abort, w: &mut World, proto: Value) -> Result<(), Fail> {
    value(rt, w, proto);
    let kind = CellKind::Proxy {
        target: None,
        handler: None,
        shape: Shape::Plain,
    };
    w.make(Side::LEFT, kind, proto, None)?;
    Ok(())
}

// ---- rows

// The property at a text is defined.
fn defines(
    rt: &impl Abort,
    w: &mut World,
    o: ObjId,
    text: u32,
    desc: Desc<Value>,
) -> Result<bool, Fail> {
    ordinary(rt, w, o);
    let key = key(rt, w, text);
    fields(rt, w, desc);
    one_kind(rt, desc);
    Ok(define(w, o, key, desc)?)
}

fn define_all(
    rt: &impl Abort,
    w: &mut World,
    o: ObjId,
    rows: &[(u32, Desc<Value>, bool)],
) -> Result<(), Fail> {
    for row in rows {
        let (text, desc, expected) = *row;
        let answer = defines(rt, w, o, text, desc)?;
        assert_eq!(rt; answer, expected);
    }
    Ok(())
}

fn deletes(rt: &impl Abort, w: &mut World, o: ObjId, rows: &[(u32, bool)]) {
    for row in rows {
        let (text, expected) = *row;
        ordinary(rt, w, o);
        let key = key(rt, w, text);
        let answer = delete(w, o, key);
        assert_eq!(rt; answer, expected);
    }
}

// The keys in order are those of these texts.
fn has_keys(rt: &impl Abort, w: &World, o: ObjId, texts: &[u32]) -> Result<(), Fail> {
    ordinary(rt, w, o);
    let keys = keys(w, o)?;
    assert_eq!(rt; keys.len(), texts.len());
    for (key, text) in keys.iter().zip(texts) {
        assert!(rt; matches!(key, Key::Text { text: id, .. } if id.0 == *text));
    }
    Ok(())
}

// What is found at a text, and what a write there does.
#[derive(Clone, Copy)]
struct Lookup {
    object: ObjId,
    text: u32,
    look: Look,
    step: SetStep,
}

fn finds(rt: &impl Abort, w: &World, row: &Lookup) {
    ordinary(rt, w, row.object);
    let key = key(rt, w, row.text);
    assert_eq!(rt; look(w, row.object, key), row.look);
    assert_eq!(rt; set_step(w, row.object, key), row.step);
}

fn find_all(rt: &impl Abort, w: &World, rows: &[Lookup]) {
    for row in rows {
        finds(rt, w, row);
    }
}

// Setting a prototype with so many units: the answer, and how many are left.
#[derive(Clone, Copy)]
struct Walk {
    object: ObjId,
    proto: Value,
    units: u32,
    answer: Result<bool, Spent>,
    left: u32,
}

fn sets(rt: &impl Abort, w: &mut World, row: &Walk) {
    ordinary(rt, w, row.object);
    value(rt, w, row.proto);
    let mut fuel = Fuel::new(row.units);
    let answer = set_proto(w, row.object, row.proto, &mut fuel);
    assert_eq!(rt; answer, row.answer);
    assert_eq!(rt; fuel.left(), row.left);
}

fn set_all(rt: &impl Abort, w: &mut World, rows: &[Walk]) {
    for row in rows {
        sets(rt, w, row);
    }
}

fn has_proto(rt: &impl Abort, w: &World, o: ObjId, expected: Value) {
    ordinary(rt, w, o);
    assert_eq!(rt; proto(w, o), expected);
}

fn closes(rt: &impl Abort, w: &mut World, o: ObjId) {
    ordinary(rt, w, o);
    let answer = prevent(w, o);
    assert!(rt; answer);
    ordinary(rt, w, o);
    assert!(rt; !extensible(w, o));
}

// A property with the value 1 that can be written and goes.
const OPEN: Desc<Value> = Desc {
    value: Some(Value::Whole(1)),
    writable: Some(true),
    configurable: Some(true),
    ..NONE
};

#[test]
fn definitions_and_deletions(rt: HostRuntime) -> Result<(), Fail> {
    let mut w = world(&rt)?;
    objects(&rt, &mut w, &[Value::Null])?;
    let rows = [
        (0, OPEN, true),
        (1, OPEN, true),
        (2, NONE, true),
        (3, OPEN, true),
        (2, OPEN, false),
    ];
    define_all(&rt, &mut w, A, &rows)?;
    deletes(&rt, &mut w, A, &[(2, false), (0, true), (0, true)]);
    has_keys(&rt, &w, A, &[3, 1, 2])
}

// What is found of a property that no loop lists, and that can be written where it goes.
fn found(value: Value, open: bool) -> Look {
    Look::Found(Full::Datum {
        value,
        writable: open,
        enumerable: false,
        configurable: open,
    })
}

// A setter, and no getter, in a property that no loop lists and that stays.
const SETTER: Full<Value> = Full::Accessor {
    get: Value::Undefined,
    set: Value::Object(B),
    enumerable: false,
    configurable: false,
};

// `B` has `A` as its prototype and three properties, `A` has none.
fn found_rows() -> [Lookup; 5] {
    let row = |object, text, look, step| Lookup {
        object,
        text,
        look,
        step,
    };
    let above = Value::Object(A);
    [
        row(B, 0, Look::Up(above), SetStep::Up(above)),
        row(B, 1, found(Value::Whole(1), true), SetStep::Store),
        row(B, 2, found(Value::Undefined, false), SetStep::Refuse),
        row(B, 3, Look::Found(SETTER), SetStep::Setter(B)),
        row(A, 0, Look::Up(Value::Null), SetStep::Store),
    ]
}

#[test]
fn what_is_found_and_written(rt: HostRuntime) -> Result<(), Fail> {
    let mut w = world(&rt)?;
    objects(&rt, &mut w, &[Value::Null, Value::Object(A)])?;
    let accessor = Desc {
        set: Some(Value::Object(B)),
        ..NONE
    };
    let made = [(1, OPEN, true), (2, NONE, true), (3, accessor, true)];
    define_all(&rt, &mut w, B, &made)?;
    find_all(&rt, &w, &found_rows());
    Ok(())
}

// A row where the new prototype is an object.
fn to_object(
    object: ObjId,
    proto: ObjId,
    units: u32,
    answer: Result<bool, Spent>,
    left: u32,
) -> Walk {
    Walk {
        object,
        proto: Value::Object(proto),
        units,
        answer,
        left,
    }
}

#[test]
fn a_closed_object_takes_no_more(rt: HostRuntime) -> Result<(), Fail> {
    let mut w = world(&rt)?;
    objects(&rt, &mut w, &[Value::Null, Value::Null])?;
    let writable = Desc {
        writable: Some(true),
        ..NONE
    };
    define_all(&rt, &mut w, A, &[(0, writable, true)])?;
    closes(&rt, &mut w, A);
    define_all(&rt, &mut w, A, &[(1, writable, false), (0, writable, true)])?;
    set_all(&rt, &mut w, &closed_rows());
    Ok(())
}

fn closed_rows() -> [Walk; 2] {
    let same = Walk {
        object: A,
        proto: Value::Null,
        units: 0,
        answer: Ok(true),
        left: 0,
    };
    [to_object(A, B, 9, Ok(false), 9), same]
}

#[test]
fn a_walk_goes_up_unit_by_unit(rt: HostRuntime) -> Result<(), Fail> {
    let mut w = world(&rt)?;
    let protos = [Value::Null, Value::Object(A), Value::Object(B), Value::Null];
    objects(&rt, &mut w, &protos)?;
    set_all(&rt, &mut w, &walks_upward());
    has_proto(&rt, &w, D, Value::Object(C));
    Ok(())
}

// `C` is below `B` and that below `A`; `D` has no prototype.
fn walks_upward() -> [Walk; 5] {
    [
        to_object(A, C, 2, Err(Spent), 0),
        to_object(A, C, 9, Ok(false), 6),
        to_object(A, A, 9, Ok(false), 8),
        to_object(D, C, 3, Ok(true), 0),
        to_object(D, C, 0, Ok(true), 0),
    ]
}

// `A` of the left side, its proxy `B`, `C` of the right side below that, and its proxy `D`.
fn two_sides(rt: &impl Abort, w: &mut World) -> Result<(), Fail> {
    plain(rt, w, Side::LEFT, Value::Null)?;
    proxy(rt, w, Side::RIGHT, A)?;
    plain(rt, w, Side::RIGHT, Value::Object(B))?;
    proxy(rt, w, Side::LEFT, C)
}

#[test]
fn a_walk_goes_on_behind_the_membrane(rt: HostRuntime) -> Result<(), Fail> {
    let mut w = world(&rt)?;
    two_sides(&rt, &mut w)?;
    sets(&rt, &mut w, &to_object(A, D, 9, Ok(false), 7));
    w.set_revoked();
    sets(&rt, &mut w, &to_object(A, D, 9, Ok(true), 8));
    Ok(())
}

#[test]
fn a_walk_ends_at_a_proxy(rt: HostRuntime) -> Result<(), Fail> {
    let mut w = world(&rt)?;
    objects(&rt, &mut w, &[Value::Null])?;
    scripted(&rt, &mut w, Value::Object(A))?;
    sets(&rt, &mut w, &to_object(A, B, 9, Ok(true), 8));
    Ok(())
}

// Rows over small worlds. Before a call its condition is tested; small bodies are proved fast.
ghost use Rattle.std.specs.Prelude.{◌<◌, length};
ghost use Rattle.mb_world.specs.Data.{cell_at};
ghost use Rattle.mb_world.specs.Ids.{ObjIn, KeyIn, IsCollection};

use super::*;
use mb_base::{Key, ObjId, ScopeId, Side, StrId, SymId, Value};
use mb_desc::Full;
use std::alloc::Global;
use std::process::Abort;
use std::test::Fail;

const MEMORY: &str = "there is memory";

// ---- what the calls ask

fn there(rt: &impl Abort, w: &World, id: ObjId)
    ensures { ObjIn w.now id }
{
    assert!(rt; id.0 < w.cells());
}

fn text_there(rt: &impl Abort, w: &World, text: u32)
    ensures { text < length w.now.texts }
{
    assert!(rt; (text as usize) < w.texts().len());
}

fn collection(rt: &impl Abort, w: &World, id: ObjId)
    ensures there { ObjIn w.now id }
    ensures collection { IsCollection (cell_at w.now id) }
{
    there(rt, w, id);
    let cell = w.cell(id);
    assert!(rt; matches!(cell.kind, CellKind::Collection(_)));
}

fn key(rt: &impl Abort, w: &World, text: u32) -> Key
    ensures { KeyIn w.now result }
{
    text_there(rt, w, text);
    w.texts().key(StrId(text))
}

// ---- calls

fn world(rt: &impl Abort, alloc: Global) -> World {
    World::new(alloc).expect(rt, MEMORY)
}

fn intern(rt: &impl Abort, w: &mut World, units: &[u16]) -> StrId {
    w.intern(units).expect(rt, MEMORY)
}

fn join(rt: &impl Abort, w: &mut World, a: StrId, b: StrId) -> StrId {
    text_there(rt, w, a.0);
    text_there(rt, w, b.0);
    w.join(a, b).expect(rt, MEMORY)
}

fn of_whole(rt: &impl Abort, w: &mut World, number: i64) -> StrId {
    w.of_whole(number).expect(rt, MEMORY)
}

fn make(rt: &impl Abort, w: &mut World, home: Side, kind: CellKind) -> ObjId {
    assert!(rt; home.0 < 8);
    let kind = match kind {
        CellKind::Membrane { behind, shadow } => {
            there(rt, w, behind);
            there(rt, w, shadow);
            CellKind::Membrane { behind, shadow }
        }
        CellKind::Array => CellKind::Array,
        CellKind::BuiltIn(place) => CellKind::BuiltIn(place),
        CellKind::Shadow(shape) => CellKind::Shadow(shape),
        CellKind::Collection(which) => CellKind::Collection(which),
        _ => CellKind::Plain,
    };
    w.make(home, kind, Value::Null, None).expect(rt, MEMORY)
}

fn put(rt: &impl Abort, w: &mut World, id: ObjId, text: u32, number: i64) {
    there(rt, w, id);
    let key = key(rt, w, text);
    let full = Full::Datum {
        value: Value::Whole(number),
        writable: true,
        enumerable: true,
        configurable: true,
    };
    w.put(id, key, full).expect(rt, MEMORY);
}

fn remove(rt: &impl Abort, w: &mut World, id: ObjId, text: u32) -> bool {
    there(rt, w, id);
    let key = key(rt, w, text);
    w.remove(id, key)
}

// The text and the number of the property at that place.
fn property(rt: &impl Abort, w: &World, id: ObjId, place: u32) -> Option<(u32, i64)> {
    there(rt, w, id);
    match w.cell(id).props.at(place) {
        Some(
            (
                Key::Text { text, .. },
                Full::Datum {
                    value: Value::Whole(number),
                    ..
                },
            ),
        ) => Some((text.0, number)),
        _ => None,
    }
}

fn serial(rt: &impl Abort, w: &World, id: ObjId) -> Option<u32> {
    there(rt, w, id);
    w.serial(id)
}

// The left side's `set` of a text of the object 0, which throws a text.
fn add_entry(rt: &impl Abort, w: &mut World, key_text: u32, given: u32, thrown: u32) {
    let key = key(rt, w, key_text);
    text_there(rt, w, given);
    text_there(rt, w, thrown);
    let entry = Entry {
        began: 0,
        side: Side::LEFT,
        object: 0,
        op: Op::Set,
        key: Some(key),
        given: Said::Plain(Seen::Text(StrId(given))),
        answer: Said::Thrown(Seen::Text(StrId(thrown))),
    };
    w.add_entry(entry).expect(rt, MEMORY);
}

fn add_call(rt: &impl Abort, w: &mut World, number: i64) {
    let job = Job::Call(Value::Whole(number));
    w.add_job(Side::LEFT, job).expect(rt, MEMORY);
}

// Takes the first job of a side, and gives the number that it calls.
fn take_call(rt: &impl Abort, w: &mut World, side: Side) -> Option<i64> {
    assert!(rt; side.0 < 8);
    match w.take_job(side) {
        Some(Job::Call(Value::Whole(number))) => Some(number),
        _ => None,
    }
}

// Writes a slot, or empties it.
fn set_slot(rt: &impl Abort, w: &mut World, id: ObjId, at: u32, filled: bool) {
    collection(rt, w, id);
    assert!(rt; at as usize <= w.slots(id).len());
    if filled {
        let pair = Some((Value::Null, Value::Bool(true)));
        w.set_slot(id, at, pair).expect(rt, MEMORY);
    } else {
        w.set_slot(id, at, None).expect(rt, MEMORY);
    }
}

// Whether the slot at that place is filled, where there is one.
fn slot(rt: &impl Abort, w: &World, id: ObjId, at: usize) -> Option<bool> {
    collection(rt, w, id);
    w.slots(id).get(at).map(|slot| slot.is_some())
}

fn add_scope(rt: &impl Abort, w: &mut World, alloc: Global) -> ScopeId {
    let scope = Scope {
        home: Side::LEFT,
        parent: None,
        names: Names::new(alloc),
    };
    w.add_scope(scope).expect(rt, MEMORY)
}

fn make_symbol(rt: &impl Abort, w: &mut World) -> SymId {
    w.make_symbol(None).expect(rt, MEMORY)
}

// ---- tables

fn make_all(rt: &impl Abort, w: &mut World, rows: &[(Side, CellKind)]) {
    for (home, kind) in rows {
        make(rt, w, *home, *kind);
    }
}

fn put_all(rt: &impl Abort, w: &mut World, id: ObjId, rows: &[(u32, i64)]) {
    for (text, number) in rows {
        put(rt, w, id, *text, *number);
    }
}

fn set_slots(rt: &impl Abort, w: &mut World, id: ObjId, rows: &[(u32, bool)]) {
    for (at, filled) in rows {
        set_slot(rt, w, id, *at, *filled);
    }
}

fn are_texts(rt: &impl Abort, w: &World, count: usize) {
    assert_eq!(rt; w.texts().len(), count);
}

fn are_properties(rt: &impl Abort, w: &World, id: ObjId, rows: &[Option<(u32, i64)>; 3]) {
    for place in 0..3 {
        assert_eq!(rt; property(rt, w, id, place), rows[place as usize]);
    }
}

fn are_serials(rt: &impl Abort, w: &World, rows: &[(ObjId, Option<u32>)]) {
    for (id, number) in rows {
        assert_eq!(rt; serial(rt, w, *id), *number);
    }
}

fn are_objects(rt: &impl Abort, w: &World, rows: &[(u32, Option<ObjId>)]) {
    for (number, id) in rows {
        assert_eq!(rt; w.object(*number), *id);
    }
}

fn is_built_in(rt: &impl Abort, w: &World, side: Side, want: Option<ObjId>) {
    assert_eq!(rt; w.built_in(side, 7), want);
}

fn is_proxy(rt: &impl Abort, w: &World, side: Side, want: Option<ObjId>) {
    assert_eq!(rt; w.proxy_of(side, ObjId(0)), want);
}

fn are_long(rt: &impl Abort, w: &World, rows: &[(u32, Option<u32>)]) {
    for (text, number) in rows {
        assert_eq!(rt; w.long(StrId(*text)), *number);
    }
}

fn are_calls(rt: &impl Abort, w: &mut World, rows: &[(Side, Option<i64>)]) {
    for (side, number) in rows {
        assert_eq!(rt; take_call(rt, w, *side), *number);
    }
}

fn are_slots(rt: &impl Abort, w: &World, id: ObjId, rows: &[Option<bool>; 3]) {
    for place in 0..3 {
        assert_eq!(rt; slot(rt, w, id, place), rows[place]);
    }
}

// Four texts of 65 units and one of 64, under the ids 0 to 4.
fn add_long(rt: &impl Abort, w: &mut World) {
    for unit in 0..4 {
        intern(rt, w, &[unit; 65]);
    }
    intern(rt, w, &[4; 64]);
}

// ---- rows

#[test]
fn an_array_gets_its_length(rt: HostRuntime) {
    let mut w = world(&rt, rt.alloc());
    intern(&rt, &mut w, &[97]);
    let first = make(&rt, &mut w, Side::LEFT, CellKind::Array);
    let second = make(&rt, &mut w, Side::RIGHT, CellKind::Array);
    are_properties(&rt, &w, first, &[Some((1, 0)), None, None]);
    are_properties(&rt, &w, second, &[Some((1, 0)), None, None]);
    are_texts(&rt, &w, 2);
}

const PROXY: CellKind = CellKind::Membrane {
    behind: ObjId(0),
    shadow: ObjId(1),
};

const CELLS: [(Side, CellKind); 5] = [
    (Side::LEFT, CellKind::Plain),
    (Side::RIGHT, CellKind::Shadow(Shape::Plain)),
    (Side::RIGHT, PROXY),
    (Side::RIGHT, PROXY),
    (Side::RIGHT, CellKind::Plain),
];

const SERIALS: [(ObjId, Option<u32>); 5] = [
    (ObjId(0), Some(0)),
    (ObjId(1), None),
    (ObjId(2), None),
    (ObjId(3), None),
    (ObjId(4), Some(1)),
];

#[test]
fn numbers_go_on_over_proxies_and_shadows(rt: HostRuntime) {
    let mut w = world(&rt, rt.alloc());
    make_all(&rt, &mut w, &CELLS);
    are_serials(&rt, &w, &SERIALS);
    are_objects(
        &rt,
        &w,
        &[(0, Some(ObjId(0))), (1, Some(ObjId(4))), (2, None)],
    );
}

#[test]
fn the_first_proxy_is_found(rt: HostRuntime) {
    let mut w = world(&rt, rt.alloc());
    make_all(&rt, &mut w, &CELLS);
    is_proxy(&rt, &w, Side::RIGHT, Some(ObjId(2)));
    is_proxy(&rt, &w, Side::LEFT, None);
}

#[test]
fn a_joined_world_has_one_built_in(rt: HostRuntime) {
    let mut w = world(&rt, rt.alloc());
    make(&rt, &mut w, Side::RIGHT, CellKind::BuiltIn(7));
    is_built_in(&rt, &w, Side::LEFT, None);
    make(&rt, &mut w, Side::LEFT, CellKind::BuiltIn(7));
    is_built_in(&rt, &w, Side::LEFT, Some(ObjId(1)));
    w.set_joined();
    is_built_in(&rt, &w, Side::LEFT, Some(ObjId(0)));
    is_built_in(&rt, &w, Side::RIGHT, Some(ObjId(0)));
}

const LONG: [(u32, Option<u32>); 6] = [
    (1, Some(1)),
    (2, Some(2)),
    (0, Some(3)),
    (3, Some(4)),
    (4, None),
    (5, None),
];

#[test]
fn long_texts_are_numbered_by_first_appearance(rt: HostRuntime) {
    let mut w = world(&rt, rt.alloc());
    add_long(&rt, &mut w);
    add_entry(&rt, &mut w, 1, 2, 0);
    add_entry(&rt, &mut w, 4, 0, 3);
    are_long(&rt, &w, &LONG);
}

#[test]
fn jobs_come_in_order(rt: HostRuntime) {
    let mut w = world(&rt, rt.alloc());
    are_calls(&rt, &mut w, &[(Side::LEFT, None)]);
    add_call(&rt, &mut w, 7);
    add_call(&rt, &mut w, 8);
    are_calls(&rt, &mut w, &[(Side::RIGHT, None), (Side::LEFT, Some(7))]);
    are_calls(&rt, &mut w, &[(Side::LEFT, Some(8)), (Side::LEFT, None)]);
}

#[test]
fn a_removal_keeps_the_order(rt: HostRuntime) {
    let mut w = world(&rt, rt.alloc());
    intern(&rt, &mut w, &[97]);
    intern(&rt, &mut w, &[98]);
    intern(&rt, &mut w, &[99]);
    let id = make(&rt, &mut w, Side::LEFT, CellKind::Plain);
    put_all(&rt, &mut w, id, &[(0, 1), (1, 2), (2, 3), (0, 4)]);
    assert!(rt; remove(&rt, &mut w, id, 1));
    assert!(rt; !remove(&rt, &mut w, id, 1));
    are_properties(&rt, &w, id, &[Some((0, 4)), Some((2, 3)), None]);
}

#[test]
fn a_slot_is_written_or_is_the_last(rt: HostRuntime) {
    let mut w = world(&rt, rt.alloc());
    let id = make(&rt, &mut w, Side::LEFT, CellKind::Collection(Coll::Set));
    set_slots(
        &rt,
        &mut w,
        id,
        &[(0, false), (1, true), (0, true), (1, false)],
    );
    are_slots(&rt, &w, id, &[Some(true), Some(false), None]);
}

#[test]
fn a_name_has_its_first_place(rt: HostRuntime) -> Result<(), Fail> {
    let mut names = Names::new(rt.alloc());
    for name in 0..12 {
        names.push(Bound {
            name: StrId(name % 4),
            value: None,
            fixed: name > 5,
        })?;
        assert_eq!(rt; names.place_of(StrId(0)), Some(0));
        assert_eq!(rt; names.place_of(StrId(4)), None);
    }
    assert_eq!(rt; names.place_of(StrId(3)), Some(3));
    assert_eq!(rt; names.len(), 12);
    Ok(())
}

#[test]
fn scopes_and_symbols_are_counted(rt: HostRuntime) {
    let mut w = world(&rt, rt.alloc());
    let scope = add_scope(&rt, &mut w, rt.alloc());
    let symbol = make_symbol(&rt, &mut w);
    assert_eq!(rt; (scope.0, w.scopes()), (0, 1));
    assert_eq!(rt; (symbol.0, w.symbols()), (0, 1));
}

#[test]
fn texts_are_joined_and_spelled(rt: HostRuntime) {
    let mut w = world(&rt, rt.alloc());
    let minus = intern(&rt, &mut w, &[45]);
    let ten = of_whole(&rt, &mut w, 10);
    let both = join(&rt, &mut w, minus, ten);
    assert_eq!(rt; of_whole(&rt, &mut w, -10), both);
}

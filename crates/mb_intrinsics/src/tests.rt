// Furnished worlds.
ghost use Rattle.std.specs.Prelude.{◌<◌, length};
ghost use Rattle.mb_world.specs.Ids.{ObjIn};

use super::*;
use crate::places::{OBJECT_CREATE, OBJECT_PROTOTYPE, SET_PROTOTYPE_SIZE};
use mb_base::{ObjId, ScopeId, Side, Value};
use mb_desc::Full;
use mb_world::World;
use std::alloc::Global;
use std::process::Abort;

const MEMORY: &str = "there is memory";

// A fresh world with so many sides.
fn apart(rt: &impl Abort, alloc: Global, sides: u8) -> World {
    assert!(rt; sides >= 2 && sides <= 8);
    let mut w = World::new(alloc).expect(rt, MEMORY);
    furnish(&mut w, sides).expect(rt, MEMORY);
    w
}

fn joined(rt: &impl Abort, alloc: Global) -> World {
    let mut w = World::new(alloc).expect(rt, MEMORY);
    w.set_joined();
    furnish(&mut w, 2).expect(rt, MEMORY);
    w
}

fn there(rt: &impl Abort, w: &World, id: u32)
    ensures { id < length w.now.cells }
{
    assert!(rt; id < w.cells());
}

// How many cells there are, and which one is `desk`.
fn counts(rt: &impl Abort, w: &World, cells: u32) {
    assert!(rt; cells > 0);
    assert_eq!(rt; w.cells(), cells);
    assert_eq!(rt; w.object(0), Some(ObjId(cells - 1)));
    assert_eq!(rt; w.objects(), 1);
}

// Whether a cell takes properties, and its prototype.
fn shape(rt: &impl Abort, w: &World, id: u32) -> (bool, Value) {
    there(rt, w, id);
    let cell = w.cell(ObjId(id));
    (cell.extensible, cell.proto)
}

// What the property at a place of a cell has as its value.
fn value(rt: &impl Abort, w: &World, id: u32, place: u32) -> Option<Value> {
    there(rt, w, id);
    match w.cell(ObjId(id)).props.at(place) {
        Some((_, Full::Datum { value, .. })) => Some(value),
        _ => None,
    }
}

// Binds the names of a side, and tells how many there are and what one has as its value.
fn named(rt: &impl Abort, w: &mut World, side: Side, place: usize) -> (usize, Option<Value>) {
    assert!(rt; side.0 < 8);
    there(rt, w, 160);
    bind_names(w, side, Value::Object(ObjId(160))).expect(rt, MEMORY);
    assert!(rt; w.scopes() > 0);
    let scope = w.scope(ScopeId(w.scopes() - 1));
    assert_eq!(rt; scope.home, side);
    let value = scope.names.at(place).and_then(|bound| bound.value);
    (scope.names.len(), value)
}

fn object(id: u32) -> Value {
    Value::Object(ObjId(id))
}

#[test]
fn each_side_has_its_own(rt: HostRuntime) {
    let w = apart(&rt, rt.alloc(), 2);
    counts(&rt, &w, 161);
    assert_eq!(rt; w.sides(), 2);
    assert_eq!(rt; w.built_in(Side::RIGHT, OBJECT_CREATE), Some(ObjId(95)));
    assert_eq!(rt; w.built_in(Side::LEFT, SET_PROTOTYPE_SIZE), Some(ObjId(74)));
    assert_eq!(rt; shape(&rt, &w, 83), (false, object(92)));
    assert_eq!(rt; shape(&rt, &w, 93), (false, Value::Null));
    assert_eq!(rt; shape(&rt, &w, 160), (true, object(13)));
    assert_eq!(rt; value(&rt, &w, 83, 0), Some(Value::Whole(1)));
    assert_eq!(rt; value(&rt, &w, 83, 12), Some(object(136)));
    assert_eq!(rt; value(&rt, &w, 83, 13), None);
}

#[test]
fn eight_sides(rt: HostRuntime) {
    let w = apart(&rt, rt.alloc(), 8);
    counts(&rt, &w, 641);
    assert_eq!(rt; w.built_in(Side(7), OBJECT_PROTOTYPE), Some(ObjId(573)));
}

#[test]
fn in_a_joined_world_one_set_serves_both(rt: HostRuntime) {
    let w = joined(&rt, rt.alloc());
    counts(&rt, &w, 81);
    assert_eq!(rt; w.built_in(Side::RIGHT, OBJECT_CREATE), Some(ObjId(15)));
}

#[test]
fn names_are_bound(rt: HostRuntime) {
    let mut w = apart(&rt, rt.alloc(), 2);
    assert_eq!(rt;
        named(&rt, &mut w, Side::RIGHT, 12),
        (14, Some(object(135)))
    );
    assert_eq!(rt; named(&rt, &mut w, Side::LEFT, 13), (14, Some(object(160))));
    assert_eq!(rt; w.scopes(), 2);
}

// Rows over small worlds of three sides. Before a call its condition is tested.
ghost use Rattle.std.specs.Prelude.{◌≡◌, ◌<◌, true, false, None};
ghost use Rattle.mb_base.specs.declared.value.Value.TheVariants.{Null};
ghost use Rattle.mb_world.specs.declared.cell.CellKind.TheVariants.{BuiltIn};
ghost use Rattle.mb_world.specs.Data.{made};
ghost use Rattle.mb_maps.specs.Crossed.{CanCross};

mod asked;

use crate::{behind, cross, cross_full};
use asked::{foreign, full_foreign, full_there, ids, object_kind, there, value_there};
use mb_base::{NodeId, ObjId, ScopeId, Side, StrId, SymId, Value};
use mb_desc::Full;
use mb_world::{CellKind, Code, Coll, ErrorKind, Names, Scope, Shape, World};
use std::alloc::Global;
use std::process::Abort;

const MEMORY: &str = "there is memory";

const FIRST: Side = Side(0);

const SECOND: Side = Side(1);

const THIRD: Side = Side(2);

// ---- calls

fn built_in(rt: &impl Abort, w: &mut World, side: Side)
    requires { side.0 < 8 }
    ensures { w.new ≡ made w.old side (BuiltIn 0) Null None }
{
    w.make(side, CellKind::BuiltIn(0), Value::Null, None)
        .expect(rt, MEMORY);
}

// A text, a symbol, a scope, and each side's own built-in of the place 0, under the ids 0 to 2.
fn world(rt: &impl Abort, alloc: Global) -> World
    ensures { CanCross result }
{
    let mut w = World::new(alloc).expect(rt, MEMORY);
    w.set_sides(3);
    w.intern(&[97]).expect(rt, MEMORY);
    w.make_symbol(None).expect(rt, MEMORY);
    let scope = Scope {
        home: FIRST,
        parent: None,
        names: Names::new(alloc),
    };
    w.add_scope(scope).expect(rt, MEMORY);
    built_in(rt, &mut w, FIRST);
    built_in(rt, &mut w, SECOND);
    built_in(rt, &mut w, THIRD);
    w
}

// A joined world of two sides, with one built-in of the place 0 and an object.
fn joined_world(rt: &impl Abort, alloc: Global) -> World
    ensures { result.joined ≡ true }
{
    let mut w = World::new(alloc).expect(rt, MEMORY);
    w.set_sides(2);
    w.set_joined();
    built_in(rt, &mut w, FIRST);
    w.make(FIRST, CellKind::Plain, Value::Null, None)
        .expect(rt, MEMORY);
    w
}

fn object(rt: &impl Abort, w: &mut World, home: Side, kind: CellKind) -> ObjId
    requires { CanCross w.old }
    ensures { CanCross w.new }
{
    assert!(rt; home.0 < 8);
    let kind = object_kind(rt, w, home, kind);
    ids(w);
    w.make(home, kind, Value::Null, None).expect(rt, MEMORY)
}

fn crosses(rt: &impl Abort, w: &mut World, value: Value, to: Side) -> Value
    requires { w.old.joined ≡ false → CanCross w.old }
    ensures joined { w.new.joined ≡ w.old.joined }
    ensures can_cross { CanCross w.old → CanCross w.new }
{
    assert!(rt; to.0 < w.sides());
    value_there(rt, w, value);
    foreign(rt, w, to, value);
    cross(w, value, to).expect(rt, MEMORY)
}

fn full_crosses(rt: &impl Abort, w: &mut World, full: Full<Value>, to: Side) -> Full<Value>
    requires { w.old.joined ≡ false → CanCross w.old }
    ensures joined { w.new.joined ≡ w.old.joined }
    ensures can_cross { CanCross w.old → CanCross w.new }
{
    assert!(rt; to.0 < w.sides());
    full_there(rt, w, full);
    full_foreign(rt, w, to, full);
    cross_full(w, full, to).expect(rt, MEMORY)
}

fn object_behind(rt: &impl Abort, w: &World, id: ObjId) -> Option<ObjId> {
    there(rt, w, id);
    behind(w, id)
}

// The shape of a proxy's shadow, which is of the same home and holds nothing.
fn shadow_shape(rt: &impl Abort, w: &World, proxy: ObjId) -> Option<Shape> {
    there(rt, w, proxy);
    match w.cell(proxy).kind {
        CellKind::Membrane { shadow, .. } => {
            there(rt, w, shadow);
            assert!(rt; w.home(shadow).0 == w.home(proxy).0);
            let cell = w.cell(shadow);
            assert!(rt; cell.extensible && cell.props.at(0).is_none());
            shape_of(cell.kind)
        }
        _ => None,
    }
}

fn shape_of(kind: CellKind) -> Option<Shape> {
    match kind {
        CellKind::Shadow(shape) => Some(shape),
        _ => None,
    }
}

// ---- tables

// What crosses, to which side, and what that has for it.
fn cross_all(rt: &impl Abort, w: &mut World, rows: &[(u32, Side, u32)])
    requires { CanCross w.old }
    ensures { CanCross w.new }
{
    for (id, to, want) in rows {
        let own = crosses(rt, w, Value::Object(ObjId(*id)), *to);
        assert_eq!(rt; own, Value::Object(ObjId(*want)), "{id}");
    }
}

fn cross_as_they_are(rt: &impl Abort, w: &mut World, to: Side, values: &[Value])
    requires { w.old.joined ≡ false → CanCross w.old }
{
    for value in values {
        assert_eq!(rt; crosses(rt, w, *value, to), *value);
    }
}

// A kind of object, and the shape of the shadow of the second side's proxy of it.
fn are_shapes(rt: &impl Abort, w: &mut World, rows: &[(CellKind, Shape)])
    requires { CanCross w.old }
{
    for (kind, shape) in rows {
        let id = object(rt, w, FIRST, *kind);
        crosses(rt, w, Value::Object(id), SECOND);
        let proxy = ObjId(id.0.wrapping_add(2));
        assert_eq!(rt; object_behind(rt, w, proxy), Some(id));
        assert_eq!(rt; shadow_shape(rt, w, proxy), Some(*shape));
    }
}

fn are_behind(rt: &impl Abort, w: &World, rows: &[(u32, Option<ObjId>)]) {
    for (id, object) in rows {
        assert_eq!(rt; object_behind(rt, w, ObjId(*id)), *object);
    }
}

fn are_cells(rt: &impl Abort, w: &World, count: u32) {
    assert_eq!(rt; w.cells(), count);
}

fn crosses_to(rt: &impl Abort, w: &mut World, to: Side, full: Full<Value>, want: Full<Value>)
    requires { w.old.joined ≡ false → CanCross w.old }
    ensures joined { w.new.joined ≡ w.old.joined }
    ensures can_cross { CanCross w.old → CanCross w.new }
{
    assert_eq!(rt; full_crosses(rt, w, full, to), want);
}

// ---- rows

#[test]
fn an_object_has_one_proxy_on_each_side(rt: HostRuntime) {
    let mut w = world(&rt, rt.alloc());
    object(&rt, &mut w, FIRST, CellKind::Plain);
    let rows = [
        (3, SECOND, 5),
        (3, SECOND, 5),
        (3, THIRD, 7),
        (3, SECOND, 5),
        (3, THIRD, 7),
    ];
    cross_all(&rt, &mut w, &rows);
    are_cells(&rt, &w, 8);
}

#[test]
fn of_a_proxy_the_object_behind_crosses(rt: HostRuntime) {
    let mut w = world(&rt, rt.alloc());
    object(&rt, &mut w, FIRST, CellKind::Plain);
    let rows = [
        (3, SECOND, 5),
        (5, FIRST, 3),
        (5, THIRD, 7),
        (7, FIRST, 3),
        (7, SECOND, 5),
    ];
    cross_all(&rt, &mut w, &rows);
    let behind = [
        (0, None),
        (3, None),
        (4, None),
        (5, Some(ObjId(3))),
        (7, Some(ObjId(3))),
    ];
    are_behind(&rt, &w, &behind);
}

#[test]
fn two_objects_have_two_proxies(rt: HostRuntime) {
    let mut w = world(&rt, rt.alloc());
    object(&rt, &mut w, FIRST, CellKind::Plain);
    object(&rt, &mut w, THIRD, CellKind::Plain);
    let rows = [
        (3, SECOND, 6),
        (4, SECOND, 8),
        (4, FIRST, 10),
        (6, THIRD, 12),
        (8, FIRST, 10),
    ];
    cross_all(&rt, &mut w, &rows);
}

#[test]
fn a_built_in_crosses_as_the_own_one(rt: HostRuntime) {
    let mut w = world(&rt, rt.alloc());
    let rows = [(0, SECOND, 1), (1, FIRST, 0), (1, THIRD, 2), (2, FIRST, 0)];
    cross_all(&rt, &mut w, &rows);
    are_cells(&rt, &w, 3);
}

const CODE: Code = Code {
    side: FIRST,
    node: NodeId(0),
    scope: ScopeId(0),
    constructs: false,
    bound_this: None,
};

const CONSTRUCTS: Code = Code {
    constructs: true,
    ..CODE
};

const SHAPES: [(CellKind, Shape); 9] = [
    (CellKind::Plain, Shape::Plain),
    (CellKind::Array, Shape::Array),
    (CellKind::Function(CODE), Shape::Calls),
    (CellKind::Function(CONSTRUCTS), Shape::Constructs),
    (CellKind::Fault(ErrorKind::TypeError), Shape::Plain),
    (CellKind::Collection(Coll::Map), Shape::Plain),
    // of the array, with the plain object as its handler
    (
        CellKind::Proxy {
            target: Some(ObjId(6)),
            handler: Some(ObjId(3)),
            shape: Shape::Array,
        },
        Shape::Array,
    ),
    (CellKind::Revoker(ObjId(21)), Shape::Calls),
    (
        CellKind::Proxy {
            target: None,
            handler: None,
            shape: Shape::Constructs,
        },
        Shape::Constructs,
    ),
];

#[test]
fn a_shadow_has_the_shape_of_the_object(rt: HostRuntime) {
    let mut w = world(&rt, rt.alloc());
    are_shapes(&rt, &mut w, &SHAPES);
}

const PRIMITIVES: [Value; 6] = [
    Value::Undefined,
    Value::Null,
    Value::Bool(true),
    Value::Whole(-7),
    Value::Text(StrId(0)),
    Value::Symbol(SymId(0)),
];

#[test]
fn a_primitive_crosses_as_it_is(rt: HostRuntime) {
    let mut w = world(&rt, rt.alloc());
    cross_as_they_are(&rt, &mut w, SECOND, &PRIMITIVES);
    are_cells(&rt, &w, 3);
}

const OBJECTS: [Value; 3] = [
    Value::Object(ObjId(0)),
    Value::Object(ObjId(1)),
    Value::Null,
];

const DATUM: Full<Value> = Full::Datum {
    value: Value::Object(ObjId(1)),
    writable: true,
    enumerable: false,
    configurable: true,
};

#[test]
fn in_a_joined_world_nothing_changes(rt: HostRuntime) {
    let mut w = joined_world(&rt, rt.alloc());
    crosses_to(&rt, &mut w, SECOND, DATUM, DATUM);
    cross_as_they_are(&rt, &mut w, SECOND, &OBJECTS);
    are_cells(&rt, &w, 2);
}

fn datum(id: u32) -> Full<Value> {
    Full::Datum {
        value: Value::Object(ObjId(id)),
        writable: false,
        enumerable: true,
        configurable: false,
    }
}

fn accessor(get: Value, set: Value) -> Full<Value> {
    Full::Accessor {
        get,
        set,
        enumerable: true,
        configurable: false,
    }
}

fn getter(id: u32) -> Full<Value> {
    accessor(Value::Object(ObjId(id)), Value::Undefined)
}

fn both(get: u32, set: u32) -> Full<Value> {
    accessor(Value::Object(ObjId(get)), Value::Object(ObjId(set)))
}

#[test]
fn a_whole_property_crosses(rt: HostRuntime) {
    let mut w = world(&rt, rt.alloc());
    object(&rt, &mut w, FIRST, CellKind::Function(CODE));
    object(&rt, &mut w, FIRST, CellKind::Function(CODE));
    crosses_to(&rt, &mut w, SECOND, both(3, 4), both(6, 8));
    crosses_to(&rt, &mut w, SECOND, getter(4), getter(8));
    crosses_to(&rt, &mut w, FIRST, both(6, 8), both(3, 4));
    crosses_to(&rt, &mut w, THIRD, datum(8), datum(10));
    crosses_to(&rt, &mut w, SECOND, datum(10), datum(8));
    are_cells(&rt, &w, 11);
}

// What can be called and what constructs (ECMA-262, 7.2.3, 7.2.4).
ghost use Rattle.std.specs.Prelude.{◌≡◌, [], List, IfSome, is_some, slice_get};
ghost use Rattle.mb_world.specs.Graph.{Item};
ghost use Rattle.mb_world.specs.Ids.{ObjIn, ValueIn};
ghost use Rattle.mb_world.specs.Image.{Image, Names, Resolve, kind_in, names_of, object_in};
ghost use Rattle.mb_world.specs.Intrinsics.{intrinsic};
ghost use Rattle.mb_world.specs.Objects.{intrinsic_is, is_callable, is_constructor, kind_calls as calls_by};
ghost use Rattle.mb_world.specs.Objects.{shape_calls as calls_as, shape_constructs as constructs_as};
ghost use Rattle.mb_world.specs.Objects.{kind_constructs as constructs_by};
ghost use Rattle.mb_world.specs.Standard.{calls, constructs};
ghost use Rattle.mb_world.specs.declared.cell.CellKind.{CellKind};
ghost use Rattle.mb_base.specs.declared.value.Value.TheVariants as Value;
ghost use Rattle.mb_frames.specs.Real.{IsReal, IsRealAt};
ghost use Rattle.mb_parts.specs.machine.Marks.{mark_of};

use mb_base::{ObjId, Value};
use mb_world::{CellKind, Shape, World};

// Which built-ins can be called, and which construct, by place.
const CALLED: [bool; 80] = [
    true, true, true, true, true, false, true, true, true, true, true, true, false, false, true,
    true, true, true, true, true, true, true, true, true, false, true, true, true, true, true,
    true, true, true, true, true, true, true, true, true, true, true, true, true, true, true, true,
    true, true, true, false, false, false, false, true, true, true, true, true, true, true, false,
    true, true, true, true, true, true, true, false, true, true, true, true, true, true, false,
    true, true, true, true,
];

const CONSTRUCTING: [bool; 80] = [
    false, false, false, true, true, false, true, false, true, true, true, true, false, false,
    false, false, false, false, false, false, false, false, false, false, false, false, false,
    false, false, false, false, false, false, false, false, false, false, false, false, false,
    false, false, false, false, false, false, false, false, false, false, false, false, false,
    false, false, false, false, true, true, true, false, false, false, false, false, false, false,
    false, false, false, false, false, false, false, false, false, false, false, false, false,
];

// The mark at that place.
fn marked(marks: &[bool], place: u16) -> bool
    ensures { result ≡ mark_of (slice_get marks.now place) }
{
    match marks.get(place as usize) {
        Some(mark) => *mark,
        None => false,
    }
}

// Whether the built-in at that place can be called.
fn built_in_calls(place: u16) -> bool
    ensures { result ≡ intrinsic_is calls (intrinsic place) }
{
    marked(&CALLED, place)
}

// Whether the built-in at that place constructs.
fn built_in_constructs(place: u16) -> bool
    ensures { result ≡ intrinsic_is constructs (intrinsic place) }
{
    marked(&CONSTRUCTING, place)
}

fn kind_calls(kind: &CellKind) -> bool
    ensures { (n : Names) → result ≡ calls_by (kind_in n [] kind.now) }
{
    match kind {
        CellKind::Function(_) => true,
        CellKind::BuiltIn(place) => built_in_calls(*place),
        CellKind::Proxy { shape, .. } => shape_calls(*shape),
        CellKind::Revoker(_) => true,
        _ => false,
    }
}

fn kind_constructs(kind: &CellKind) -> bool
    ensures { (n : Names) → result ≡ constructs_by (kind_in n [] kind.now) }
{
    match kind {
        CellKind::Function(code) => code.constructs,
        CellKind::BuiltIn(place) => built_in_constructs(*place),
        CellKind::Proxy { shape, .. } => shape_constructs(*shape),
        _ => false,
    }
}

fn shape_calls(shape: Shape) -> bool
    ensures { result ≡ calls_as shape }
{
    match shape {
        Shape::Plain | Shape::Array => false,
        Shape::Calls | Shape::Constructs => true,
    }
}

fn shape_constructs(shape: Shape) -> bool
    ensures { result ≡ constructs_as shape }
{
    match shape {
        Shape::Plain | Shape::Array | Shape::Calls => false,
        Shape::Constructs => true,
    }
}

// The kind of an object, or of the one behind a proxy of the membrane.
fn real_kind(w: &World, object: ObjId) -> &CellKind
    requires object { ObjIn w.now object }
    requires real { IsRealAt w.now object }
    ensures calls { (log : List Item) → is_callable (Image w.now log) (object_in (names_of w.now) object)
        ≡ calls_by (kind_in (names_of w.now) [] result.now) }
    ensures constructs { (log : List Item) → is_constructor (Image w.now log) (object_in (names_of w.now) object)
        ≡ constructs_by (kind_in (names_of w.now) [] result.now) }
{
    match &w.cell(object).kind {
        CellKind::Membrane { behind, .. } => &w.cell(*behind).kind,
        kind => kind,
    }
}

/// The object that a value is, where it can be called (IsCallable, ECMA-262, 7.2.3).
pub fn callable(w: &World, x: Value) -> Option<ObjId>
    requires value { ValueIn w.now x }
    requires real { IsReal w.now x }
    ensures calls { (log : List Item) → is_callable (Image w.now log) (Resolve (names_of w.now) x) ≡ is_some result }
    ensures object { IfSome result (λ id. x ≡ Value.Object id) }
{
    match x {
        Value::Object(object) => {
            if kind_calls(real_kind(w, object)) {
                Some(object)
            } else {
                None
            }
        }
        _ => None,
    }
}

/// The object that a value is, where it constructs (IsConstructor, ECMA-262, 7.2.4).
pub fn constructor(w: &World, x: Value) -> Option<ObjId>
    requires value { ValueIn w.now x }
    requires real { IsReal w.now x }
    ensures constructs { (log : List Item) → is_constructor (Image w.now log) (Resolve (names_of w.now) x)
        ≡ is_some result }
    ensures object { IfSome result (λ id. x ≡ Value.Object id) }
{
    match x {
        Value::Object(object) => {
            if kind_constructs(real_kind(w, object)) {
                Some(object)
            } else {
                None
            }
        }
        _ => None,
    }
}

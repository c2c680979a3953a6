// What the calls ask, tested before them.
ghost use Rattle.std.specs.Prelude.{◌≡◌, true, false, All};
ghost use Rattle.mb_world.specs.Data.{is_counted, kind_stand};
ghost use Rattle.mb_world.specs.Ids.{HasItsIds, ObjIn, ValueIn, FullIn, KindIn};
ghost use Rattle.mb_world.specs.Contained.{IsOwn, in_kind};
ghost use Rattle.mb_maps.specs.Crossing.{IsOfAnother, IsForeign, IsFullForeign};

use mb_base::{ObjId, Side, Value};
use mb_desc::Full;
use mb_world::{CellKind, Code, World};
use std::process::Abort;

pub(super) fn there(rt: &impl Abort, w: &World, id: ObjId)
    ensures { ObjIn w.now id }
{
    assert!(rt; id.0 < w.cells());
}

pub(super) fn value_there(rt: &impl Abort, w: &World, value: Value)
    ensures { ValueIn w.now value }
{
    match value {
        Value::Object(id) => there(rt, w, id),
        Value::Text(text) => assert!(rt; (text.0 as usize) < w.texts().len()),
        Value::Symbol(symbol) => assert!(rt; symbol.0 < w.symbols()),
        _ => {}
    }
}

// The cell is no shadow, and the side's own.
fn own(rt: &impl Abort, w: &World, side: Side, id: ObjId)
    ensures within { ObjIn w.now id }
    ensures own { IsOwn w.now side id }
{
    there(rt, w, id);
    let cell = w.cell(id);
    assert!(rt; cell.home.0 == side.0);
    assert!(rt; !matches!(cell.kind, CellKind::Shadow(_)));
}

// The cell is no shadow, and another side's.
fn of_another(rt: &impl Abort, w: &World, side: Side, id: ObjId)
    ensures { IsOfAnother w.now side id }
{
    there(rt, w, id);
    let cell = w.cell(id);
    assert!(rt; cell.home.0 != side.0);
    assert!(rt; !matches!(cell.kind, CellKind::Shadow(_)));
}

pub(super) fn foreign(rt: &impl Abort, w: &World, side: Side, value: Value)
    ensures { w.now.joined ≡ false → IsForeign w.now side value }
{
    if w.joined() {
        return;
    }
    if let Value::Object(id) = value {
        of_another(rt, w, side, id);
    }
}

pub(super) fn full_there(rt: &impl Abort, w: &World, full: Full<Value>)
    ensures { FullIn w.now full }
{
    match full {
        Full::Datum { value, .. } => value_there(rt, w, value),
        Full::Accessor { get, set, .. } => {
            value_there(rt, w, get);
            value_there(rt, w, set);
        }
    }
}

pub(super) fn full_foreign(rt: &impl Abort, w: &World, side: Side, full: Full<Value>)
    ensures { w.now.joined ≡ false → IsFullForeign w.now side full }
{
    match full {
        Full::Datum { value, .. } => foreign(rt, w, side, value),
        Full::Accessor { get, set, .. } => {
            foreign(rt, w, side, get);
            foreign(rt, w, side, set);
        }
    }
}

// An object's kind, whose references are the side's own.
pub(super) fn object_kind(rt: &impl Abort, w: &World, side: Side, kind: CellKind) -> CellKind
    ensures within { KindIn w.now result }
    ensures object { is_counted (kind_stand result) ≡ true }
    ensures own { All (IsOwn w.now side) (in_kind result) }
{
    match kind {
        CellKind::Array => CellKind::Array,
        CellKind::Fault(error) => CellKind::Fault(error),
        CellKind::Collection(which) => CellKind::Collection(which),
        CellKind::Function(code) => {
            assert!(rt; code.scope.0 < w.scopes());
            CellKind::Function(Code {
                bound_this: None,
                ..code
            })
        }
        CellKind::Revoker(proxy) => {
            own(rt, w, side, proxy);
            CellKind::Revoker(proxy)
        }
        CellKind::Proxy {
            target: Some(target),
            handler: Some(handler),
            shape,
        } => {
            own(rt, w, side, target);
            own(rt, w, side, handler);
            CellKind::Proxy {
                target: Some(target),
                handler: Some(handler),
                shape,
            }
        }
        CellKind::Proxy { shape, .. } => CellKind::Proxy {
            target: None,
            handler: None,
            shape,
        },
        _ => CellKind::Plain,
    }
}

pub(super) fn ids(w: &World)
    ensures { HasItsIds w.now }
{
    w.texts();
}

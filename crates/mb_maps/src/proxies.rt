// What a side has for an object that is no membrane proxy, and how a new proxy is made.
ghost use Rattle.std.specs.Prelude.{◌≡◌, ◌⊎◌, ◌<◌, ◌+◌, length, true, false, IsSomeAnd, IfOk, IfSome, OnOk, OnErr};
ghost use Rattle.mb_world.specs.Data.{cell_at, obj_id, is_object_cell};
ghost use Rattle.mb_world.specs.Ids.{ObjIn};
ghost use Rattle.mb_maps.specs.Crossing.{object_for, with_shadow, with_proxy, halted};
ghost use Rattle.mb_maps.specs.Crossed.{CanCross};
ghost use Rattle.mb_maps.specs.machine.Shapes.{shape_by};

use mb_base::{NoMemory, ObjId, Side, Value};
use mb_world::{CellKind, Shape, World};

// What a side has for an object that is no membrane proxy, or `None` where that is a proxy still to be made.
pub(crate) fn object_for(w: &World, id: ObjId, side: Side) -> Option<ObjId>
    requires object { ObjIn w.now id }
    requires side { side.0 < w.now.sides }
    requires apart { w.now.joined ≡ false }
    requires world { CanCross w.now }
    ensures value { result ≡ object_for w.now side id }
    ensures within { IfSome result (ObjIn w.now) }
{
    if matches!(w.cell(id).kind, CellKind::BuiltIn(_)) {
        Some(w.same_on(side, id))
    } else if w.home(id) == side {
        Some(id)
    } else {
        w.proxy_of(side, id)
    }
}

// The side's new proxy of an object. A refusal halts the world.
pub(crate) fn make_proxy(w: &mut World, id: ObjId, side: Side) -> Result<ObjId, NoMemory>
    requires object { IsSomeAnd (cell_at w.old id) (λ c. is_object_cell c ≡ true) }
    requires side { side.0 < 8 }
    ensures made { OnOk result (w.new ≡ with_proxy w.old side id) }
    ensures id { IfOk result (λ p. p ≡ obj_id (length w.old.cells + 1)) }
    ensures refused { OnErr result ((w.new ≡ halted w.old) ⊎ (w.new ≡ halted (with_shadow w.old side id))) }
{
    match make_both(w, id, side) {
        Ok(proxy) => Ok(proxy),
        Err(refused) => {
            w.halt();
            Err(refused)
        }
    }
}

// A shadow, and the proxy whose shadow it is.
fn make_both(w: &mut World, id: ObjId, side: Side) -> Result<ObjId, NoMemory>
    requires object { IsSomeAnd (cell_at w.old id) (λ c. is_object_cell c ≡ true) }
    requires side { side.0 < 8 }
    ensures made { OnOk result (w.new ≡ with_proxy w.old side id) }
    ensures id { IfOk result (λ p. p ≡ obj_id (length w.old.cells + 1)) }
    ensures refused { OnErr result ((w.new ≡ w.old) ⊎ (w.new ≡ with_shadow w.old side id)) }
{
    let shape = shape_of(&w.cell(id).kind);
    let shadow = w.make(side, CellKind::Shadow(shape), Value::Null, None)?;
    let kind = CellKind::Membrane { behind: id, shadow };
    let proxy = w.make(side, kind, Value::Null, None)?;
    Ok(proxy)
}

// What the object is for whoever calls it or asks whether it is an array.
fn shape_of(kind: &CellKind) -> Shape
    ensures { result ≡ shape_by kind.now }
{
    match *kind {
        CellKind::Array => Shape::Array,
        CellKind::Function(code) if code.constructs => Shape::Constructs,
        CellKind::Function(_) | CellKind::Revoker(_) => Shape::Calls,
        CellKind::Proxy { shape, .. } => shape,
        _ => Shape::Plain,
    }
}

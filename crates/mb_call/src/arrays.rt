// IsArray (ECMA-262, 7.2.2).
ghost use Rattle.std.specs.Prelude.{◌≡◌, Bool, List};
ghost use Rattle.mb_frames.specs.Ready.{IsReady};
ghost use Rattle.mb_model.specs.Operations.Calls.{array_target, array_thing_is, is_array};
ghost use Rattle.mb_model.specs.Writing.{Row};
ghost use Rattle.mb_world.specs.Graph.{Graph, Item};
ghost use Rattle.mb_world.specs.Ids.{ObjIn, ValueIn};
ghost use Rattle.mb_world.specs.Image.{Image, Resolve, names_of, object_at};
ghost use Rattle.mb_call.specs.Arrays.{answer_of};
ghost use Rattle.mb_frames.specs.Real.{IsReal};
ghost use Rattle.mb_call.specs.machine.Standing.{IsNumbered, real};

use mb_base::{ObjId, Side, Value};
use mb_rules::cut;
use mb_world::{CellKind, World};

/// IsArray of a value, for a side. `None` stands for a TypeError of that side: the object, or the target of a
/// script-made Proxy, is cut off for it, or the Proxy is revoked.
pub fn is_array(w: &World, side: Side, x: Value) -> Option<bool>
    requires ready { IsReady w.now }
    requires value { ValueIn w.now x }
    requires real { IsReal w.now x }
    ensures { (log : List Item) (k : Bool → Graph → Row) →
        is_array side.0 (Resolve (names_of w.now) x) k (Image w.now log) ≡ answer_of side.0 result k (Image w.now log) }
{
    match x {
        Value::Object(id) => object_is_array(w, side, real(w, id)),
        _ => Some(false),
    }
}

// The object that a reference stands for: that behind a membrane proxy.
fn real(w: &World, id: ObjId) -> ObjId
    requires { ObjIn w.now id }
    ensures real { result ≡ real w.now id }
    ensures within { ObjIn w.now result }
{
    match w.cell(id).kind {
        CellKind::Membrane { behind, .. } => behind,
        _ => id,
    }
}

fn object_is_array(w: &World, side: Side, id: ObjId) -> Option<bool>
    requires ready { IsReady w.now }
    requires object { IsNumbered w.now id }
    ensures { (log : List Item) (k : Bool → Graph → Row) →
        array_thing_is side.0 (object_at w.now id) k (Image w.now log) ≡ answer_of side.0 result k (Image w.now log) }
{
    if cut(w, side, id) {
        return None;
    }
    match w.cell(id).kind {
        CellKind::Array => Some(true),
        CellKind::Proxy {
            target,
            handler,
            ..
        } => {
            handler?;
            target_is_array(w, side, real(w, target?))
        }
        _ => Some(false),
    }
}

// A Proxy's target, which is no Proxy.
fn target_is_array(w: &World, side: Side, id: ObjId) -> Option<bool>
    requires ready { IsReady w.now }
    requires object { IsNumbered w.now id }
    ensures { (log : List Item) (k : Bool → Graph → Row) →
        array_target side.0 (object_at w.now id) k (Image w.now log) ≡ answer_of side.0 result k (Image w.now log) }
{
    if cut(w, side, id) {
        return None;
    }
    Some(matches!(w.cell(id).kind, CellKind::Array))
}

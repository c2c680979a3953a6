// From one side to another.
ghost use Rattle.std.specs.Prelude.{◌≡◌, ◌<◌, All, Some, true, false, is_some, IfOk, IfSome, IsOk, OnOk, OnErr, Ok};
ghost use Rattle.mb_base.specs.declared.value.Side.{Side};
ghost use Rattle.mb_world.specs.Ids.{HasItsIds, ObjIn, ValueIn, FullIn};
ghost use Rattle.mb_world.specs.Image.{names_of, Resolve, full_in};
ghost use Rattle.mb_world.specs.Contained.{IsOwn, in_value, in_full, PairedFrom};
ghost use Rattle.mb_maps.specs.Crossing.{behind_at, meant, object_for, counterpart, crossed, IsRefused, IsForeign, IsOfAnother, full_counterpart, full_crossed, IsFullRefused, IsFullForeign};
ghost use Rattle.mb_maps.specs.Crossed.{CanCross, Crossed};

use crate::proxies::{make_proxy, object_for};
use mb_base::{NoMemory, ObjId, Side, Value};
use mb_desc::Full;
use mb_world::{CellKind, World};

/// What a side has for a value of another side. A primitive crosses as it is, and a built-in becomes the side's own. A
/// membrane proxy means the object behind it. What the side owns becomes itself, and any other object the one
/// proxy that the side has for it, which is made at the first crossing. After `NoMemory` the world is halted.
pub fn cross(w: &mut World, v: Value, to: Side) -> Result<Value, NoMemory>
    requires side { to.0 < w.old.sides }
    requires value { ValueIn w.old v }
    requires foreign { w.old.joined ≡ false → IsForeign w.old to v }
    requires world { w.old.joined ≡ false → CanCross w.old }

    // what it gives, and the world after it
    ensures value { IfOk result (λ own. counterpart w.new to v ≡ Some own) }
    ensures crossed { OnOk result (w.new ≡ crossed w.old to v) }
    ensures refused { OnErr result (IsRefused w.old w.new to v) }
    ensures known { is_some (counterpart w.old to v) ≡ true → IsOk result }
    ensures joined { w.old.joined ≡ true → (result ≡ Ok v) × (w.new ≡ w.old) }

    // what stays, after a refusal too
    ensures stays { Crossed w.old w.new }
    ensures paired { w.old.joined ≡ false → PairedFrom w.old w.new }
    ensures runs { OnOk result (w.new.halted ≡ w.old.halted) }
    ensures halts { OnErr result (w.new.halted ≡ true) }

    // what is known of it
    ensures within { IfOk result (ValueIn w.new) }
    ensures own { w.old.joined ≡ false → IfOk result (λ own. All (IsOwn w.new to) (in_value own)) }
    ensures meaning { IfOk result (λ own. Resolve (names_of w.new) own ≡ Resolve (names_of w.old) v) }
    ensures back { IfOk result (λ own. (from : Side) → All (IsOwn w.old from) (in_value v)
        → counterpart w.new from own ≡ Some v) }
{
    if w.joined() {
        return Ok(v);
    }
    match v {
        Value::Object(id) => {
            let own = cross_object(w, id, to)?;
            Ok(Value::Object(own))
        }
        _ => Ok(v),
    }
}

/// What a side has for a whole property of another side: its value crosses, or its getter and then its setter. After
/// `NoMemory` the world is halted.
pub fn cross_full(w: &mut World, full: Full<Value>, to: Side) -> Result<Full<Value>, NoMemory>
    requires side { to.0 < w.old.sides }
    requires value { FullIn w.old full }
    requires foreign { w.old.joined ≡ false → IsFullForeign w.old to full }
    requires world { w.old.joined ≡ false → CanCross w.old }

    // what it gives, and the world after it
    ensures value { IfOk result (λ own. full_counterpart w.new to full ≡ Some own) }
    ensures crossed { OnOk result (w.new ≡ full_crossed w.old to full) }
    ensures refused { OnErr result (IsFullRefused w.old w.new to full) }
    ensures known { is_some (full_counterpart w.old to full) ≡ true → IsOk result }
    ensures joined { w.old.joined ≡ true → (result ≡ Ok full) × (w.new ≡ w.old) }

    // what stays, after a refusal too
    ensures stays { Crossed w.old w.new }
    ensures paired { w.old.joined ≡ false → PairedFrom w.old w.new }
    ensures runs { OnOk result (w.new.halted ≡ w.old.halted) }
    ensures halts { OnErr result (w.new.halted ≡ true) }

    // what is known of it
    ensures within { IfOk result (FullIn w.new) }
    ensures own { w.old.joined ≡ false → IfOk result (λ own. All (IsOwn w.new to) (in_full own)) }
    ensures meaning { IfOk result (λ own. full_in (names_of w.new) own ≡ full_in (names_of w.old) full) }
    ensures back { IfOk result (λ own. (from : Side) → All (IsOwn w.old from) (in_full full)
        → full_counterpart w.new from own ≡ Some full) }
{
    match full {
        Full::Datum {
            value,
            writable,
            enumerable,
            configurable,
        } => {
            let value = cross(w, value, to)?;
            Ok(Full::Datum {
                value,
                writable,
                enumerable,
                configurable,
            })
        }
        Full::Accessor {
            get,
            set,
            enumerable,
            configurable,
        } => {
            let get = cross(w, get, to)?;
            let set = cross(w, set, to)?;
            Ok(Full::Accessor {
                get,
                set,
                enumerable,
                configurable,
            })
        }
    }
}

/// The object behind a membrane proxy, or `None` where the id is that of no membrane proxy.
pub fn behind(w: &World, id: ObjId) -> Option<ObjId>
    requires { ObjIn w.now id }
    ensures value { result ≡ behind_at w.now id }
    ensures within { IfSome result (ObjIn w.now) }
{
    match w.cell(id).kind {
        CellKind::Membrane { behind, .. } => Some(behind),
        _ => None,
    }
}

// What a side has for an object of another side.
fn cross_object(w: &mut World, id: ObjId, to: Side) -> Result<ObjId, NoMemory>
    requires side { to.0 < w.old.sides }
    requires object { ObjIn w.old id }
    requires foreign { IsOfAnother w.old to id }
    requires apart { w.old.joined ≡ false }
    requires world { CanCross w.old }
    ensures value { IfOk result (λ own. counterpart w.new to (Value.Object id) ≡ Some (Value.Object own)) }
    ensures crossed { OnOk result (w.new ≡ crossed w.old to (Value.Object id)) }
    ensures refused { OnErr result (IsRefused w.old w.new to (Value.Object id)) }
    ensures known { is_some (counterpart w.old to (Value.Object id)) ≡ true → IsOk result }
    ensures stays { Crossed w.old w.new }
    ensures runs { OnOk result (w.new.halted ≡ w.old.halted) }
    ensures within { IfOk result (ObjIn w.new) }
{
    let object = meant(w, id);
    match object_for(w, object, to) {
        Some(own) => Ok(own),
        None => make_proxy(w, object, to),
    }
}

// The object that an id means.
fn meant(w: &World, id: ObjId) -> ObjId
    requires { ObjIn w.now id }
    ensures value { result ≡ meant w.now id }
    ensures within { ObjIn w.now result }
    ensures ids { HasItsIds w.now }
{
    match w.cell(id).kind {
        CellKind::Membrane { behind, .. } => behind,
        _ => id,
    }
}

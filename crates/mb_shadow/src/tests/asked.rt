// What the calls ask, tested before them.
ghost use Rattle.std.specs.Prelude.{◌≡◌, ◌<◌, true, false, is_some, length, IsSomeAnd};
ghost use Rattle.mb_base.specs.declared.value.Value.TheVariants.{Object};
ghost use Rattle.mb_text.specs.Texts.{AreDistinct};
ghost use Rattle.mb_world.specs.declared.cell.CellKind.TheVariants.{Plain};
ghost use Rattle.mb_world.specs.Data.{cell_at};
ghost use Rattle.mb_world.specs.Ids.{HasItsIds, ObjIn, KeyIn, RuleKindIn};
ghost use Rattle.mb_world.specs.Image.{Names, rule_kind_in};
ghost use Rattle.mb_world.specs.Contained.{IsOwn};
ghost use Rattle.mb_world.specs.Formed.{IsNullOrObject};
ghost use Rattle.mb_maps.specs.Crossing.{IsForeign};
ghost use Rattle.mb_shadow.specs.Seeing.{CanSee, HasConstant, IsProxy, IsPropertyOf, view_through};
ghost use Rattle.mb_shadow.specs.machine.Sights.{IsValueOf};

use crate::sight::sight_of;
use mb_base::{Key, ObjId, Side, StrId, Value};
use mb_desc::Full;
use mb_world::{CellKind, RuleKind, World};
use std::process::Abort;

pub(super) fn there(rt: &impl Abort, w: &World, id: ObjId)
    ensures { ObjIn w.now id }
{
    assert!(rt; id.0 < w.cells());
}

pub(super) fn text_there(rt: &impl Abort, w: &World, text: StrId)
    ensures { text.0 < length w.now.texts }
{
    assert!(rt; (text.0 as usize) < w.texts().len());
}

pub(super) fn key(rt: &impl Abort, w: &World, text: StrId) -> Key
    ensures { KeyIn w.now result }
{
    text_there(rt, w, text);
    w.texts().key(text)
}

pub(super) fn ids(w: &World)
    ensures ids { HasItsIds w.now }
    ensures distinct { AreDistinct w.now.texts }
{
    w.texts();
}

pub(super) fn fits(rt: &impl Abort, w: &World, kind: RuleKind)
    ensures within { RuleKindIn w.now kind }
    ensures constant { (n : Names) → HasConstant (rule_kind_in n kind) }
{
    match kind {
        RuleKind::Hide(text) => text_there(rt, w, text),
        RuleKind::Substitute(text, value) => {
            text_there(rt, w, text);
            assert!(rt; value == Value::Whole(9));
        }
        RuleKind::ReadOnly | RuleKind::Revoke => {}
    }
}

pub(super) fn plain(rt: &impl Abort, w: &World, id: ObjId)
    ensures within { ObjIn w.now id }
    ensures plain { IsSomeAnd (cell_at w.now id) (λ c. c.kind ≡ Plain) }
{
    there(rt, w, id);
    assert!(rt; w.cell(id).kind == CellKind::Plain);
}

// The cell is no shadow, and the side's own.
fn own(rt: &impl Abort, w: &World, side: Side, id: ObjId)
    ensures within { ObjIn w.now id }
    ensures own { IsOwn w.now side id }
{
    there(rt, w, id);
    let cell = w.cell(id);
    assert!(rt; cell.home.0 == side.0);
    assert!(rt; !matches!(cell.kind, CellKind::Shadow(_)));
}

// The cell is no shadow, and another side's.
pub(super) fn foreign(rt: &impl Abort, w: &World, side: Side, id: ObjId)
    ensures { IsForeign w.now side (Object id) }
{
    there(rt, w, id);
    let cell = w.cell(id);
    assert!(rt; cell.home.0 != side.0);
    assert!(rt; !matches!(cell.kind, CellKind::Shadow(_)));
}

fn value(rt: &impl Abort, w: &World, side: Side, value: Value)
    ensures { IsValueOf w.now side value }
{
    match value {
        Value::Object(id) => own(rt, w, side, id),
        Value::Undefined | Value::Null | Value::Bool(_) => {}
        _ => panic!(rt; "another value"),
    }
}

pub(super) fn proto(rt: &impl Abort, w: &World, side: Side, proto: Value)
    ensures value { IsValueOf w.now side proto }
    ensures kind { IsNullOrObject proto }
{
    match proto {
        Value::Object(id) => own(rt, w, side, id),
        Value::Null => {}
        _ => panic!(rt; "no prototype"),
    }
}

pub(super) fn property(rt: &impl Abort, w: &World, side: Side, property: Full<Value>)
    ensures { IsPropertyOf w.now side property }
{
    match property {
        Full::Datum { value: held, .. } => value(rt, w, side, held),
        Full::Accessor { .. } => panic!(rt; "an accessor"),
    }
}

pub(super) fn proxy_there(rt: &impl Abort, w: &World, proxy: ObjId)
    ensures { IsProxy (cell_at w.now proxy) }
{
    there(rt, w, proxy);
    assert!(rt; matches!(w.cell(proxy).kind, CellKind::Membrane { .. }));
}

pub(super) fn is_seen(rt: &impl Abort, w: &World, proxy: ObjId)
    requires proxy { IsProxy (cell_at w.now proxy) }
    requires world { CanSee w.now }
    ensures { is_some (view_through w.now proxy) ≡ true }
{
    match sight_of(w, proxy) {
        Some(_) => {}
        None => panic!(rt; "nothing is seen"),
    }
}

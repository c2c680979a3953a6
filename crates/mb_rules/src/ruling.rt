// Which changes the rules decide.
ghost use Rattle.std.specs.Prelude.{◌≡◌, true, IfSome};
ghost use Rattle.mb_base.specs.declared.value.Value.{Value};
ghost use Rattle.mb_desc.specs.Values.{equal};
ghost use Rattle.mb_world.specs.View.{Admits, is_read_only, read_only_ruling, key_ruling};
ghost use Rattle.mb_world.specs.Data.{cell_at};
ghost use Rattle.mb_world.specs.Ids.{ObjIn};
ghost use Rattle.mb_world.specs.Image.{names_of, object_at};
ghost use Rattle.mb_rules.specs.Seen.{graph_of, ChangeIn, change_in, ruling_in, TellsChange};

use crate::applying::{is_read_only, key_rule};
use crate::change::{Change, Ruling};
use crate::view::listed;
use mb_base::{ObjId, Side};
use mb_world::World;

/// What the rules say of a change that a side asks of an object.
pub fn admits(w: &World, viewer: Side, id: ObjId, change: Change) -> Ruling
    requires object { ObjIn w.now id }
    requires change { ChangeIn w.now change }
    ensures meant { TellsChange w.now id change → IfSome (object_at w.now id) (λ t. ruling_in result
        ≡ Admits (graph_of w.now) viewer.0 t (change_in (names_of w.now) change)) }
    ensures proto { IfSome (object_at w.now id) (λ t. is_read_only (graph_of w.now) viewer.0 t ≡ true
        → IfSome (cell_at w.now id) (λ c. (p : Value) → change ≡ Change.Proto p
        → result ≡ Ruling.Decided (equal p c.proto))) }
{
    if is_read_only(w, viewer, id) {
        Ruling::Decided(read_only_answer(w, viewer, id, change))
    } else {
        key_ruling(w, viewer, id, change)
    }
}

// What a read-only rule decides.
fn read_only_answer(w: &World, viewer: Side, id: ObjId, change: Change) -> bool
    requires object { ObjIn w.now id }
    requires change { ChangeIn w.now change }
    ensures meant { TellsChange w.now id change → IfSome (object_at w.now id) (λ t. ruling_in (Ruling.Decided result)
        ≡ read_only_ruling (graph_of w.now) viewer.0 t (change_in (names_of w.now) change)) }
    ensures proto { IfSome (cell_at w.now id) (λ c. (p : Value) → change ≡ Change.Proto p → result ≡ equal p c.proto) }
{
    match change {
        Change::Proto(value) => value == w.cell(id).proto,
        Change::Prevent => !w.cell(id).extensible,
        Change::Define(_) | Change::Set(_) => false,
        Change::Delete(key) => !listed(w, viewer, id, key),
    }
}

// What the rule of a key decides.
fn key_ruling(w: &World, viewer: Side, id: ObjId, change: Change) -> Ruling
    requires object { ObjIn w.now id }
    requires change { ChangeIn w.now change }
    ensures { IfSome (object_at w.now id) (λ t. ruling_in result
        ≡ key_ruling (graph_of w.now) viewer.0 t (change_in (names_of w.now) change)) }
{
    match change {
        Change::Proto(_) | Change::Prevent | Change::Set(_) => Ruling::Free,
        Change::Define(key) => match key_rule(w, viewer, id, key) {
            Some(_) => Ruling::Decided(false),
            None => Ruling::Free,
        },
        Change::Delete(key) => match key_rule(w, viewer, id, key) {
            Some(_) => Ruling::Decided(!listed(w, viewer, id, key)),
            None => Ruling::Free,
        },
    }
}

// What a side sees of an object.
ghost use Rattle.std.specs.Prelude.{◌≡◌, None, is_some, IfSome, option_map};
ghost use Rattle.mb_world.specs.View.{shown_property, key_rule, is_cut};
ghost use Rattle.mb_world.specs.Data.{property_at};
ghost use Rattle.mb_world.specs.Ids.{ObjIn, KeyIn, FullIn};
ghost use Rattle.mb_world.specs.Image.{names_of, key_in, full_in, object_at};
ghost use Rattle.mb_rules.specs.Seen.{graph_of};
ghost use Rattle.mb_rules.specs.machine.Showing.{shown_by, constant};

use crate::applying::{is_foreign, is_revoked, key_rule};
use mb_base::{Key, ObjId, Side, Value};
use mb_desc::Full;
use mb_world::{RuleKind, World};

/// The property in the view that a side has of an object, or `None` where the view lacks the key. Its references are
/// those of the object's own side.
pub fn shown(w: &World, viewer: Side, id: ObjId, key: Key) -> Option<Full<Value>>
    requires object { ObjIn w.now id }
    requires key { KeyIn w.now key }
    ensures meant { IfSome (object_at w.now id) (λ t. option_map (full_in (names_of w.now)) result
        ≡ shown_property (graph_of w.now) viewer.0 t (key_in (names_of w.now) key)) }
    ensures own { IfSome (object_at w.now id) (λ t.
        key_rule (graph_of w.now) viewer.0 t (key_in (names_of w.now) key) ≡ None → result ≡ property_at w.now id key) }
    ensures within { IfSome result (FullIn w.now) }
{
    let rule = key_rule(w, viewer, id, key);
    shown_by(rule, w.cell(id).props.get(key))
}

/// Whether the view that a side has of an object has the key.
pub fn listed(w: &World, viewer: Side, id: ObjId, key: Key) -> bool
    requires object { ObjIn w.now id }
    requires key { KeyIn w.now key }
    ensures { IfSome (object_at w.now id) (λ t. result
        ≡ is_some (shown_property (graph_of w.now) viewer.0 t (key_in (names_of w.now) key))) }
{
    shown(w, viewer, id, key).is_some()
}

/// Whether the membrane, or the object's label, is revoked for a side.
pub fn cut(w: &World, viewer: Side, id: ObjId) -> bool
    requires { ObjIn w.now id }
    ensures { IfSome (object_at w.now id) (λ t. result ≡ is_cut (graph_of w.now) viewer.0 t) }
{
    is_foreign(w, viewer, id) && (w.revoked() || is_revoked(w, viewer, id))
}

// The object's own property as the rule of its key shows it.
fn shown_by(rule: Option<RuleKind>, own: Option<Full<Value>>) -> Option<Full<Value>>
    ensures { result ≡ shown_by rule own }
{
    match rule {
        Some(RuleKind::Hide(_)) => None,
        Some(RuleKind::Substitute(_, value)) => Some(constant(value, own?)),
        _ => own,
    }
}

// That value in place of the property, not to be written.
fn constant(value: Value, property: Full<Value>) -> Full<Value>
    ensures { result ≡ constant value property }
{
    match property {
        Full::Datum {
            enumerable,
            configurable,
            ..
        }
        | Full::Accessor {
            enumerable,
            configurable,
            ..
        } => Full::Datum {
            value,
            writable: false,
            enumerable,
            configurable,
        },
    }
}

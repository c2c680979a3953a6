// Which rules apply to an object as a side sees it.
ghost use Rattle.std.specs.Prelude.{◌≡◌, IfSome, option_map};
ghost use Rattle.std.specs.List.{find};
ghost use Rattle.mb_world.specs.View.{foreign_owner, means_side, is_foreign, some_rule, is_revoke_rule, is_read_only, key_rule};
ghost use Rattle.mb_world.specs.Data.{cell_at};
ghost use Rattle.mb_world.specs.Ids.{ObjIn, KeyIn, RuleKindIn};
ghost use Rattle.mb_world.specs.Image.{names_of, key_in, rule_kind_in, owner_by, side_in, object_at};
ghost use Rattle.mb_rules.specs.Seen.{graph_of};
ghost use Rattle.mb_rules.specs.machine.Applying.{rules_on, speaks, names_key, revokes, closes, is_of_key};

use mb_base::{Key, ObjId, Side};
use mb_world::{Cell, CellKind, Rule, RuleKind, World};

// Whether another side owns the object; a built-in is of every side.
pub(crate) fn is_foreign(w: &World, viewer: Side, id: ObjId) -> bool
    requires { ObjIn w.now id }
    ensures { IfSome (object_at w.now id) (λ t. result ≡ is_foreign viewer.0 t) }
{
    is_of_another(w.cell(id), viewer)
}

// Whether a rule revokes the object's label for a side.
pub(crate) fn is_revoked(w: &World, viewer: Side, id: ObjId) -> bool
    requires { ObjIn w.now id }
    ensures { IfSome (object_at w.now id) (λ t. result
        ≡ some_rule is_revoke_rule viewer.0 t (graph_of w.now).rules) }
{
    let owner = w.cell(id).home;
    rules_on(w, viewer, id)
        .iter()
        .any(|rule| revokes(rule, owner, viewer))
}

// Whether a rule makes the object read-only for a side.
pub(crate) fn is_read_only(w: &World, viewer: Side, id: ObjId) -> bool
    requires { ObjIn w.now id }
    ensures { IfSome (object_at w.now id) (λ t. result ≡ is_read_only (graph_of w.now) viewer.0 t) }
{
    let owner = w.cell(id).home;
    rules_on(w, viewer, id)
        .iter()
        .any(|rule| closes(rule, owner, viewer))
}

// The rule that hides or substitutes the object's key for a side.
pub(crate) fn key_rule(w: &World, viewer: Side, id: ObjId, key: Key) -> Option<RuleKind>
    requires object { ObjIn w.now id }
    requires key { KeyIn w.now key }
    ensures meant { IfSome (object_at w.now id) (λ t. option_map (rule_kind_in (names_of w.now)) result
        ≡ key_rule (graph_of w.now) viewer.0 t (key_in (names_of w.now) key)) }
    ensures within { IfSome result (RuleKindIn w.now) }
{
    let owner = w.cell(id).home;
    first_of_key(rules_on(w, viewer, id), owner, viewer, key)
}

// The rules for the label of an object of another side. No other object has any.
fn rules_on(w: &World, viewer: Side, id: ObjId) -> &[Rule]
    requires { ObjIn w.now id }
    ensures { IfSome (cell_at w.now id) (λ c. result.now ≡ rules_on viewer c w.now.rules) }
{
    let cell = w.cell(id);
    match cell.label {
        Some(label) if is_of_another(cell, viewer) => w.rules().labelled(label),
        _ => &[],
    }
}

fn is_of_another(cell: &Cell, viewer: Side) -> bool
    ensures { result ≡ foreign_owner viewer.0 (owner_by cell.now.kind cell.now.home) }
{
    !matches!(cell.kind, CellKind::BuiltIn(_)) && cell.home != viewer
}

// The first of the rules that speaks of the key.
fn first_of_key(rules: &[Rule], owner: Side, viewer: Side, key: Key) -> Option<RuleKind>
    ensures { result ≡ option_map (λ r. r.kind) (find (is_of_key owner viewer key) rules.now) }
{
    let rule = rules
        .iter()
        .find(|rule| is_of_key(rule, owner, viewer, key))?;
    Some(rule.kind)
}

fn revokes(rule: &Rule, owner: Side, viewer: Side) -> bool
    ensures { result ≡ revokes owner viewer rule.now }
{
    speaks(rule, owner, viewer) && matches!(rule.kind, RuleKind::Revoke)
}

fn closes(rule: &Rule, owner: Side, viewer: Side) -> bool
    ensures { result ≡ closes owner viewer rule.now }
{
    speaks(rule, owner, viewer) && matches!(rule.kind, RuleKind::ReadOnly)
}

fn is_of_key(rule: &Rule, owner: Side, viewer: Side, key: Key) -> bool
    ensures { result ≡ is_of_key owner viewer key rule.now }
{
    speaks(rule, owner, viewer) && names_key(rule.kind, key)
}

// Whether a rule speaks of that owner's objects as a side sees them.
fn speaks(rule: &Rule, owner: Side, viewer: Side) -> bool
    ensures { result ≡ speaks owner viewer rule.now }
{
    means(rule.owner, owner) && means(rule.viewer, viewer)
}

fn means(named: Option<Side>, side: Side) -> bool
    ensures { result ≡ means_side (side_in named) side.0 }
{
    match named {
        Some(named) => named == side,
        None => true,
    }
}

// Whether the rule hides or substitutes the key. None names a symbol.
fn names_key(kind: RuleKind, key: Key) -> bool
    ensures { result ≡ names_key key kind }
{
    let Key::Text { text, .. } = key else {
        return false;
    };
    match kind {
        RuleKind::Hide(named) | RuleKind::Substitute(named, _) => named == text,
        RuleKind::ReadOnly | RuleKind::Revoke => false,
    }
}

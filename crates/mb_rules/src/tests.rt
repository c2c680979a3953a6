// Rows over one object of the left side: its label is the text 0, and it has a property at the text 1. Before a call
// its condition is tested.
ghost use Rattle.std.specs.Prelude.{◌<◌, All, IfOk, length};
ghost use Rattle.mb_world.specs.Ids.{ObjIn, KeyIn, ValueIn, RuleIn};

use crate::{Change, Ruling, admits, cut, listed, shown};
use mb_base::{Key, ObjId, Side, StrId, Value};
use mb_desc::Full;
use mb_world::{CellKind, Rule, RuleKind, Rules, World};
use std::alloc::Global;
use std::process::Abort;
use std::test::Fail;

const OBJECT: ObjId = ObjId(0);

const THIRD: Side = Side(2);

const OWN: Full<Value> = Full::Datum {
    value: Value::Whole(5),
    writable: true,
    enumerable: false,
    configurable: true,
};

const CONSTANT: Full<Value> = Full::Datum {
    value: Value::Whole(9),
    writable: false,
    enumerable: false,
    configurable: true,
};

const HIDE: RuleKind = RuleKind::Hide(StrId(1));

const HIDE_OTHER: RuleKind = RuleKind::Hide(StrId(2));

const SUBSTITUTE: RuleKind = RuleKind::Substitute(StrId(1), Value::Whole(9));

const SUBSTITUTE_OTHER: RuleKind = RuleKind::Substitute(StrId(2), Value::Whole(9));

// ---- what the calls ask

fn there(rt: &impl Abort, w: &World, id: ObjId)
    ensures { ObjIn w.now id }
{
    assert!(rt; id.0 < w.cells());
}

fn text_there(rt: &impl Abort, w: &World, text: StrId)
    ensures { text.0 < length w.now.texts }
{
    assert!(rt; (text.0 as usize) < w.texts().len());
}

fn key(rt: &impl Abort, w: &World, text: u32) -> Key
    ensures { KeyIn w.now result }
{
    text_there(rt, w, StrId(text));
    w.texts().key(StrId(text))
}

fn primitive(rt: &impl Abort, w: &World, value: Value)
    ensures { ValueIn w.now value }
{
    match value {
        Value::Whole(_) | Value::Null => {}
        _ => panic!(rt; "no whole number"),
    }
}

fn fits(rt: &impl Abort, w: &World, rule: Rule)
    ensures { RuleIn w.now rule }
{
    text_there(rt, w, rule.label);
    match rule.kind {
        RuleKind::Hide(named) => text_there(rt, w, named),
        RuleKind::Substitute(named, value) => {
            text_there(rt, w, named);
            primitive(rt, w, value);
        }
        RuleKind::ReadOnly | RuleKind::Revoke => {}
    }
}

// ---- the world

fn rule(kind: RuleKind) -> Rule {
    Rule {
        label: StrId(0),
        kind,
        owner: None,
        viewer: None,
    }
}

// The texts `A`, `b`, `c`, `D` under the ids 0 to 3, and the object.
fn object(rt: &impl Abort, alloc: Global) -> Result<World, Fail> {
    let mut w = World::new(alloc)?;
    for unit in [65, 98, 99, 68] {
        w.intern(&[unit])?;
    }
    let label = StrId(0);
    text_there(rt, &w, label);
    let id = w.make(Side::LEFT, CellKind::Plain, Value::Null, Some(label))?;
    there(rt, &w, id);
    let key = key(rt, &w, 1);
    w.put(id, key, OWN)?;
    Ok(w)
}

fn both(rt: &impl Abort, alloc: Global, w: &World, first: Rule, second: Rule) -> Result<Rules, Fail>
    ensures { IfOk result (λ rules. All (RuleIn w.now) rules) }
{
    fits(rt, w, first);
    fits(rt, w, second);
    Ok(Rules::new(alloc, vec![in alloc; first, second]?)?)
}

fn world(rt: &impl Abort, alloc: Global, first: Rule, second: Rule) -> Result<World, Fail> {
    let mut w = object(rt, alloc)?;
    let rules = both(rt, alloc, &w, first, second)?;
    w.set_rules(rules);
    Ok(w)
}

// With a rule for another label, and this one.
fn one(rt: &impl Abort, alloc: Global, kind: RuleKind) -> Result<World, Fail> {
    let other = Rule {
        label: StrId(3),
        kind: RuleKind::ReadOnly,
        owner: None,
        viewer: None,
    };
    world(rt, alloc, other, rule(kind))
}

// ---- calls

fn sees(rt: &impl Abort, w: &World, viewer: Side, text: u32) -> Option<Full<Value>> {
    there(rt, w, OBJECT);
    let key = key(rt, w, text);
    let property = shown(w, viewer, OBJECT, key);
    assert_eq!(rt; listed(w, viewer, OBJECT, key), property.is_some());
    property
}

fn is_cut(rt: &impl Abort, w: &World, viewer: Side) -> bool {
    there(rt, w, OBJECT);
    cut(w, viewer, OBJECT)
}

fn rules_on_key(rt: &impl Abort, w: &World, text: u32) -> [Ruling; 3] {
    there(rt, w, OBJECT);
    let key = key(rt, w, text);
    [
        admits(w, Side::RIGHT, OBJECT, Change::Define(key)),
        admits(w, Side::RIGHT, OBJECT, Change::Set(key)),
        admits(w, Side::RIGHT, OBJECT, Change::Delete(key)),
    ]
}

fn rules_on_object(rt: &impl Abort, w: &World) -> [Ruling; 3] {
    there(rt, w, OBJECT);
    [
        admits(w, Side::RIGHT, OBJECT, Change::Proto(Value::Null)),
        admits(w, Side::RIGHT, OBJECT, Change::Proto(Value::Whole(1))),
        admits(w, Side::RIGHT, OBJECT, Change::Prevent),
    ]
}

// ---- rows

#[test]
fn a_rule_shows_or_hides_its_key(rt: HostRuntime) -> Result<(), Fail> {
    for (kind, here, elsewhere) in [
        (HIDE, None, None),
        (HIDE_OTHER, Some(OWN), None),
        (SUBSTITUTE, Some(CONSTANT), None),
        (SUBSTITUTE_OTHER, Some(OWN), None),
        (RuleKind::ReadOnly, Some(OWN), None),
    ] {
        let w = one(&rt, rt.alloc(), kind)?;
        assert_eq!(rt; sees(&rt, &w, Side::RIGHT, 1), here);
        assert_eq!(rt; sees(&rt, &w, Side::RIGHT, 2), elsewhere);
        assert_eq!(rt; sees(&rt, &w, Side::LEFT, 1), Some(OWN));
    }
    Ok(())
}

#[test]
fn a_rule_means_its_owner_and_its_viewer(rt: HostRuntime) -> Result<(), Fail> {
    for (owner, viewer, right, third) in [
        (None, None, None, None),
        (Some(Side::LEFT), None, None, None),
        (Some(Side::RIGHT), None, Some(OWN), Some(OWN)),
        (None, Some(Side::RIGHT), None, Some(OWN)),
        (Some(Side::LEFT), Some(THIRD), Some(OWN), None),
    ] {
        let hide = Rule {
            label: StrId(0),
            kind: HIDE,
            owner,
            viewer,
        };
        let w = world(&rt, rt.alloc(), hide, rule(HIDE_OTHER))?;
        assert_eq!(rt; sees(&rt, &w, Side::RIGHT, 1), right);
        assert_eq!(rt; sees(&rt, &w, THIRD, 1), third);
    }
    Ok(())
}

#[test]
fn a_rule_decides_changes_of_its_key(rt: HostRuntime) -> Result<(), Fail> {
    let no = Ruling::Decided(false);
    let yes = Ruling::Decided(true);
    let free = Ruling::Free;
    for (kind, here, elsewhere) in [
        (HIDE, [no, free, yes], [free, free, free]),
        (SUBSTITUTE, [no, free, no], [free, free, free]),
        (SUBSTITUTE_OTHER, [free, free, free], [no, free, yes]),
        (RuleKind::ReadOnly, [no, no, no], [no, no, yes]),
    ] {
        let w = one(&rt, rt.alloc(), kind)?;
        assert_eq!(rt; rules_on_key(&rt, &w, 1), here);
        assert_eq!(rt; rules_on_key(&rt, &w, 2), elsewhere);
    }
    Ok(())
}

#[test]
fn read_only_decides_before_the_rule_of_a_key(rt: HostRuntime) -> Result<(), Fail> {
    let no = Ruling::Decided(false);
    let yes = Ruling::Decided(true);
    let w = world(&rt, rt.alloc(), rule(HIDE), rule(RuleKind::ReadOnly))?;
    assert_eq!(rt; rules_on_key(&rt, &w, 1), [no, no, yes]);
    assert_eq!(rt; rules_on_object(&rt, &w), [yes, no, no]);
    let w = one(&rt, rt.alloc(), HIDE)?;
    assert_eq!(rt;
        rules_on_object(&rt, &w),
        [Ruling::Free, Ruling::Free, Ruling::Free]
    );
    Ok(())
}

#[test]
fn a_label_or_the_membrane_is_revoked(rt: HostRuntime) -> Result<(), Fail> {
    let mut w = world(&rt, rt.alloc(), rule(HIDE), rule(RuleKind::Revoke))?;
    assert!(rt; is_cut(&rt, &w, Side::RIGHT));
    assert!(rt; !is_cut(&rt, &w, Side::LEFT));
    w = one(&rt, rt.alloc(), HIDE)?;
    assert!(rt; !is_cut(&rt, &w, Side::RIGHT));
    w.set_revoked();
    assert!(rt; is_cut(&rt, &w, Side::RIGHT));
    assert!(rt; !is_cut(&rt, &w, Side::LEFT));
    Ok(())
}

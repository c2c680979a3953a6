// Rows over a small world of two sides. Before a call its condition is tested.
ghost use Rattle.std.specs.Prelude.{◌≡◌, ◌<◌, ◌∷◌, [], Some, All};
ghost use Rattle.mb_base.specs.declared.value.StrId.{StrId};
ghost use Rattle.mb_base.specs.declared.value.Value.TheVariants.{Null};
ghost use Rattle.mb_world.specs.Data.{made};
ghost use Rattle.mb_world.specs.Ids.{KindIn, RuleIn};
ghost use Rattle.mb_world.specs.Image.{Names, rule_in};
ghost use Rattle.mb_shadow.specs.Seeing.{CanSee, HasConstant};

mod asked;

use crate::{Part, follow, seen, seen_extensible, seen_keys, seen_proto};
use asked::{
    fits, foreign, ids, is_seen, key, plain, property, proto, proxy_there, text_there, there,
};
use mb_base::{Key, ObjId, Side, StrId, Value};
use mb_desc::Full;
use mb_maps::cross;
use mb_world::{CellKind, Rule, RuleKind, Rules, Shape, World};
use std::alloc::Global;
use std::process::Abort;

const MEMORY: &str = "there is memory";

const FIRST: Side = Side(0);

const SECOND: Side = Side(1);

// the text of the key `a`, of the key `7` and of the label
const A: StrId = StrId(0);

const SEVEN: StrId = StrId(1);

const LABEL: StrId = StrId(2);

// the objects of the first side, that of the second, and a Proxy of the first whose target is gone
const OBJECT: ObjId = ObjId(0);

const OTHER: ObjId = ObjId(1);

const SECONDS: ObjId = ObjId(2);

const GONE: ObjId = ObjId(3);

// ---- the world

fn object(rt: &impl Abort, w: &mut World, home: Side, kind: CellKind)
    requires home { home.0 < 8 }
    requires kind { KindIn w.old kind }
    ensures { w.new ≡ made w.old home kind Null (Some (record { 0 = 2 })) }
{
    text_there(rt, w, LABEL);
    w.make(home, kind, Value::Null, Some(LABEL))
        .expect(rt, MEMORY);
}

fn one_rule(rt: &impl Abort, alloc: Global, w: &World, kind: RuleKind) -> Rules
    ensures within { All (RuleIn w.now) result }
    ensures constants { (n : Names) → All (λ rule. HasConstant (rule_in n rule).kind) result }
{
    text_there(rt, w, LABEL);
    fits(rt, w, kind);
    let rule = Rule {
        label: LABEL,
        kind,
        owner: None,
        viewer: None,
    };
    let rows = vec![in alloc; rule].expect(rt, MEMORY);
    Rules::new(alloc, rows).expect(rt, MEMORY)
}

// With that rule on what the objects show to the other side.
fn world(rt: &impl Abort, alloc: Global, kind: RuleKind) -> World
    ensures { CanSee result }
{
    let mut w = World::new(alloc).expect(rt, MEMORY);
    w.set_sides(2);
    w.intern(&[97]).expect(rt, MEMORY);
    w.intern(&[55]).expect(rt, MEMORY);
    w.intern(&[76]).expect(rt, MEMORY);
    let rules = one_rule(rt, alloc, &w, kind);
    w.set_rules(rules);
    object(rt, &mut w, FIRST, CellKind::Plain);
    object(rt, &mut w, FIRST, CellKind::Plain);
    object(rt, &mut w, SECOND, CellKind::Plain);
    let gone = CellKind::Proxy {
        target: None,
        handler: None,
        shape: Shape::Plain,
    };
    object(rt, &mut w, FIRST, gone);
    ids(&w);
    w
}

// ---- what objects become

fn put(rt: &impl Abort, w: &mut World, id: ObjId, text: StrId, full: Full<Value>)
    requires { CanSee w.old }
    ensures { CanSee w.new }
{
    plain(rt, w, id);
    let key = key(rt, w, text);
    property(rt, w, w.home(id), full);
    w.put(id, key, full).expect(rt, MEMORY);
}

fn remove(rt: &impl Abort, w: &mut World, id: ObjId, text: StrId)
    requires { CanSee w.old }
    ensures { CanSee w.new }
{
    plain(rt, w, id);
    let key = key(rt, w, text);
    w.remove(id, key);
}

fn set_proto(rt: &impl Abort, w: &mut World, id: ObjId, value: Value)
    requires { CanSee w.old }
    ensures { CanSee w.new }
{
    plain(rt, w, id);
    proto(rt, w, w.home(id), value);
    w.set_proto(id, value);
}

fn close(rt: &impl Abort, w: &mut World, id: ObjId)
    requires { CanSee w.old }
    ensures { CanSee w.new }
{
    plain(rt, w, id);
    w.close(id);
}

// ---- calls

fn crosses(rt: &impl Abort, w: &mut World, id: ObjId, to: Side) -> ObjId
    requires { CanSee w.old }
    ensures { CanSee w.new }
{
    assert!(rt; to.0 < w.sides());
    there(rt, w, id);
    foreign(rt, w, to, id);
    match cross(w, Value::Object(id), to).expect(rt, MEMORY) {
        Value::Object(own) => own,
        _ => panic!(rt; "no object"),
    }
}

fn follow_key(rt: &impl Abort, w: &mut World, proxy: ObjId, text: StrId)
    requires { CanSee w.old }
    ensures { CanSee w.new }
{
    proxy_there(rt, w, proxy);
    let key = key(rt, w, text);
    follow(w, proxy, Part::Key(key)).expect(rt, MEMORY);
}

fn follow_whole(rt: &impl Abort, w: &mut World, proxy: ObjId)
    requires { CanSee w.old }
    ensures { CanSee w.new }
{
    proxy_there(rt, w, proxy);
    follow(w, proxy, Part::Whole).expect(rt, MEMORY);
}

fn sees(rt: &impl Abort, w: &mut World, proxy: ObjId, text: StrId) -> Option<Full<Value>>
    requires { CanSee w.old }
    ensures { CanSee w.new }
{
    proxy_there(rt, w, proxy);
    is_seen(rt, w, proxy);
    let key = key(rt, w, text);
    seen(w, proxy, key).expect(rt, MEMORY)
}

fn sees_proto(rt: &impl Abort, w: &mut World, proxy: ObjId) -> Value
    requires { CanSee w.old }
    ensures { CanSee w.new }
{
    proxy_there(rt, w, proxy);
    is_seen(rt, w, proxy);
    seen_proto(w, proxy).expect(rt, MEMORY)
}

fn sees_keys(rt: &impl Abort, w: &World, proxy: ObjId) -> Vec<Key>
    requires { CanSee w.now }
{
    proxy_there(rt, w, proxy);
    is_seen(rt, w, proxy);
    seen_keys(w, proxy).expect(rt, MEMORY)
}

fn sees_extensible(rt: &impl Abort, w: &World, proxy: ObjId) -> bool
    requires { CanSee w.now }
{
    proxy_there(rt, w, proxy);
    is_seen(rt, w, proxy);
    seen_extensible(w, proxy)
}

// ---- what a shadow has

fn shadow(rt: &impl Abort, w: &World, proxy: ObjId) -> ObjId {
    there(rt, w, proxy);
    match w.cell(proxy).kind {
        CellKind::Membrane { shadow, .. } => shadow,
        _ => panic!(rt; "no proxy"),
    }
}

fn has(rt: &impl Abort, w: &World, proxy: ObjId, text: StrId, want: Option<Full<Value>>) {
    let shadow = shadow(rt, w, proxy);
    there(rt, w, shadow);
    let key = key(rt, w, text);
    assert_eq!(rt; w.cell(shadow).props.get(key), want);
}

fn is_open(rt: &impl Abort, w: &World, proxy: ObjId) {
    let shadow = shadow(rt, w, proxy);
    there(rt, w, shadow);
    assert!(rt; w.cell(shadow).extensible);
    assert_eq!(rt; w.cell(shadow).proto, Value::Null);
}

fn is_closed(rt: &impl Abort, w: &World, proxy: ObjId, proto: Value) {
    let shadow = shadow(rt, w, proxy);
    there(rt, w, shadow);
    assert!(rt; !w.cell(shadow).extensible);
    assert_eq!(rt; w.cell(shadow).proto, proto);
}

fn are_keys(rt: &impl Abort, w: &World, keys: Vec<Key>, want: &[StrId]) {
    assert_eq!(rt; keys.len(), want.len());
    for (place, text) in want.iter().enumerate() {
        assert_eq!(rt; keys[place], key(rt, w, *text));
    }
}

// ---- rows

const LOOSE: Full<Value> = Full::Datum {
    value: Value::Bool(true),
    writable: true,
    enumerable: true,
    configurable: true,
};

const FIXED: Full<Value> = Full::Datum {
    value: Value::Bool(true),
    writable: true,
    enumerable: true,
    configurable: false,
};

const CONSTANT: Full<Value> = Full::Datum {
    value: Value::Whole(9),
    writable: false,
    enumerable: true,
    configurable: false,
};

const NO_RULE: RuleKind = RuleKind::ReadOnly;

const HIDE: RuleKind = RuleKind::Hide(A);

const SUBSTITUTE: RuleKind = RuleKind::Substitute(A, Value::Whole(9));

fn refers_to(id: ObjId) -> Full<Value> {
    Full::Datum {
        value: Value::Object(id),
        writable: true,
        enumerable: false,
        configurable: true,
    }
}

#[test]
fn what_became_fixed_is_followed(rt: HostRuntime) {
    let mut w = world(&rt, rt.alloc(), NO_RULE);
    put(&rt, &mut w, OBJECT, A, LOOSE);
    let proxy = crosses(&rt, &mut w, OBJECT, SECOND);
    follow_key(&rt, &mut w, proxy, A);
    has(&rt, &w, proxy, A, None);
    put(&rt, &mut w, OBJECT, A, FIXED);
    has(&rt, &w, proxy, A, None);
    follow_key(&rt, &mut w, proxy, A);
    has(&rt, &w, proxy, A, Some(FIXED));
}

#[test]
fn a_key_is_followed_alone(rt: HostRuntime) {
    let mut w = world(&rt, rt.alloc(), NO_RULE);
    put(&rt, &mut w, OBJECT, A, FIXED);
    put(&rt, &mut w, OBJECT, SEVEN, FIXED);
    let proxy = crosses(&rt, &mut w, OBJECT, SECOND);
    follow_key(&rt, &mut w, proxy, SEVEN);
    has(&rt, &w, proxy, SEVEN, Some(FIXED));
    has(&rt, &w, proxy, A, None);
    is_open(&rt, &w, proxy);
}

#[test]
fn a_closed_object_is_followed(rt: HostRuntime) {
    let mut w = world(&rt, rt.alloc(), NO_RULE);
    put(&rt, &mut w, OBJECT, A, refers_to(OTHER));
    put(&rt, &mut w, OBJECT, SEVEN, FIXED);
    set_proto(&rt, &mut w, OBJECT, Value::Object(OTHER));
    let proxy = crosses(&rt, &mut w, OBJECT, SECOND);
    follow_whole(&rt, &mut w, proxy);
    has(&rt, &w, proxy, SEVEN, None);
    is_open(&rt, &w, proxy);
    close(&rt, &mut w, OBJECT);
    follow_whole(&rt, &mut w, proxy);
    let other = crosses(&rt, &mut w, OTHER, SECOND);
    has(&rt, &w, proxy, A, Some(refers_to(other)));
    has(&rt, &w, proxy, SEVEN, Some(FIXED));
    is_closed(&rt, &w, proxy, Value::Object(other));
}

#[test]
fn a_closed_shadow_follows_what_changes(rt: HostRuntime) {
    let mut w = world(&rt, rt.alloc(), NO_RULE);
    put(&rt, &mut w, OBJECT, A, LOOSE);
    put(&rt, &mut w, OBJECT, SEVEN, LOOSE);
    close(&rt, &mut w, OBJECT);
    let proxy = crosses(&rt, &mut w, OBJECT, SECOND);
    follow_whole(&rt, &mut w, proxy);
    remove(&rt, &mut w, OBJECT, A);
    put(&rt, &mut w, OBJECT, SEVEN, refers_to(OBJECT));
    follow_key(&rt, &mut w, proxy, A);
    has(&rt, &w, proxy, A, None);
    has(&rt, &w, proxy, SEVEN, Some(LOOSE));
    follow_whole(&rt, &mut w, proxy);
    has(&rt, &w, proxy, SEVEN, Some(refers_to(proxy)));
}

#[test]
fn a_hidden_key_is_in_no_shadow(rt: HostRuntime) {
    let mut w = world(&rt, rt.alloc(), HIDE);
    put(&rt, &mut w, OBJECT, A, FIXED);
    put(&rt, &mut w, OBJECT, SEVEN, FIXED);
    close(&rt, &mut w, OBJECT);
    let proxy = crosses(&rt, &mut w, OBJECT, SECOND);
    follow_key(&rt, &mut w, proxy, A);
    has(&rt, &w, proxy, A, None);
    follow_whole(&rt, &mut w, proxy);
    has(&rt, &w, proxy, A, None);
    has(&rt, &w, proxy, SEVEN, Some(FIXED));
    is_closed(&rt, &w, proxy, Value::Null);
    assert_eq!(&rt; sees(&rt, &mut w, proxy, A), None);
    are_keys(&rt, &w, sees_keys(&rt, &w, proxy), &[SEVEN]);
}

#[test]
fn a_substituted_key_has_the_constant(rt: HostRuntime) {
    let mut w = world(&rt, rt.alloc(), SUBSTITUTE);
    put(&rt, &mut w, OBJECT, A, FIXED);
    put(&rt, &mut w, OBJECT, SEVEN, FIXED);
    let proxy = crosses(&rt, &mut w, OBJECT, SECOND);
    follow_key(&rt, &mut w, proxy, A);
    follow_key(&rt, &mut w, proxy, SEVEN);
    has(&rt, &w, proxy, A, Some(CONSTANT));
    has(&rt, &w, proxy, SEVEN, Some(FIXED));
    assert_eq!(&rt; sees(&rt, &mut w, proxy, A), Some(CONSTANT));
}

#[test]
fn of_a_gone_target_nothing_is_followed(rt: HostRuntime) {
    let mut w = world(&rt, rt.alloc(), NO_RULE);
    let proxy = crosses(&rt, &mut w, GONE, SECOND);
    follow_key(&rt, &mut w, proxy, A);
    follow_whole(&rt, &mut w, proxy);
    has(&rt, &w, proxy, A, None);
    is_open(&rt, &w, proxy);
}

#[test]
fn a_side_sees_what_is_its_own(rt: HostRuntime) {
    let mut w = world(&rt, rt.alloc(), NO_RULE);
    let seconds = crosses(&rt, &mut w, SECONDS, FIRST);
    put(&rt, &mut w, OBJECT, A, refers_to(seconds));
    put(&rt, &mut w, OBJECT, SEVEN, refers_to(OTHER));
    set_proto(&rt, &mut w, OBJECT, Value::Object(OTHER));
    let proxy = crosses(&rt, &mut w, OBJECT, SECOND);
    let proto = sees_proto(&rt, &mut w, proxy);
    let other = crosses(&rt, &mut w, OTHER, SECOND);
    assert_eq!(&rt; proto, Value::Object(other));
    assert_eq!(&rt; sees(&rt, &mut w, proxy, A), Some(refers_to(SECONDS)));
    assert_eq!(&rt; sees(&rt, &mut w, proxy, SEVEN), Some(refers_to(other)));
    are_keys(&rt, &w, sees_keys(&rt, &w, proxy), &[SEVEN, A]);
    assert!(&rt; sees_extensible(&rt, &w, proxy));
    close(&rt, &mut w, OBJECT);
    assert!(&rt; !sees_extensible(&rt, &w, proxy));
}

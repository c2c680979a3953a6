// Answers that keep each rule and answers that break it, worked out by hand from the steps of ECMA-262, 10.5.
use super::*;
use mb_base::{Key, ObjId, StrId, SymId, Value};
use mb_desc::{Desc, Full};
use std::process::Abort;

const NONE: Desc<Value> = Desc {
    value: None,
    writable: None,
    get: None,
    set: None,
    enumerable: None,
    configurable: None,
};

const ONE: Value = Value::Whole(1);

const TWO: Value = Value::Whole(2);

const OBJECT: Value = Value::Object(ObjId(1));

const OTHER: Value = Value::Object(ObjId(2));

// An enumerable data property.
fn datum(value: Value, writable: bool, configurable: bool) -> Full<Value> {
    Full::Datum {
        value,
        writable,
        enumerable: true,
        configurable,
    }
}

// An enumerable accessor property.
fn accessor(get: Value, set: Value, configurable: bool) -> Full<Value> {
    Full::Accessor {
        get,
        set,
        enumerable: true,
        configurable,
    }
}

fn hold(rt: &impl Abort, rows: &[(Verdict, u8)]) {
    for (place, (answer, rule)) in rows.iter().enumerate() {
        let expected = if *rule == 0 {
            Verdict::Pass
        } else {
            Verdict::Broken(*rule)
        };
        assert_eq!(rt; *answer, expected, "row {place}");
    }
}

// In the tables 0 stands for an answer that keeps the rules.

#[test]
fn prototypes_and_extensions(rt: HostRuntime) {
    let rows = [
        // 1 is judged before: here what is neither an object nor null is one more prototype
        (get_prototype(ONE, None), 0),
        (get_prototype(ONE, Some(OBJECT)), 2),
        (get_prototype(OBJECT, None), 0),
        (get_prototype(OBJECT, Some(OBJECT)), 0),
        (get_prototype(OBJECT, Some(OTHER)), 2),
        (get_prototype(Value::Null, Some(OBJECT)), 2),
        (set_prototype(Value::Null, None), 0),
        (set_prototype(Value::Null, Some(Value::Null)), 0),
        (set_prototype(OBJECT, Some(Value::Null)), 3),
        (is_extensible(true, true), 0),
        (is_extensible(false, false), 0),
        (is_extensible(true, false), 4),
        (is_extensible(false, true), 4),
        (prevent_extensions(false), 0),
        (prevent_extensions(true), 5),
    ];
    hold(&rt, &rows);
}

#[test]
fn a_property_said_to_be_absent(rt: HostRuntime) {
    let fixed = Some(datum(ONE, true, false));
    let loose = Some(accessor(OBJECT, OBJECT, true));
    let rows = [
        // 6 can't be broken here: `own_absent` is told of undefined, `own_present` of a property
        (own_absent(None, false), 0),
        (own_absent(loose, true), 0),
        (own_absent(fixed, true), 7),
        (own_absent(fixed, false), 7),
        (own_absent(loose, false), 8),
        (has_not(None, false), 0),
        (has_not(loose, true), 0),
        (has_not(fixed, true), 17),
        (has_not(loose, false), 17),
        (delete(None, false), 0),
        (delete(loose, true), 0),
        (delete(fixed, true), 20),
        (delete(loose, false), 20),
    ];
    hold(&rt, &rows);
}

#[test]
fn a_property_said_to_be_there(rt: HostRuntime) {
    let locked = datum(ONE, false, false);
    let fixed = datum(ONE, true, false);
    let loose = datum(ONE, true, true);
    let pair = accessor(OBJECT, Value::Undefined, false);
    let rows = [
        // 9: compatible with the target's property, or with its lack
        (own_present(loose, None, true), 0),
        (own_present(loose, None, false), 9),
        (own_present(loose, Some(loose), false), 0),
        (own_present(datum(TWO, false, false), Some(locked), true), 9),
        (own_present(pair, Some(locked), true), 9),
        (own_present(fixed, Some(locked), true), 9),
        // 10: not configurable is said only of what isn't
        (own_present(locked, Some(locked), true), 0),
        (own_present(pair, Some(pair), false), 0),
        (own_present(locked, Some(loose), true), 10),
        (
            own_present(pair, Some(accessor(OBJECT, OTHER, true)), true),
            10,
        ),
        (own_present(locked, None, true), 10),
        // 11: and so is not writable, where it isn't configurable either
        (own_present(fixed, Some(fixed), true), 0),
        (own_present(locked, Some(fixed), true), 11),
        (own_present(datum(ONE, false, true), Some(loose), true), 0),
    ];
    hold(&rt, &rows);
}

#[test]
fn definitions(rt: HostRuntime) {
    let locked = Some(datum(ONE, false, false));
    let fixed = Some(datum(ONE, true, false));
    let loose = Some(datum(ONE, true, true));
    let value = Desc {
        value: Some(TWO),
        ..NONE
    };
    let pinned = Desc {
        configurable: Some(false),
        ..NONE
    };
    let read_only = Desc {
        writable: Some(false),
        ..NONE
    };
    let free = Desc {
        configurable: Some(true),
        ..NONE
    };
    let getter = Desc {
        get: Some(OBJECT),
        ..NONE
    };
    let rows = [
        // 12 and 13: the target lacks the property
        (define(value, None, true), 0),
        (define(value, None, false), 12),
        (define(pinned, None, false), 12),
        (define(free, None, true), 0),
        (define(pinned, None, true), 13),
        // 14
        (define(value, loose, false), 0),
        (define(value, fixed, true), 0),
        (define(value, locked, true), 14),
        (define(free, fixed, true), 14),
        (define(getter, fixed, true), 14),
        (define(getter, loose, true), 0),
        // 15
        (define(pinned, fixed, true), 0),
        (define(pinned, loose, true), 15),
        // 16
        (define(read_only, locked, true), 0),
        (define(read_only, loose, true), 0),
        (define(read_only, fixed, true), 16),
    ];
    hold(&rt, &rows);
}

#[test]
fn values_read_and_written(rt: HostRuntime) {
    let none = Value::Undefined;
    let rows = [
        // 18
        (get(TWO, None), 0),
        (get(ONE, Some(datum(ONE, false, false))), 0),
        (get(TWO, Some(datum(ONE, false, false))), 18),
        (get(TWO, Some(datum(ONE, true, false))), 0),
        (get(TWO, Some(datum(ONE, false, true))), 0),
        (get(none, Some(accessor(none, OBJECT, false))), 0),
        (get(TWO, Some(accessor(none, OBJECT, false))), 18),
        (get(TWO, Some(accessor(none, OBJECT, true))), 0),
        (get(TWO, Some(accessor(OBJECT, none, false))), 0),
        // 19
        (set(TWO, None), 0),
        (set(ONE, Some(datum(ONE, false, false))), 0),
        (set(TWO, Some(datum(ONE, false, false))), 19),
        (set(TWO, Some(datum(ONE, true, false))), 0),
        (set(TWO, Some(datum(ONE, false, true))), 0),
        (set(TWO, Some(accessor(none, OBJECT, false))), 0),
        (set(TWO, Some(accessor(OBJECT, none, false))), 19),
        (set(none, Some(accessor(OBJECT, none, false))), 19),
        (set(TWO, Some(accessor(OBJECT, none, true))), 0),
        // 24
        (construct(OBJECT), 0),
        (construct(none), 24),
        (construct(Value::Symbol(SymId(1))), 24),
    ];
    hold(&rt, &rows);
}

#[test]
fn lists_of_keys(rt: HostRuntime) {
    let text = |id: u32| Key::Text {
        text: StrId(id),
        index: u32::MAX,
    };
    let (a, b, c, s) = (text(0), text(1), text(2), Key::Symbol(SymId(0)));
    let rows = [
        // 21
        (own_keys(&[], &[], &[], false), 0),
        (own_keys(&[a, b, s], &[], &[], true), 0),
        (own_keys(&[a, b, b], &[], &[], true), 21),
        (own_keys(&[b, a, b], &[], &[], true), 21),
        (own_keys(&[s, a, s], &[c], &[b], false), 21),
        // 22
        (own_keys(&[a, b, c], &[a, c], &[], true), 0),
        (own_keys(&[c, a], &[a, c], &[b], true), 0),
        (own_keys(&[a, b], &[a, c], &[], true), 22),
        (own_keys(&[b, a], &[c, a], &[], false), 22),
        // 23
        (own_keys(&[a, b, s], &[b], &[a, s], false), 0),
        (own_keys(&[s, b, a], &[b], &[s, a], false), 0),
        (own_keys(&[a, b], &[a], &[b, s], false), 23),
        (own_keys(&[a, b, s], &[a], &[b], false), 23),
        (own_keys(&[s, a], &[a], &[b], false), 23),
        (own_keys(&[s, b, a], &[a], &[], true), 0),
    ];
    hold(&rt, &rows);
}

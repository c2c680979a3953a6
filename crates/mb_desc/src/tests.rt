// Each line of the standard's text (ECMA-262, 10.1.6.3) with the answer that it gives,
// worked out by hand.
use crate::{Desc, Full, compatible, complete, validate};
use mb_base::{ObjId, Value};
use std::process::Abort;

// Whether the object is extensible, the property that is there, the descriptor,
// and the property that is there afterwards, or none where it is refused.
type Row = (bool, Option<Full<Value>>, Desc<Value>, Option<Full<Value>>);

const NONE: Desc<Value> = Desc {
    value: None,
    writable: None,
    get: None,
    set: None,
    enumerable: None,
    configurable: None,
};

// In these numbers 0 stands for undefined.
fn number(number: i64) -> Value {
    if number == 0 {
        Value::Undefined
    } else {
        Value::Whole(number)
    }
}

fn callable(number: u32) -> Value {
    if number == 0 {
        Value::Undefined
    } else {
        Value::Object(ObjId(number))
    }
}

fn value(whole: i64) -> Desc<Value> {
    Desc {
        value: Some(number(whole)),
        ..NONE
    }
}

fn writable(flag: bool) -> Desc<Value> {
    Desc {
        writable: Some(flag),
        ..NONE
    }
}

fn get(object: u32) -> Desc<Value> {
    Desc {
        get: Some(callable(object)),
        ..NONE
    }
}

fn set(object: u32) -> Desc<Value> {
    Desc {
        set: Some(callable(object)),
        ..NONE
    }
}

fn enumerable(flag: bool) -> Desc<Value> {
    Desc {
        enumerable: Some(flag),
        ..NONE
    }
}

fn configurable(flag: bool) -> Desc<Value> {
    Desc {
        configurable: Some(flag),
        ..NONE
    }
}

// The fields of both descriptors.
fn and(a: Desc<Value>, b: Desc<Value>) -> Desc<Value> {
    Desc {
        value: a.value.or(b.value),
        writable: a.writable.or(b.writable),
        get: a.get.or(b.get),
        set: a.set.or(b.set),
        enumerable: a.enumerable.or(b.enumerable),
        configurable: a.configurable.or(b.configurable),
    }
}

fn datum(whole: i64, writable: bool, enumerable: bool, configurable: bool) -> Option<Full<Value>> {
    let value = number(whole);
    Some(Full::Datum {
        value,
        writable,
        enumerable,
        configurable,
    })
}

fn accessor(get: u32, set: u32, enumerable: bool, configurable: bool) -> Option<Full<Value>> {
    let (get, set) = (callable(get), callable(set));
    Some(Full::Accessor {
        get,
        set,
        enumerable,
        configurable,
    })
}

fn hold(rt: &impl Abort, rows: &[Row]) {
    for (place, row) in rows.iter().enumerate() {
        let (ext, current, desc, after) = *row;
        assert!(rt;
            !(desc.is_data() && desc.is_accessor()),
            "row {place} has fields of both kinds"
        );
        assert_eq!(rt; validate(ext, current, desc), after, "row {place}");
        assert_eq!(rt;
            compatible(ext, desc, current),
            after.is_some(),
            "row {place}"
        );
    }
}

#[test]
fn absent_property(rt: HostRuntime) {
    let rows = [
        // 2.a
        (false, None, NONE, None),
        (false, None, value(1), None),
        (false, None, get(1), None),
        // 2.c
        (true, None, get(1), accessor(1, 0, false, false)),
        (
            true,
            None,
            and(set(2), and(enumerable(true), configurable(true))),
            accessor(0, 2, true, true),
        ),
        // 2.d
        (true, None, NONE, datum(0, false, false, false)),
        (true, None, enumerable(true), datum(0, false, true, false)),
        (
            true,
            None,
            and(value(1), configurable(true)),
            datum(1, false, false, true),
        ),
        (true, None, writable(true), datum(0, true, false, false)),
    ];
    hold(&rt, &rows);
}

#[test]
fn fixed_data_property(rt: HostRuntime) {
    let there = datum(1, false, false, false);
    let rows = [
        // 4
        (true, there, NONE, there),
        (false, there, NONE, there),
        // 5.a
        (true, there, configurable(true), None),
        (true, there, configurable(false), there),
        // 5.b
        (true, there, enumerable(true), None),
        (true, there, enumerable(false), there),
        (true, datum(1, false, true, false), enumerable(false), None),
        // 5.c
        (true, there, get(1), None),
        (true, there, set(0), None),
        // 5.e.i
        (true, there, writable(true), None),
        (true, there, writable(false), there),
        // 5.e.ii
        (true, there, value(1), there),
        (true, there, value(2), None),
        (true, there, value(0), None),
    ];
    hold(&rt, &rows);
}

#[test]
fn fixed_writable_property(rt: HostRuntime) {
    let there = datum(1, true, false, false);
    let rows = [
        // 5.e doesn't refuse, 6.c puts the fields
        (true, there, value(2), datum(2, true, false, false)),
        (true, there, writable(false), datum(1, false, false, false)),
        (
            true,
            there,
            and(value(2), writable(false)),
            datum(2, false, false, false),
        ),
        (false, there, value(2), datum(2, true, false, false)),
        // 5.a to 5.c do
        (true, there, and(value(2), configurable(true)), None),
        (true, there, and(value(2), enumerable(true)), None),
        (true, there, get(1), None),
    ];
    hold(&rt, &rows);
}

#[test]
fn fixed_accessor_property(rt: HostRuntime) {
    let there = accessor(1, 2, true, false);
    let rows = [
        (true, there, NONE, there),
        // 5.a, 5.b
        (true, there, configurable(true), None),
        (true, there, enumerable(false), None),
        (true, there, enumerable(true), there),
        // 5.c
        (true, there, value(1), None),
        (true, there, writable(false), None),
        // 5.d.i
        (true, there, get(1), there),
        (true, there, get(3), None),
        // 5.d.ii
        (true, there, set(2), there),
        (true, there, set(0), None),
    ];
    hold(&rt, &rows);
}

#[test]
fn configurable_property(rt: HostRuntime) {
    let data = datum(1, false, true, true);
    let getter = accessor(1, 2, true, true);
    let rows = [
        // 6.a
        (true, data, get(3), accessor(3, 0, true, true)),
        (
            true,
            data,
            and(set(3), enumerable(false)),
            accessor(0, 3, false, true),
        ),
        (
            true,
            datum(1, true, true, true),
            and(get(3), configurable(false)),
            accessor(3, 0, true, false),
        ),
        // 6.b
        (true, getter, value(1), datum(1, false, true, true)),
        (true, getter, writable(true), datum(0, true, true, true)),
        (
            false,
            getter,
            and(value(1), and(enumerable(false), configurable(false))),
            datum(1, false, false, false),
        ),
        // 6.c
        (true, data, value(2), datum(2, false, true, true)),
        (true, data, writable(true), datum(1, true, true, true)),
        (false, data, enumerable(false), datum(1, false, false, true)),
        (
            true,
            data,
            configurable(false),
            datum(1, false, true, false),
        ),
        (true, getter, get(3), accessor(3, 2, true, true)),
        (true, getter, set(0), accessor(1, 0, true, true)),
        (true, getter, enumerable(false), accessor(1, 2, false, true)),
    ];
    hold(&rt, &rows);
}

#[test]
fn absent_fields_get_defaults(rt: HostRuntime) {
    assert_eq!(rt; Some(complete(NONE)), datum(0, false, false, false));
    assert_eq!(rt;
        Some(complete(Desc {
            set: Some(callable(2)),
            ..NONE
        })),
        accessor(0, 2, false, false)
    );
}

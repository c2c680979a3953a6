// Rows of methods and members that need arrays and Proxies too. Each text was written by hand, its units by the
// definitions of the meaning.
use super::rows::Row;

pub(super) const MIXED: &[Row] = &[
    // what is an array
    Row {
        script: &[
            "print(Array.isArray([]), Array.isArray({}), Array.isArray({ length: 0 }), Array.isArray(() => 1), ",
            "Array.isArray(print), Array.isArray(5), Array.isArray('x'), Array.isArray(), ",
            "Array.isArray(Array.prototype), Array.isArray(new TypeError('x')));",
        ],
        lines: &["true false false false false false false false false false"],
        units: 82,
        at: &[],
    },
    // which Proxy is an array
    Row {
        script: &[
            "let p = new Proxy([], {}); let f = new Proxy(() => 1, {}); let o = new Proxy({}, {}); ",
            "print(Array.isArray(p), Array.isArray(f), Array.isArray(o)); let r = Proxy.revocable([], {}); ",
            "print(Array.isArray(r.proxy)); let s = Proxy.revocable({}, {}); r.revoke(); s.revoke(); try { ",
            "Array.isArray(r.proxy); } catch (e) { print(e instanceof TypeError); } try { ",
            "Array.isArray(s.proxy); } catch (e) { print(e instanceof TypeError); }",
        ],
        lines: &["true false false", "true", "true", "true"],
        units: 146,
        at: &[],
    },
    // a key that goes while freeze goes over the keys
    Row {
        script: &[
            "let log = ''; let o = { a: 1, b: 2, c: 3 }; let p = new Proxy(o, { getOwnPropertyDescriptor(x, k) { ",
            "log = log + k; if (k === 'a') { delete x.b; } return Reflect.getOwnPropertyDescriptor(x, k); }, ",
            "ownKeys(x) { log = log + '!'; return Reflect.ownKeys(x); }, preventExtensions(x) { log = log + 'p'; ",
            "return Reflect.preventExtensions(x); }, defineProperty(x, k, d) { log = log + '=' + k + ('writable' ",
            "in d); return Reflect.defineProperty(x, k, d); } }); print(Object.freeze(p) === p, log); log = ''; ",
            "print(Object.isFrozen(o), Object.keys(p).join(''), log); let q = new Proxy({ a: 1 }, { ",
            "preventExtensions(x) { return false; } }); try { Object.freeze(q); } catch (e) { print(e instanceof ",
            "TypeError); } let r = new Proxy({ a: 1, b: 2 }, { defineProperty(x, k, d) { log = log + k; return ",
            "false; } }); log = ''; try { Object.seal(r); } catch (e) { print(e instanceof TypeError, log); }",
        ],
        lines: &["true p!a=atruebc=ctrue", "true ac !ac", "true", "true a"],
        units: 582,
        at: &[311, 478, 517, 582],
    },
    // a few keys are visited
    Row {
        script: &[
            "let o = { x: 1, get g() { return 2; } }; print(Object.isFrozen(o), Object.keys(o).length); ",
            "Object.seal(o); print(Object.isFrozen(o), Object.getOwnPropertySymbols(o).length); ",
            "Object.freeze(o); print(Object.isFrozen(o), Reflect.ownKeys(o).length); print(Error('m').message);",
        ],
        lines: &["false 2", "false 0", "true 2", "m"],
        units: 147,
        at: &[35, 83, 135, 147],
    },
];

// Rows of methods that Object and Reflect ask for. Each text was written by hand, its units by the
// definitions of the meaning.
use super::rows::Row;

pub(super) const METHODS: &[Row] = &[
    // set with other receivers
    Row {
        script: &[
            "let r = {}; let o = { a: 1, set s(v) { this.t = v; return false; } }; print(Reflect.set(o, 'a', 2, ",
            "r), o.a, r.a); print(Reflect.set(o, 's', 3, r), o.t, r.t); print(Reflect.set(o, 'a', 4, 5), ",
            "Reflect.set(o, 'a', 4, undefined), o.a); let x = []; print(Reflect.set(o, '3', 6, x), x.length, ",
            "x[3], '3' in o); print(Reflect.set(x, 'length', 1, x), x.length, 3 in x); let f = {}; ",
            "Object.defineProperty(f, 'a', { value: 7 }); print(Reflect.set(o, 'a', 8, f), f.a, Reflect.set(f, ",
            "'a', 8, r), r.a); let g = { get a() { return 9; } }; print(Reflect.set(o, 'a', 8, g), g.a); try { ",
            "Reflect.set(x, 'length', -1, x); } catch (e) { print(e instanceof RangeError, x.length); }",
        ],
        lines: &[
            "true 1 2",
            "true undefined 3",
            "false false 1",
            "true 4 6 false",
            "true 1 false",
            "false 7 false 2",
            "false 9",
            "true 1",
        ],
        units: 283,
        at: &[36, 73, 103, 136, 163, 224, 251, 283],
    },
    // what a descriptor is asked for
    Row {
        script: &[
            "let j = (l, s) => { let t = ''; let i = 0; while (i < l.length) { t = i < 1 ? l[i] : t + s + l[i]; ",
            "i += 1; } return t; }; let log = ''; let d = { get set() { log = log + 's'; return undefined; }, ",
            "get get() { log = log + 'g'; return undefined; }, get enumerable() { log = log + 'e'; return 1; }, ",
            "get configurable() { log = log + 'c'; return ''; } }; let o = {}; print(Reflect.defineProperty(o, ",
            "'k', d), log); let p = Object.getOwnPropertyDescriptor(o, 'k'); print(p.enumerable, p.configurable, ",
            "p.get, 'value' in p, j(Object.keys(p), '')); log = ''; let t = { get enumerable() { log = log + ",
            "'e'; return true; }, get configurable() { log = log + 'c'; return true; }, get value() { log = log ",
            "+ 'v'; return 2; }, get writable() { log = log + 'w'; throw 5; }, get get() { log = log + 'g'; ",
            "return 1; } }; try { Object.defineProperty(o, 't', t); } catch (e) { print(e, log, 't' in o); } log ",
            "= ''; let q = { get: 1, get set() { log = log + 's'; return undefined; } }; try { ",
            "Object.defineProperty(o, 'q', q); } catch (e) { print(e instanceof TypeError, log === ''); } let b ",
            "= { value: 1, get set() { log = log + 's'; return undefined; } }; try { Object.defineProperty(o, ",
            "'b', b); } catch (e) { print(e instanceof TypeError, log); } try { Object.defineProperty(o, 'n', ",
            "7); } catch (e) { print(e instanceof TypeError); } function C() { this.own = 1; } C.prototype = { ",
            "value: 3, enumerable: true }; print(Object.defineProperty(o, 'h', new C()) === o, o.h, ",
            "j(Object.keys(o), ' '));",
        ],
        lines: &[
            "true ecgs",
            "true false undefined false getsetenumerableconfigurable",
            "5 ecvw false",
            "true true",
            "true s",
            "true",
            "true 3 k h",
        ],
        units: 610,
        at: &[89, 255, 340, 386, 438, 462, 610],
    },
    // a descriptor becomes an object
    Row {
        script: &[
            "let j = (l, s) => { let t = ''; let i = 0; while (i < l.length) { t = i < 1 ? l[i] : t + s + l[i]; ",
            "i += 1; } return t; }; let o = { a: 1, get b() { return 2; } }; let d = ",
            "Object.getOwnPropertyDescriptor(o, 'a'); print(d.value, d.writable, d.enumerable, d.configurable, ",
            "j(Object.keys(d), ' ')); let e = Object.getOwnPropertyDescriptor(o, 'b'); print(typeof e.get, e.set,",
            " j(Object.keys(e), ' ')); print(Object.getOwnPropertyDescriptor(o, 'c')); d.value = 5; print(o.a, ",
            "Reflect.getPrototypeOf(d) === Object.prototype);",
        ],
        lines: &[
            "1 true true true value writable enumerable configurable",
            "function undefined get set enumerable configurable",
            "undefined",
            "1 true",
        ],
        units: 376,
        at: &[],
    },
    // lists of what is like an array
    Row {
        script: &[
            "let f = function (a, b, c) { return '' + a + b + c + this; }; print(Reflect.apply(f, 1, {})); ",
            "print(Reflect.apply(f, 2, { length: -3, 0: 7 })); print(Reflect.apply(f, 3, { length: undefined, 0: ",
            "7 })); print(Reflect.apply(f, 4, { length: 2, 1: 7 })); print(Reflect.apply(f, 5, [8, 9])); try { ",
            "Reflect.apply(f, 6, { length: '2' }); } catch (e) { print(e instanceof TypeError); } try { ",
            "Reflect.apply(f, 6, 7); } catch (e) { print(e instanceof TypeError); } try { Reflect.apply(f, 6); } ",
            "catch (e) { print(e instanceof TypeError); } let log = ''; try { Reflect.apply(f, 6, { length: 3, ",
            "get 0() { log = log + 0; return 1; }, get 1() { log = log + 1; throw 4; }, get 2() { log = log + 2; ",
            "return 1; } }); } catch (e) { print(e, log); } function C(a) { this.a = a; } ",
            "print(Reflect.construct(C, { length: 1, 0: 6 }).a, Reflect.construct(C, []).a);",
        ],
        lines: &[
            "undefinedundefinedundefined1",
            "undefinedundefinedundefined2",
            "undefinedundefinedundefined3",
            "undefined7undefined4",
            "89undefined5",
            "true",
            "true",
            "true",
            "4 01",
            "6 undefined",
        ],
        units: 369,
        at: &[36, 71, 105, 144, 180, 207, 231, 254, 307, 369],
    },
    // prototypes are set
    Row {
        script: &[
            "let a = {}; let b = Object.create(a); let c = Object.create(b); print(Reflect.setPrototypeOf(a, c), ",
            "Reflect.setPrototypeOf(a, a), Reflect.getPrototypeOf(a) === Object.prototype); ",
            "print(Reflect.setPrototypeOf(c, b), Reflect.setPrototypeOf(a, null), Reflect.getPrototypeOf(a)); ",
            "print(Reflect.setPrototypeOf(b, c)); Reflect.preventExtensions(c); print(Reflect.setPrototypeOf(c, ",
            "a), Reflect.setPrototypeOf(c, b), Reflect.isExtensible(c)); try { Object.setPrototypeOf(a, c); } ",
            "catch (e) { print(e instanceof TypeError); } try { Reflect.setPrototypeOf(a, 5); } catch (e) { ",
            "print(e instanceof TypeError); } let d = Object.create(null); print(Object.setPrototypeOf(d, c) === ",
            "d, Reflect.getPrototypeOf(d) === c);",
        ],
        lines: &[
            "false false true",
            "true true null",
            "false",
            "false true false",
            "true",
            "true",
            "true true",
        ],
        units: 235,
        at: &[61, 92, 108, 148, 175, 198, 235],
    },
    // keys are listed and deleted
    Row {
        script: &[
            "let j = (l, s) => { let t = ''; let i = 0; while (i < l.length) { t = i < 1 ? l[i] : t + s + l[i]; ",
            "i += 1; } return t; }; let o = { x: 1, 1: 2, y: 3, 0: 4 }; print(j(Reflect.ownKeys(o), ' ')); ",
            "print(Reflect.deleteProperty(o, 'x'), Reflect.deleteProperty(o, 'x'), j(Reflect.ownKeys(o), ' ')); ",
            "print(Reflect.preventExtensions(o), Reflect.defineProperty(o, 'z', { value: 1 }), Reflect.has(o, ",
            "'z')); let a = [7, 8]; print(j(Reflect.ownKeys(a), ' '), Reflect.deleteProperty(a, 'length'), ",
            "Reflect.defineProperty(a, 'length', { value: 0 }), j(Reflect.ownKeys(a), ' '));",
        ],
        lines: &[
            "0 1 x y",
            "true true 0 1 y",
            "true false false",
            "0 1 length false true length",
        ],
        units: 529,
        at: &[],
    },
];

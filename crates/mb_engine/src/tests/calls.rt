// Rows of calls and methods. Each text was written by hand, its units by the definitions of the meaning.
use super::rows::Row;

pub(super) const CALLS: &[Row] = &[
    // getters and setters
    Row {
        script: &[
            "let o = { get a() { return this === o; }, set a(v) { this.b = v; return 99; } }; print(o.a, o.a = 5,",
            " o.b); let p = { get a() { throw 1; } }; try { p.a; } catch (e) { print(e); } let q = { set s(v) {} ",
            "}; print(q.s); let r = { get g() { return 1; } }; try { r.g = 2; } catch (e) { print(e instanceof ",
            "TypeError); }",
        ],
        lines: &["true 5 5", "1", "undefined", "true"],
        units: 99,
        at: &[44, 65, 76, 99],
    },
    // prototypes
    Row {
        script: &[
            "function A(n) { this.n = n; } A.prototype.get = function () { return this.n; }; A.prototype.k = 1; ",
            "let a = new A(4); print(a.get(), a.k, 'k' in a); a.k = 2; print(a.k, A.prototype.k); delete a.k; ",
            "print(a.k); function B() {} B.prototype = new A(7); let b = new B; print(b.n, b.get(), b instanceof ",
            "A, b instanceof B); b.n = 8; print(b.n, B.prototype.n); function C() {} C.prototype = { set s(v) { ",
            "this.t = v; }, get s() { return 'g' + this.t; } }; let c = new C; c.s = 3; print(c.t, c.s, ",
            "C.prototype.t);",
        ],
        lines: &[
            "4 1 true",
            "2 1",
            "1",
            "7 7 true true",
            "8 7",
            "3 g3 undefined",
        ],
        units: 257,
        at: &[72, 94, 108, 172, 194, 257],
    },
    // what a construction gives
    Row {
        script: &[
            "function A() { return { x: 1 }; } function B() { this.x = 2; return 3; } function C() { this.x = 4; ",
            "return; } function D() {} D.prototype = 5; print(new A().x, new B().x, new C().x); let d = new D; ",
            "print(d instanceof Object, 'hasOwnProperty' in d); function E() { return null; } print(typeof new ",
            "E); let m = { f() {} }; try { new m.f; } catch (e) { print(e instanceof TypeError); } try { new (() ",
            "=> 1); } catch (e) { print(e instanceof TypeError); }",
        ],
        lines: &["1 2 4", "true true", "object", "true", "true"],
        units: 147,
        at: &[72, 93, 107, 129, 147],
    },
    // arguments and this
    Row {
        script: &[
            "let f = function (a, b) { return b === undefined ? 'none' : b; }; print(f(1), f(1, 2), f(1, 2, 3)); ",
            "function g() { return this; } print(g() === undefined); let o = { g: g, h() { return () => this; }, ",
            "k: () => this }; print(o.g() === o, o.h()() === o, o.k() === undefined); let i = function fact(n) { ",
            "return n < 2 ? 1 : n * fact(n - 1); }; print(i(10)); let n = 0; let r = (k) => { if (k) { r(k - 1); ",
            "n += 1; } }; r(50); print(n);",
        ],
        lines: &["none 2 2", "true", "true true true", "3628800", "50"],
        units: 1088,
        at: &[],
    },
    // arrays
    Row {
        script: &[
            "let a = []; a[2] = 1; print(a.length, 0 in a, a[0]); a.length = 1; print(a.length, 2 in a); try { ",
            "a.length = -1; } catch (e) { print(e instanceof RangeError); } try { a.length = '1'; } catch (e) { ",
            "print(e instanceof TypeError); } a['4294967295'] = 1; print(a.length); a[4294967294] = 2; ",
            "print(a.length); let b = [1, 2, 3]; b.length = 0; print(b.length, b[0]); b.x = 5; print(b.length, ",
            "b.x);",
        ],
        lines: &[
            "3 false undefined",
            "1 false",
            "true",
            "true",
            "1",
            "4294967295",
            "0 undefined",
            "0 5",
        ],
        units: 188,
        at: &[],
    },
];

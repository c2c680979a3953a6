// Rows of expressions. Each text was written by hand, its units by the definitions of the meaning.
use super::rows::Row;

pub(super) const EXPRESSIONS: &[Row] = &[
    // the last whole number
    Row {
        script: &[
            "let show = (f) => { try { return f(); } catch (e) { return e instanceof RangeError ? 'R' : e ",
            "instanceof TypeError ? 'T' : 'F'; } };\n",
            "let m = 9007199254740991; let n = -9007199254740991;\n",
            "print(show(() => m + 1)); print(show(() => m - n)); print(show(() => n - 1)); print(show(() => m * ",
            "2)); print(show(() => m + 0)); print(show(() => 7 / 2)); print(show(() => 7 / 0)); print(show(() => ",
            "7 % 0)); print(-7 % 2, 7 % -2, -8 / 2);\n",
            "print(show(() => { let k = m; k++; return k; })); print(show(() => { let k = m; k += 1; return k; ",
            "})); print(-n === m);",
        ],
        lines: &[
            "R",
            "R",
            "R",
            "R",
            "9007199254740991",
            "R",
            "R",
            "R",
            "-1 1 -4",
            "R",
            "R",
            "true",
        ],
        units: 343,
        at: &[],
    },
    // compound assignment over a getter and a setter
    Row {
        script: &[
            "let reads = 0; let writes = 0; let x = 5; let a = { get b() { reads += 1; return x; }, set b(v) { ",
            "writes += 1; x = v; } };\n",
            "print(a.b += 3); print(reads, writes, x); print(a.b++); print(--a.b); print(reads, writes, x); let ",
            "calls = 0; let o = () => { calls += 1; return a; }; o().b -= 1; print(calls, x);",
        ],
        lines: &["8", "1 1 8", "8", "8", "3 3 8", "1 7"],
        units: 166,
        at: &[46, 54, 83, 112, 120, 166],
    },
    // calls of calls, and new
    Row {
        script: &[
            "let f = (a) => (b) => a + b; print(f(1)(2)); function C(a) { this.a = a; } print((new C).a, new ",
            "C(3).a, new C(4, 5).a); let o = { C: C, get() { return this === o; } }; print(new o.C(6).a); ",
            "print(o.get(), (o.get)(), (0, o.get)()); print(typeof new C);\n",
            "print(new C(1) instanceof C, {} instanceof C); let e = 0; try { new f(1); } catch (x) { e += 1; } ",
            "try { o(); } catch (x) { e += 1; } try { o.no(); } catch (x) { e += 1; } print(e);",
        ],
        lines: &[
            "3",
            "undefined 3 4",
            "6",
            "true true false",
            "object",
            "true false",
            "3",
        ],
        units: 259,
        at: &[],
    },
    // literals
    Row {
        script: &[
            "let n = 0; let k = () => { n += 1; return 'k' + n; }; let o = { a: 1, 'b c': 2, 7: 3, [k()]: n, get ",
            "g() { return 4; }, set g(v) { n = v; }, m(x, y) { return x + y; }, n, if: 8, get: 9 };\n",
            "print(o.a, o['b c'], o[7], o.k1, o.g, o.m(1, 2), o.n, o.if, o.get); o.g = 50; print(n); let a = [1, ",
            "'x', [2, 3], ]; print(a.length, a[0], a[1], a[2][1], a[3]);\n",
            "let c = 0; try { let z = { a: c += 1, [(() => { throw 0; })()]: c += 1 }; } catch (e) { c += 10; } ",
            "print(c); let h = { get p() { return 1; }, set p(v) { c = v; } }; h.p = 77; print(h.p, c); let d = ",
            "{ a: 1, a: 2, get a() { return 3; } }; print(d.a);\n",
            "let key = { ['a' + 1]: 1, [2]: 2, [true]: 3, [null]: 4 }; print(key.a1, key[2], key.true, key.null);",
        ],
        lines: &[
            "1 2 3 1 4 3 1 8 9",
            "50",
            "3 1 x 3 undefined",
            "11",
            "1 77",
            "3",
            "1 2 3 4",
        ],
        units: 261,
        at: &[],
    },
    // typeof
    Row {
        script: &[
            "print(typeof undefined, typeof null, typeof true, typeof 1, typeof '', typeof {}, typeof [], typeof ",
            "print, typeof (() => 1), typeof function () {}, typeof Symbol('s'), typeof desk); print(typeof ",
            "nowhere); try { typeof later1; print(typeof soon); } catch (e) { print(e instanceof ",
            "ReferenceError); } let soon = 1; print(typeof soon, typeof (nowhere));",
        ],
        lines: &[
            "undefined object boolean number string object object function function function symbol object",
            "undefined",
            "true",
            "number undefined",
        ],
        units: 76,
        at: &[35, 42, 64, 76],
    },
    // what can not be assigned
    Row {
        script: &[
            "let show = (f) => { try { return f(); } catch (e) { return e instanceof RangeError ? 'R' : e ",
            "instanceof TypeError ? 'T' : e instanceof ReferenceError ? 'F' : '?'; } };\n",
            "const c = 1; print(show(() => { c = 2; })); print(show(() => { c += 2; })); print(show(() => { c++; ",
            "})); print(show(() => { print = 1; })); print(show(() => { Object = 1; })); print(show(() => { desk ",
            "= 1; }));\n",
            "let f = function own() { own = 1; }; print(show(f)); print(show(() => { nowhere = 1; })); ",
            "print(show(() => { nowhere += 1; })); print(show(() => nowhere)); print(show(() => { soon = 1; })); ",
            "let soon = 0; print(show(() => { (1).a = 2; })); print(show(() => { null.a = 2; })); print(show(() ",
            "=> { print.name = 'x'; })); print(c, soon);",
        ],
        lines: &[
            "T", "T", "T", "T", "T", "T", "T", "F", "F", "F", "F", "T", "T", "T", "1 0",
        ],
        units: 630,
        at: &[],
    },
    // delete
    Row {
        script: &[
            "let show = (f) => { try { return f(); } catch (e) { return e instanceof RangeError ? 'R' : e ",
            "instanceof TypeError ? 'T' : 'F'; } };\n",
            "let o = { a: 1, get b() { return 2; } }; print(delete o.a, delete o.b, delete o.none, 'a' in o, 'b' ",
            "in o); let x = [1, 2]; print(delete x[0], 0 in x, x.length); print(show(() => delete x.length)); ",
            "print(show(() => delete print.name)); print(show(() => delete 'a'.length)); print(show(() => delete ",
            "undefined.a)); function f() {} print(show(() => delete f.prototype)); print(delete f.name, f.name ",
            "=== '');",
        ],
        lines: &[
            "true true true false false",
            "true false 2",
            "T",
            "T",
            "T",
            "T",
            "T",
            "true false",
        ],
        units: 281,
        at: &[],
    },
    // in and instanceof over objects
    Row {
        script: &[
            "let show = (f) => { try { return f(); } catch (e) { return e instanceof RangeError ? 'R' : e ",
            "instanceof TypeError ? 'T' : 'F'; } };\n",
            "function A() {} function B() {} let a = new A; A.prototype = B.prototype; print(a instanceof A, new ",
            "A instanceof B, new A instanceof A); print('x' in { x: undefined }, 'y' in { x: 1 }, 0 in [5], ",
            "'length' in [], 1 in [5], 'hasOwnProperty' in {}, null in { null: 1 }); A.prototype = 3; ",
            "print(show(() => a instanceof A)); print(show(() => 1 instanceof A)); print(show(() => a instanceof ",
            "(() => 1))); print(show(() => ({}) in a));",
        ],
        lines: &[
            "false true true",
            "true false true true false true true",
            "T",
            "false",
            "T",
            "T",
        ],
        units: 254,
        at: &[],
    },
    // only the parts that are needed
    Row {
        script: &[
            "let log = ''; let p = (s, v) => { log = log + s; return v; }; let n = (p('a', 1), p('b', 2)); n = ",
            "p('c', 0) && p('d', 1); n = p('e', 3) && p('f', n); n = p('g', 0) || p('h', 4); n = p('i', 5) || ",
            "p('j', n); n = p('k', '') ? p('l', 1) : p('m', 6); p('n', 1) ? p('o', 1) : p('p', 1); print(log, ",
            "n); log = ''; let o = {}; p('1', o)[p('2', 'k')] = p('3', 7); p('4', o)[p('5', 'k')] += p('6', 1); ",
            "print(log, o.k); log = ''; p('1', (a, b) => a)(p('2', 1), p('3', 2)); print(p('4', 1) + p('5', 2) * ",
            "p('6', 3), log); print(!'', !'0', !0, !{}, - -3);",
        ],
        lines: &[
            "abcefghikmno 6",
            "123456 8",
            "7 123456",
            "true false true false 3",
        ],
        units: 488,
        at: &[],
    },
    // reads of texts and primitives
    Row {
        script: &[
            "let show = (f) => { try { return f(); } catch (e) { return e instanceof RangeError ? 'R' : e ",
            "instanceof TypeError ? 'T' : 'F'; } };\n",
            "let s = 'abc'; print(s.length, s[0], s[2], s[3], s.no, s['1'], (5).x, true.x); print(show(() => ",
            "null.x)); print(show(() => undefined[0])); print(show(() => s[{}])); print('a' + 1 + true + null + ",
            "undefined, 1 + 2 + 'x', '' + -5); print('b' > 'a', 'a' < 'B', 'ab' > 'a', '' < 'a');",
        ],
        lines: &[
            "3 a c undefined undefined b undefined undefined",
            "T",
            "T",
            "T",
            "a1truenullundefined 3x -5",
            "true false true true",
        ],
        units: 191,
        at: &[],
    },
    // functions have their properties
    Row {
        script: &[
            "function f(a, b) {} let g = (x) => x; let h = function own(a) {}; let o = { m(a) {}, get p() { ",
            "return 1; }, [Symbol('s')]() {} }; print(f.length, f.name, g.length, g.name === '', h.name, ",
            "o.m.name, o.m.length); print(f.prototype.constructor === f, typeof g.prototype, typeof ",
            "o.m.prototype, typeof h.prototype); try { f.name = 'x'; } catch (e) { print(e instanceof ",
            "TypeError); } f.prototype = 1; print(f.prototype);",
        ],
        lines: &[
            "2 f 1 true own m 1",
            "true undefined undefined object",
            "true",
            "1",
        ],
        units: 118,
        at: &[52, 82, 102, 118],
    },
    // a long list
    Row {
        script: &[
            "let a = [1,1,1,1,1,1,1,1,1,1,1,1,1,1,1,1,1,1,1,1,1,1,1,1,1,1,1,1,1,1,1,1,1,1,1,1,1,1,1,1,1,1,1,1,1,",
            "1,1,1,1,1,1,1,1,1,1,1,1,1,1,1,1,1,1,1,1,1,1,1,1,1,1,1,1,1,1,1,1,1,1,1,1,1,1,1,1,1,1,1,1,1,1,1,1,1,1,",
            "1,1,1,1,1,1,1,1,1,1,1,1,1,1,1,1,1,1,1,1,1,1,1,1,1,1,1,1,1,1,1,1,1,1,1,1,1,1,1,1,1,1,1,1,1,1,1,1,1,1,",
            "1,1,1,1,1,1,1,1,1,1,1,1,1,1,1,1,1,1,1,1,1,1,1,1,1,1,1,1,1,1,1,1,1,1,1,1,1,1,1,1,1,1,1,1,1,1,1,1,1,1,",
            "1,1,1,1,1,1,1,1,1,1,1,1,1,1,1,1,1,1,1,1,1,1,1,1,1,1,1,1,1,1,1,1,1,1,1,1,1,1,1,1,1,1,1,1,1,1,1,1,1,1,",
            "1,1,1,1,1,1,1,1,1,1,1,1,1,1,1,1,1,1,1,1,1,1,1,1,1,1,1,1,1,1,1,1,1,1,1,1,1,1,1,1,1,1,1,1,1,1,1,1,1,1,",
            "1,1,1,1,7]; print(a.length, a[299]); let f = (x, y) => y; print(f(1,5,2,2,2,2,2,2,2,2,2,2,2,2,2,2,2,",
            "2,2,2,2,2,2,2,2,2,2,2,2,2,2,2,2,2,2,2,2,2,2,2,2,2,2,2,2,2,2,2,2,2,2,2,2,2,2,2,2,2,2,2,2,2,2,2,2,2,2,",
            "2,2,2,2,2,2,2,2,2,2,2,2,2,2,2,2,2,2,2,2,2,2,2,2,2,2,2,2,2,2,2,2,2,2,2,2,2,2,2,2,2,2,2,2,2,2,2,2,2,2,",
            "2,2,2,2,2,2,2,2,2,2,2,2,2,2,2,2,2,2,2,2,2,2,2,2,2,2,2,2,2,2,2,2,2,2,2,2,2,2,2,2,2,2,2,2,2,2,2,2,2,2,",
            "2,2,2,2,2,2,2,2,2,2,2,2,2,2,2,2,2,2,2,2,2,2,2,2,2,2,2,2,2,2,2,2,2,2,2,2,2,2,2,2,2,2,2,2,2,2,2,2,2,2,",
            "2,2,2,2,2,2,2,2,2,2,2,2,2,2,2,2,2,2,2,2,2,2,2,2,2,2,2,2,2,2,2,2,2,2,2,2,2,2,2,2,2,2,2,2,2,2,2,2,2,2,",
            "2,2,2,2,2,2,2,2,2,2,2,2,2,2,2,2,2,2,2,2,2,2,2,2,2,2,2,2,2,2,2,2,2));",
        ],
        lines: &["300 7", "5"],
        units: 630,
        at: &[],
    },
];

// Rows of Array and its members. Each text was written by hand, its units by the definitions of the meaning.
use super::rows::Row;

pub(super) const ARRAY_MEMBERS: &[Row] = &[
    // Array and its lengths
    Row {
        script: &[
            "let show = (f) => { try { return f(); } catch (e) { return e instanceof RangeError ? 'R' : e ",
            "instanceof TypeError ? 'T' : 'F'; } };\n",
            "print(Array().length, Array(3).length, Array('3').length, Array(1, 2)[1], Array(undefined).length, ",
            "0 in Array(3)); print(show(() => Array(-1))); print(Array(4294967295).length); print(show(() => ",
            "Array(4294967296))); print(Array.isArray(Array(2)), Array.isArray({ length: 0 }), Array.isArray(), ",
            "new Array(2).length, Array.length, Array.name);",
        ],
        lines: &[
            "0 3 1 2 1 false",
            "R",
            "4294967295",
            "R",
            "true false false 2 1 Array",
        ],
        units: 177,
        at: &[],
    },
    // Array with a new target
    Row {
        script: &[
            "function C() {} let a = Reflect.construct(Array, [2], C); print(a.length, a instanceof C, a ",
            "instanceof Array, Array.isArray(a)); C.prototype = 3; let b = Reflect.construct(Array, [1, 2], C); ",
            "print(b.length, b instanceof Array, b[1]);",
        ],
        lines: &["2 true false true", "2 true 2"],
        units: 93,
        at: &[],
    },
    // push
    Row {
        script: &[
            "let show = (f) => { try { return f(); } catch (e) { return e instanceof RangeError ? 'R' : e ",
            "instanceof TypeError ? 'T' : 'F'; } };\n",
            "let p = Array.prototype; let a = [1]; print(a.push(2, 3), a.length, a[2], a.push(), a.length); let ",
            "o = { length: 2, 1: 'x' }; print(p.push.call(o, 'y'), o.length, o[2]); let u = {}; ",
            "print(p.push.call(u, 1), u.length, u[0]); let big = { length: 9007199254740991 }; print(show(() => ",
            "p.push.call(big, 1)), big.length); print(show(() => p.push.call(big))); print(show(() => ",
            "p.push.call(undefined, 1)), show(() => p.push.call(5, 1)));",
        ],
        lines: &[
            "3 3 3 3 3",
            "3 3 y",
            "1 1 1",
            "T 9007199254740991",
            "9007199254740991",
            "T T",
        ],
        units: 331,
        at: &[],
    },
    // push sets the length last
    Row {
        script: &[
            "let p = Array.prototype; let log = ''; let s = { get length() { log = log + 'l'; return 1; }, set ",
            "length(v) { log = log + 'L' + v; }, set 1(v) { log = log + '1' + v; }, set 2(v) { log = log + '2' + ",
            "v; } }; print(p.push.call(s, 'a', 'b'), log);",
        ],
        lines: &["3 l1a2bL3"],
        units: 84,
        at: &[84],
    },
    // push past the longest array
    Row {
        script: &[
            "let show = (f) => { try { return f(); } catch (e) { return e instanceof RangeError ? 'R' : e ",
            "instanceof TypeError ? 'T' : 'F'; } };\n",
            "let e = Array(4294967295); print(show(() => e.push('x')), e.length, e[4294967295]);",
        ],
        lines: &["R 4294967295 x"],
        units: 63,
        at: &[],
    },
    // pop
    Row {
        script: &[
            "let show = (f) => { try { return f(); } catch (e) { return e instanceof RangeError ? 'R' : e ",
            "instanceof TypeError ? 'T' : 'F'; } };\n",
            "let p = Array.prototype; let a = [1, 2]; print(a.pop(), a.length, a[1], a.pop(), a.pop(), ",
            "a.length); let o = { length: 2, 1: 'x' }; print(p.pop.call(o), o.length, 1 in o); let n = { length: ",
            "-5 }; print(p.pop.call(n), n.length); let e = {}; print(p.pop.call(e), e.length); let log = ''; let ",
            "g = { get length() { log = log + 'l'; return 1; }, set length(v) { log = log + 'L' + v; }, get 0() ",
            "{ log = log + '0'; return 'z'; } }; print(p.pop.call(g), log, 0 in g); print(show(() => ",
            "p.pop.call(null)));",
        ],
        lines: &[
            "2 1 undefined 1 undefined 0",
            "x 1 false",
            "undefined 0",
            "undefined 0",
            "z l0L0 false",
            "T",
        ],
        units: 280,
        at: &[],
    },
    // forEach, map and filter over holes
    Row {
        script: &[
            "let show = (f) => { try { return f(); } catch (e) { return e instanceof RangeError ? 'R' : e ",
            "instanceof TypeError ? 'T' : 'F'; } };\n",
            "let a = [1, 2, 3]; delete a[1]; let log = ''; print(a.forEach((x, i, o) => { log = log + x + i + (o ",
            "=== a) + ' '; })); print(log); let m = a.map((x, i) => x * 2 + i); print(m.length, m[0], 1 in m, ",
            "m[2]); let f = a.filter((x, i, o) => x > 1 || i === 0); print(f.length, f[0], f[1]); let t = {}; ",
            "print([1].map(function () { return this === t; }, t)[0], [1].map(function () { return this === ",
            "undefined; })[0]); print(show(() => a.map(1)), show(() => a.forEach()), show(() => a.filter({})), ",
            "show(() => [].map(1)));",
        ],
        lines: &[
            "undefined",
            "10true 32true ",
            "3 2 false 8",
            "2 1 3",
            "true true",
            "T T T T",
        ],
        units: 428,
        at: &[],
    },
    // a length that a function changes
    Row {
        script: &[
            "let a = [1, 2, 3]; let log = ''; a.forEach((x) => { log = log + x; a.length = 1; }); print(log, ",
            "a.length); let b = [1]; let k = 0; b.forEach((x) => { k += 1; if (k < 5) { b.push(x); } }); print(k,",
            " b.length); let c = [1, 2]; let m = c.map((x) => { c.pop(); return x; }); print(m.length, m[0], 1 ",
            "in m, c.length); try { [1, 2].forEach((x) => { throw x; }); } catch (e) { print(e); }",
        ],
        lines: &["1 1", "1 2", "2 1 false 1", "1"],
        units: 209,
        at: &[60, 118, 179, 209],
    },
    // the array of map is made before its loop
    Row {
        script: &[
            "let show = (f) => { try { return f(); } catch (e) { return e instanceof RangeError ? 'R' : e ",
            "instanceof TypeError ? 'T' : 'F'; } };\n",
            "let p = Array.prototype; let calls = 0; print(show(() => p.map.call({ length: 4294967296, 0: 1 }, ",
            "() => { calls += 1; })), calls); print(show(() => p.slice.call({ length: 4294967296 })));",
        ],
        lines: &["R 0", "R"],
        units: 101,
        at: &[],
    },
    // reduce
    Row {
        script: &[
            "let show = (f) => { try { return f(); } catch (e) { return e instanceof RangeError ? 'R' : e ",
            "instanceof TypeError ? 'T' : 'F'; } };\n",
            "print([1, 2, 3].reduce((s, x, i) => s * 10 + x + i), [1, 2, 3].reduce((s, x) => s + x, 10), ",
            "[].reduce((s, x) => s, 7)); print(show(() => [].reduce((s, x) => s))); let h = [1, 2]; delete h[0]; ",
            "print(h.reduce((s, x) => s + x)); delete h[1]; print(show(() => h.reduce((s, x) => s)), h.reduce((s,",
            " x) => s, 'i')); let log = ''; [5, 6].reduce((s, x, i, o) => { log = log + s + x + i + o.length + ' ",
            "'; return 'r'; }, 'a'); print(log); print([1].reduce((s, x) => s === undefined, undefined)); ",
            "print(show(() => [1].reduce()));",
        ],
        lines: &["135 16 7", "T", "2", "T i", "a502 r612 ", "true", "T"],
        units: 410,
        at: &[108, 154, 185, 263, 338, 364, 410],
    },
    // indexOf
    Row {
        script: &[
            "let show = (f) => { try { return f(); } catch (e) { return e instanceof RangeError ? 'R' : e ",
            "instanceof TypeError ? 'T' : 'F'; } };\n",
            "let p = Array.prototype; let a = [1, 2, 1, undefined]; print(a.indexOf(1), a.indexOf(1, 1), ",
            "a.indexOf(1, -2), a.indexOf(1, -9), a.indexOf(1, 9), a.indexOf(3), a.indexOf(undefined), ",
            "a.indexOf('1')); delete a[3]; print(a.indexOf(undefined), [].indexOf(1), a.indexOf(1, undefined), ",
            "show(() => a.indexOf(1, '0')), show(() => [].indexOf(1, {}))); print(p.indexOf.call({ length: 2, 1: ",
            "'x' }, 'x'));",
        ],
        lines: &["0 2 2 0 -1 -1 3 -1", "-1 -1 0 T T", "1"],
        units: 317,
        at: &[],
    },
    // slice
    Row {
        script: &[
            "let show = (f) => { try { return f(); } catch (e) { return e instanceof RangeError ? 'R' : e ",
            "instanceof TypeError ? 'T' : 'F'; } };\n",
            "let p = Array.prototype; let a = [1, 2, 3, 4]; let t = (x) => x.length + ':' + x.join(); ",
            "print(t(a.slice()), t(a.slice(1)), t(a.slice(1, 3)), t(a.slice(-2)), t(a.slice(-9, -1)), ",
            "t(a.slice(2, 1)), t(a.slice(1, 99)), t(a.slice(9))); delete a[1]; let s = a.slice(0, 3); ",
            "print(s.length, 1 in s, s === a); print(show(() => a.slice('1')), show(() => [].slice(null)), ",
            "show(() => a.slice(0, true))); print(t(p.slice.call({ length: 2, 0: 'x', 1: 'y' }, 1)));",
        ],
        lines: &[
            "4:1,2,3,4 3:2,3,4 2:2,3 2:3,4 3:1,2,3 0: 3:2,3,4 0:",
            "3 false false",
            "T T T",
            "1:y",
        ],
        units: 561,
        at: &[],
    },
    // join
    Row {
        script: &[
            "let show = (f) => { try { return f(); } catch (e) { return e instanceof RangeError ? 'R' : e ",
            "instanceof TypeError ? 'T' : 'F'; } };\n",
            "print([1, 'a', true, undefined, null, 7].join(), [1, 2].join('-'), [1, 2].join(3), [].join(), ",
            "[1].join('x'), [1, 2].join(undefined), [1, 2].join(null)); print(show(() => [1].join(Symbol('s'))), ",
            "show(() => [1].join({})), show(() => [Symbol('s')].join()), show(() => [{}].join()), show(() => ",
            "[[1]].join()), show(() => [].join({})));",
        ],
        lines: &["1,a,true,,,7 1-2 132  1 1,2 1null2", "T T T T T T"],
        units: 382,
        at: &[114, 382],
    },
    // join past the longest text
    Row {
        script: &[
            "let show = (f) => { try { return f(); } catch (e) { return e instanceof RangeError ? 'R' : e ",
            "instanceof TypeError ? 'T' : 'F'; } };\n",
            "let s = 'ab'; let i = 0; while (i < 18) { s = s + s; i += 1; } print(s.length); print([s, ",
            "s].join('').length); print(show(() => [s, s].join('-')), show(() => [s, s, 'a'].join('')));",
        ],
        lines: &["524288", "1048576", "R R"],
        units: 33144,
        at: &[],
    },
    // array-likes with getters
    Row {
        script: &[
            "let show = (f) => { try { return f(); } catch (e) { return e instanceof RangeError ? 'R' : e ",
            "instanceof TypeError ? 'T' : 'F'; } };\n",
            "let p = Array.prototype; let log = ''; let o = { get length() { log = log + 'l'; return 3; }, get ",
            "0() { log = log + '0'; return 'a'; }, get 2() { log = log + '2'; return 'c'; } }; p.forEach.call(o, ",
            "(x, i) => { log = log + x + i; }); print(log); print(show(() => p.forEach.call({ length: '2' }, ",
            "print)), p.forEach.call({}, print), show(() => p.forEach.call({ get length() { return null; } }, ",
            "print))); log = ''; print(p.join.call(o, '-'), log);",
        ],
        lines: &["l0a02c2", "T undefined T", "a--c l02"],
        units: 281,
        at: &[101, 220, 281],
    },
    // a frozen array
    Row {
        script: &[
            "let show = (f) => { try { return f(); } catch (e) { return e instanceof RangeError ? 'R' : e ",
            "instanceof TypeError ? 'T' : 'F'; } };\n",
            "let a = Object.freeze([1]); print(show(() => a.push(2)), show(() => a.pop()), a.length, a.map((x) ",
            "=> x + 1)[0], a.filter((x) => true).length); let e = Object.freeze([]); print(show(() => e.pop()), ",
            "show(() => e.push()));",
        ],
        lines: &["T T 1 2 1", "T T"],
        units: 261,
        at: &[],
    },
];

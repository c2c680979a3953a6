// Rows of statements. Each text was written by hand, its units by the definitions of the meaning.
use super::rows::Row;

pub(super) const STATEMENTS: &[Row] = &[
    // closures over the turn of a for
    Row {
        script: &[
            "let a = []; for (let i = 0; i < 3; i++) { a[i] = () => i; } print(a[0](), a[1](), a[2]()); let b = ",
            "[]; for (let i = 0; i < 3; i++) { b[i] = () => i; i += 1; } print(b[0](), b[2]()); let c; for (let ",
            "i = 0, f = () => i; i < 2; i++) { c = f; } print(c()); let x; for (x = 0; x < 2; x++) {} print(x);",
        ],
        lines: &["0 1 2", "1 3", "0", "2"],
        units: 244,
        at: &[],
    },
    // what ends finally wins
    Row {
        script: &[
            "let f = () => { try { throw 1; } finally { return 2; } }; print(f()); let g = () => { while (true) ",
            "{ try { return 1; } finally { break; } } return 3; }; print(g()); let h = () => { try { return 4; } ",
            "finally { 5; } }; print(h()); let log = ''; let k = () => { try { throw 'a'; } catch (e) { log = ",
            "log + e; throw 'b'; } finally { log = log + 'c'; } }; try { k(); } catch (e) { log = log + e; } ",
            "print(log); let m = () => { for (let i = 0; i < 3; i++) { try { continue; } finally { log = log + ",
            "i; } } return log; }; print(m()); let n = () => { try { throw 1; } catch { return 6; } }; ",
            "print(n());",
        ],
        lines: &["2", "3", "4", "acb", "acb012", "6"],
        units: 201,
        at: &[25, 47, 65, 111, 183, 201],
    },
    // continue and break
    Row {
        script: &[
            "let s = ''; let i = 0; do { i += 1; if (i === 2) continue; s = s + i; } while (i < 4); print(s); s ",
            "= ''; i = 0; while (i < 5) { i += 1; if (i === 3) { continue; } if (i === 5) { break; } s = s + i; ",
            "} print(s); s = ''; for (let j = 0; j < 5; j++) { if (j === 1) continue; s = s + j; } print(s); s = ",
            "''; for (let j = 0; j < 3; j++) { for (let k = 0; k < 3; k++) { if (k === 1) break; s = s + j + k + ",
            "' '; } } print(s); let n = 0; while (true) { while (true) { break; } n += 1; if (n === 2) break; } ",
            "print(n); for (;;) { break; } if (0) print('no'); else print('else'); if ('') { print('no'); } do n ",
            "= 9; while (false); print(n);",
        ],
        lines: &["134", "124", "0234", "00 10 20 ", "2", "else", "9"],
        units: 499,
        at: &[],
    },
    // names before they are given
    Row {
        script: &[
            "print(f()); function f() { return g(); } function g() { return 1; } try { x; } catch (e) { print(e ",
            "instanceof ReferenceError); } let x; print(x); { try { x = 1; } catch (e) { print(e instanceof ",
            "ReferenceError); } let x = 2; print(x); } print(x); let h = () => y; try { h(); } catch (e) { ",
            "print(e instanceof ReferenceError); } const y = 3; print(h()); { function f() { return 2; } ",
            "print(f()); } print(f()); try { let z = z; } catch (e) { print(e instanceof ReferenceError); }",
        ],
        lines: &[
            "1",
            "true",
            "undefined",
            "true",
            "2",
            "undefined",
            "true",
            "3",
            "2",
            "1",
            "true",
        ],
        units: 161,
        at: &[21, 39, 46, 66, 74, 80, 102, 114, 128, 144, 161],
    },
    // a catch name shadows
    Row {
        script: &[
            "let e = 1; try { throw 2; } catch (e) { print(e); e = 3; print(e); { let e = 4; print(e); } } ",
            "print(e); try { throw 5; } catch { print(e); } try { null.x; } catch (t) { print(t instanceof ",
            "TypeError, t instanceof ReferenceError); } try { try { throw 6; } finally { print('f'); } } catch ",
            "(v) { print(v); }",
        ],
        lines: &["2", "3", "4", "1", "1", "true false", "f", "6"],
        units: 98,
        at: &[15, 25, 35, 41, 52, 77, 90, 98],
    },
];

// Rows of built-ins. Each text was written by hand, its units by the definitions of the meaning.
use super::rows::Row;

pub(super) const BUILT_INS: &[Row] = &[
    // print
    Row {
        script: &[
            "print(); print(1, 'a', undefined); print(print('in')); print('a\\nb'); try { print({}); } catch (e) ",
            "{ print(e instanceof TypeError); } try { print(Symbol('s')); } catch (e) { print('threw'); }",
        ],
        lines: &[
            "",
            "1 a undefined",
            "in",
            "undefined",
            "a\\nb",
            "true",
            "threw",
        ],
        units: 69,
        at: &[5, 13, 21, 23, 29, 49, 69],
    },
    // String, Symbol, labelled, later
    Row {
        script: &[
            "print(String(), String(undefined), String(null), String(true), String(-5), String('x')); try { ",
            "String({}); } catch (e) { print(e instanceof TypeError); } let s = Symbol('k'); let o = { [s]: 1 }; ",
            "print(o[s], typeof s, s === s, Symbol('k') === Symbol('k')); try { Symbol({}); } catch (e) { ",
            "print(e instanceof TypeError); } let l = labelled('Box'); l.x = 3; print(l.x); try { labelled(1); } ",
            "catch (e) { print(e instanceof TypeError); } print(later(() => 1)); try { later(1); } catch (e) { ",
            "print(e instanceof TypeError); } print(print.name, print.length, later.length, labelled.name);",
        ],
        lines: &[
            " undefined null true -5 x",
            "true",
            "1 symbol true false",
            "true",
            "3",
            "true",
            "undefined",
            "true",
            "print 0 1 labelled",
        ],
        units: 204,
        at: &[38, 58, 94, 114, 137, 157, 167, 187, 204],
    },
];

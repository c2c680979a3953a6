// What one side does to objects of the other, with its entries.
use super::*;

#[test]
fn entries_of_what_crosses(rt: HostRuntime) {
    let rows: [(&[&str], &str, &str, Status, &str); 8] = [
        (
            &["shared", "l", "r", "--trace"],
            "desk.f = () => { print(\"in f\"); throw \"x\"; };",
            "later(desk.f);",
            Status::Uncaught,
            "T 0 R #0 get \"f\" - #1\n\
                L in f\n\
                T 1 R #1 apply - - throw \"x\"\n\
                R! value x\n\
                = uncaught\n",
        ),
        (
            &["shared", "l", "r", "--trace"],
            "desk.a = [1, { p: 2 }];",
            "print(desk.a.map((x, i, o) => (o === desk.a) + typeof x).join());",
            Status::Done,
            "T 0 R #0 get \"a\" - #1\n\
                T 1 R #1 get \"map\" - @Array.prototype.map\n\
                T 2 R #1 get \"length\" - 2\n\
                T 3 R #1 has \"0\" - true\n\
                T 4 R #1 get \"0\" - 1\n\
                T 5 R #0 get \"a\" - #1\n\
                T 6 R #1 has \"1\" - true\n\
                T 7 R #1 get \"1\" - #2\n\
                T 8 R #0 get \"a\" - #1\n\
                R truenumber,trueobject\n\
                = done\n",
        ),
        (
            &["shared", "l", "r", "--trace"],
            "function N() { } N.prototype.tag = \"n\"; desk.N = N;",
            "let e = Reflect.construct(RangeError, [\"m\"], desk.N); print(e.tag, e.message, \
                Reflect.ownKeys(e).join()); throw e;",
            Status::Uncaught,
            "T 0 R #0 get \"N\" - #1\n\
                T 1 R #1 get \"prototype\" - #2\n\
                T 2 R #2 get \"tag\" - \"n\"\n\
                R n m message\n\
                R! RangeError\n\
                = uncaught\n",
        ),
        (
            &["shared", "l", "r", "--trace"],
            "desk.f = (a, b) => a + b; desk.args = { length: 2, 0: \"a\", 1: \"b\" };",
            "print(Reflect.apply(desk.f, undefined, desk.args));",
            Status::Done,
            "T 0 R #0 get \"f\" - #1\n\
                T 1 R #0 get \"args\" - #2\n\
                T 2 R #2 get \"length\" - 2\n\
                T 3 R #2 get \"0\" - \"a\"\n\
                T 4 R #2 get \"1\" - \"b\"\n\
                T 5 R #1 apply - - \"ab\"\n\
                R ab\n\
                = done\n",
        ),
        (
            &["shared", "l", "r", "--trace"],
            "desk.x = 5;",
            "desk[(print(\"k\"), \"x\")] += (print(\"v\"), 1);",
            Status::Done,
            "R k\n\
                T 0 R #0 get \"x\" - 5\n\
                R v\n\
                T 1 R #0 getOwnPropertyDescriptor \"x\" - \
                {value=5,writable=true,enumerable=true,configurable=true}\n\
                T 2 R #0 defineProperty \"x\" {value=6} true\n\
                T 1 R #0 set \"x\" 6 true\n\
                = done\n",
        ),
        (
            &["shared", "l", "r", "--trace"],
            "desk.p = { get k() { return this; } };",
            "let o = Object.create(desk.p); print(o.k === o);",
            Status::Done,
            "T 0 R #0 get \"p\" - #1\n\
                T 1 R #2 apply - - #3\n\
                T 1 R #1 get \"k\" - #3\n\
                R true\n\
                = done\n",
        ),
        (
            &["shared", "l", "r", "--trace"],
            "desk.p = { set k(v) { this.v = v; } };",
            "let o = Object.create(desk.p); o.k = 5; print(o.v);",
            Status::Done,
            "T 0 R #0 get \"p\" - #1\n\
                T 1 L #3 getOwnPropertyDescriptor \"v\" - none\n\
                T 2 L #3 defineProperty \"v\" {value=5,writable=true,enumerable=true,configurable=true} true\n\
                T 1 L #3 set \"v\" 5 true\n\
                T 1 R #2 apply - - undefined\n\
                T 1 R #1 set \"k\" 5 true\n\
                R 5\n\
                = done\n",
        ),
        (
            &["shared", "l", "r", "--trace"],
            "desk.l = (f) => { later(f); later(() => { throw f; }); };",
            "desk.l(() => print(\"in\")); later(() => print(\"own\")); later(desk.l);",
            Status::Uncaught,
            "T 0 R #0 get \"l\" - #1\n\
                T 1 R #1 apply - - undefined\n\
                T 2 R #0 get \"l\" - #1\n\
                R in\n\
                T 3 L #2 apply - - undefined\n\
                R own\n\
                L! object\n\
                T 4 R #1 apply - - throw #5\n\
                R! TypeError\n\
                = uncaught\n",
        ),
    ];
    for (words, left, right, status, text) in rows {
        assert!(rt;
            shares(rt.alloc(), words, left, right, status, text),
            "{left} {right}"
        );
    }
}

#[test]
fn receivers_and_lengths_across(rt: HostRuntime) {
    let rows: [(&[&str], &str, &str, Status, &str); 3] = [
        (
            &["shared", "l", "r", "--trace"],
            "desk.o = {}; desk.s = { set v(x) { print(this === desk.o, x); } };",
            "let r0 = {}; print(Reflect.set(desk.o, \"x\", 1, r0), r0.x); print(Reflect.set({}, \"y\", r0, \
                desk.o)); Reflect.set(desk.s, \"v\", 3, desk.o); Reflect.defineProperty(desk.o, \"g\", { get: \
                () => 1, enumerable: 5 }); Reflect.getOwnPropertyDescriptor(desk.o, \"g\"); \
                Reflect.setPrototypeOf(desk.o, Reflect); Reflect.getPrototypeOf(desk.o);",
            Status::Done,
            "T 0 R #0 get \"o\" - #1\n\
                T 1 R #1 set \"x\" 1 true\n\
                R true 1\n\
                T 2 R #0 get \"o\" - #1\n\
                T 3 R #1 getOwnPropertyDescriptor \"y\" - none\n\
                T 4 R #1 defineProperty \"y\" {value=#4,writable=true,enumerable=true,configurable=true} true\n\
                R true\n\
                T 5 R #0 get \"s\" - #2\n\
                T 6 R #0 get \"o\" - #1\n\
                L true 3\n\
                T 7 R #3 apply - - undefined\n\
                T 7 R #2 set \"v\" 3 true\n\
                T 9 R #0 get \"o\" - #1\n\
                T 10 R #1 defineProperty \"g\" {get=#7,enumerable=true} true\n\
                T 11 R #0 get \"o\" - #1\n\
                T 12 R #1 getOwnPropertyDescriptor \"g\" - \
                {get=#7,set=undefined,enumerable=true,configurable=false}\n\
                T 13 R #0 get \"o\" - #1\n\
                T 14 R #1 setPrototypeOf - @Reflect true\n\
                T 15 R #0 get \"o\" - #1\n\
                T 16 R #1 getPrototypeOf - - @Reflect\n\
                = done\n",
        ),
        (
            &["shared", "l", "r", "--trace"],
            "desk.a = [1, 2]; Object.defineProperty(desk.a, \"0\", { configurable: false });",
            "desk.a.length = 1; print(Reflect.set(desk.a, \"length\", 0)); try { desk.a.length = \"0\"; } \
                catch (e) { desk.e = e; }",
            Status::Done,
            "T 0 R #0 get \"a\" - #1\n\
                T 1 R #1 getOwnPropertyDescriptor \"length\" - \
                {value=2,writable=true,enumerable=false,configurable=false}\n\
                T 2 R #1 defineProperty \"length\" {value=1} true\n\
                T 1 R #1 set \"length\" 1 true\n\
                T 4 R #0 get \"a\" - #1\n\
                T 5 R #1 getOwnPropertyDescriptor \"length\" - \
                {value=1,writable=true,enumerable=false,configurable=false}\n\
                T 6 R #1 defineProperty \"length\" {value=0} false\n\
                T 5 R #1 set \"length\" 0 false\n\
                R false\n\
                T 8 R #0 get \"a\" - #1\n\
                T 9 R #1 getOwnPropertyDescriptor \"length\" - \
                {value=1,writable=true,enumerable=false,configurable=false}\n\
                T 10 R #1 defineProperty \"length\" {value=\"0\"} throw #3\n\
                T 9 R #1 set \"length\" \"0\" throw #3\n\
                T 12 R #0 getOwnPropertyDescriptor \"e\" - none\n\
                T 13 R #0 defineProperty \"e\" {value=#3,writable=true,enumerable=true,configurable=true} true\n\
                T 12 R #0 set \"e\" #3 true\n\
                = done\n",
        ),
        (
            &["shared", "l", "r", "--trace"],
            "desk.o = Object.create({ a: 1 }); desk.C = function () { };",
            "print(\"a\" in desk.o, delete desk.o.a); print(desk.o instanceof desk.C);",
            Status::Done,
            "T 0 R #0 get \"o\" - #2\n\
                T 1 R #1 has \"a\" - true\n\
                T 1 R #2 has \"a\" - true\n\
                T 3 R #0 get \"o\" - #2\n\
                T 4 R #2 deleteProperty \"a\" - true\n\
                R true true\n\
                T 5 R #0 get \"o\" - #2\n\
                T 6 R #0 get \"C\" - #3\n\
                T 7 R #3 get \"prototype\" - #4\n\
                T 8 R #2 getPrototypeOf - - #1\n\
                T 9 R #1 getPrototypeOf - - @Object.prototype\n\
                R false\n\
                = done\n",
        ),
    ];
    for (words, left, right, status, text) in rows {
        assert!(rt;
            shares(rt.alloc(), words, left, right, status, text),
            "{left} {right}"
        );
    }
}

#[test]
fn units_and_spellings(rt: HostRuntime) {
    let rows: [(&[&str], &str, &str, Status, &str); 8] = [
        (
            &["shared", "l", "r", "--budget", "32"],
            "for (let i = 0; i < 2; i += 1) { if (i === 0) { continue; } print(i); }",
            "",
            Status::Spent,
            "= spent\n",
        ),
        (
            &["shared", "l", "r", "--budget", "33"],
            "for (let i = 0; i < 2; i += 1) { if (i === 0) { continue; } print(i); }",
            "",
            Status::Spent,
            "L 1\n= spent\n",
        ),
        (
            &["shared", "l", "r", "--schedule", "RRRRLL"],
            "print(1); later(() => print(2)); later(() => print(3));",
            "print(\"a\"); later(() => print(\"b\"));",
            Status::Done,
            "R a\nR b\nL 1\nL 2\nL 3\n= done\n",
        ),
        (
            &["shared", "l", "r", "--trace", "--budget", "15"],
            "desk.f = () => 1;",
            "desk.f();",
            Status::Spent,
            "T 0 R #0 get \"f\" - #1\n= spent\n",
        ),
        (
            &["shared", "l", "r", "--budget", "17"],
            "Reflect.ownKeys({ a: 1, b: 2, c: 3 });",
            "",
            Status::Spent,
            "= spent\n",
        ),
        (
            &["shared", "l", "r"],
            "print(\"\\u007e\\u0080\\u07ff\\u0800\\uffff\\ud800\\udc00\\udbff\\udfff\\udc00\\ud800\");",
            "",
            Status::Done,
            "L ~\u{80}\u{7ff}\u{800}\u{ffff}\u{10000}\u{10ffff}\\udc00\\ud800\n= done\n",
        ),
        (
            &["shared", "l", "r", "--trace"],
            "desk[\"a\\\"b\\n\\ud83d\"] = \"\\\"\\\\\\u007f\";",
            "print(desk[\"a\\\"b\\n\\ud83d\"]);",
            Status::Done,
            "T 0 R #0 get \"a\\\"b\\n\\ud83d\" - \"\\\"\\\\\\u007f\"\nR \"\\\\\\u007f\n= done\n",
        ),
        (
            &["shared", "l", "r"],
            "try { print(\"aaaaaaaaaaaaaaaaaaaaaaaaaaaaaaaaaaaaaaaaaaaaaaaaaaaaaaaaaaaaaaaa\", desk); } \
                catch { }",
            "",
            Status::Done,
            "= done\n",
        ),
    ];
    for (words, left, right, status, text) in rows {
        assert!(rt;
            shares(rt.alloc(), words, left, right, status, text),
            "{left} {right}"
        );
    }
}

// Two scripts on one graph: what is written, and how the call ends.
use super::*;
use mb_engine::Noting;

#[test]
fn two_scripts_share_one_graph(rt: HostRuntime) {
    let rows: [(&[&str], &str, &str, Status, &str); 8] = [
        (
            &["shared", "l", "r"],
            "print(1);",
            "print(2);",
            Status::Done,
            "L 1\nR 2\n= done\n",
        ),
        (&["shared", "l", "r"], "", "", Status::Done, "= done\n"),
        (
            &["shared", "l", "r", "--budget", "0"],
            "",
            "",
            Status::Done,
            "= done\n",
        ),
        (
            &["shared", "l", "r"],
            "print(9007199254740991 + 1);",
            "",
            Status::Uncaught,
            "L! RangeError\n= uncaught\n",
        ),
        (
            &["shared", "l", "r"],
            "desk.o = {}; desk.same = (x) => x === desk.o;",
            "print(desk.same(desk.o));",
            Status::Done,
            "R true\n= done\n",
        ),
        (
            &["shared", "l", "r"],
            "desk.f = Object.freeze({ inner: {} });",
            "print(Object.isFrozen(desk.f)); print(desk.f.inner === desk.f.inner);",
            Status::Done,
            "R true\nR true\n= done\n",
        ),
        (
            &["shared", "l", "r"],
            "desk.a = [1, 2, 3]; Object.defineProperty(desk.a, \"1\", { configurable: false });",
            "try { desk.a.length = 0; } catch (e) { print(e instanceof TypeError); } print(desk.a.length);",
            Status::Done,
            "R true\nR 2\n= done\n",
        ),
        (
            &["shared", "l", "r"],
            "let t = {}; desk.go = () => { throw t; }; desk.back = (x) => print(x === t);",
            "try { desk.go(); } catch (e) { desk.back(e); }",
            Status::Done,
            "L true\n= done\n",
        ),
    ];
    for (words, left, right, status, text) in rows {
        assert!(rt;
            shares(rt.alloc(), words, left, right, status, text),
            "{left} {right}"
        );
    }
}

#[test]
fn what_a_script_makes_is_the_others_too(rt: HostRuntime) {
    let rows: [(&[&str], &str, &str, Status, &str); 8] = [
        (
            &["shared", "l", "r"],
            "desk.o = { get k() { Object.defineProperty(desk.o, \"k\", { value: 1, writable: false, \
                configurable: false }); desk.peek(); return 7; } };",
            "desk.peek = () => { print(Reflect.getOwnPropertyDescriptor(desk.o, \"k\").value); }; \
                print(desk.o.k);",
            Status::Done,
            "R 1\nR 7\n= done\n",
        ),
        (
            &["shared", "l", "r"],
            "desk.a = {}; later(() => print(Reflect.setPrototypeOf(desk.a, desk.b)));",
            "desk.b = Object.create(desk.a);",
            Status::Done,
            "L false\n= done\n",
        ),
        (
            &["shared", "l", "r"],
            "desk.p = new Proxy({}, {});",
            "try { new Proxy(desk.p, {}); print(\"made\"); } catch (e) { print(e instanceof TypeError); }",
            Status::Done,
            "R true\n= done\n",
        ),
        (
            &["shared", "l", "r"],
            "let p = new Proxy(Object.freeze({ a: 1 }), { get: (o, k) => 2 }); try { print(p.a); } catch (e) \
                { print(e instanceof TypeError); }",
            "",
            Status::Done,
            "L true\n= done\n",
        ),
        (
            &["shared", "l", "r"],
            "print(\"a\\n\\u00e9\\ud83d\");",
            "",
            Status::Done,
            "L a\\n\u{e9}\\ud83d\n= done\n",
        ),
        (
            &["shared", "l", "r"],
            "throw \"x\";",
            "throw {};",
            Status::Uncaught,
            "L! value x\nR! object\n= uncaught\n",
        ),
        (
            &["shared", "l", "r", "--schedule", "LR"],
            "later(() => print(desk.f()));",
            "desk.f = () => 1;",
            Status::Done,
            "L 1\n= done\n",
        ),
        (
            &["shared", "l", "r", "--schedule", "RL"],
            "print(1); later(() => print(2));",
            "print(3); later(() => print(4));",
            Status::Done,
            "R 3\nL 1\nL 2\nR 4\n= done\n",
        ),
    ];
    for (words, left, right, status, text) in rows {
        assert!(rt;
            shares(rt.alloc(), words, left, right, status, text),
            "{left} {right}"
        );
    }
}

#[test]
fn a_text_with_its_entries_and_without(rt: HostRuntime) {
    let rows: [(&[&str], &str, &str, Status, &str); 2] = [
        (
            &["shared", "l", "r", "--trace"],
            "let handlers = [];\n\
                desk.register = (f) => { handlers.push(f); };\n\
                later(() => {\n\
                let all = [{ name: \"ann\", get size() { return 3; } }];\n\
                handlers.forEach((f) => {\n\
                try { print(f(all)); } catch (e) { print(\"refused: \" + e.message); }\n\
                });\n\
                });\n",
            "desk.register((rs) => rs[0].name + rs[0].size);\n\
                desk.register((rs) => { throw new RangeError(\"no \" + rs.length); });\n",
            Status::Done,
            "T 0 R #0 get \"register\" - #2\n\
                T 1 R #2 apply - - undefined\n\
                T 2 R #0 get \"register\" - #2\n\
                T 3 R #2 apply - - undefined\n\
                T 4 R #6 get \"0\" - #7\n\
                T 5 R #7 get \"name\" - \"ann\"\n\
                T 6 R #6 get \"0\" - #7\n\
                T 7 R #8 apply - - 3\n\
                T 7 R #7 get \"size\" - 3\n\
                T 4 L #4 apply - - \"ann3\"\n\
                L ann3\n\
                T 10 R #6 get \"length\" - 1\n\
                T 10 L #5 apply - - throw #10\n\
                T 12 L #10 get \"message\" - \"no 1\"\n\
                L refused: no 1\n\
                = done\n",
        ),
        (
            &["shared", "l", "r"],
            "let handlers = [];\n\
                desk.register = (f) => { handlers.push(f); };\n\
                later(() => {\n\
                let all = [{ name: \"ann\", get size() { return 3; } }];\n\
                handlers.forEach((f) => {\n\
                try { print(f(all)); } catch (e) { print(\"refused: \" + e.message); }\n\
                });\n\
                });\n",
            "desk.register((rs) => rs[0].name + rs[0].size);\n\
                desk.register((rs) => { throw new RangeError(\"no \" + rs.length); });\n",
            Status::Done,
            "L ann3\nL refused: no 1\n= done\n",
        ),
    ];
    for (words, left, right, status, text) in rows {
        assert!(rt;
            shares(rt.alloc(), words, left, right, status, text),
            "{left} {right}"
        );
    }
}

#[test]
fn budgets_that_just_suffice(rt: HostRuntime) {
    let rows: [(&[&str], &str, &str, Status, &str); 5] = [
        (
            &["shared", "l", "r", "--budget", "12"],
            "print(1);",
            "print(2);",
            Status::Done,
            "L 1\nR 2\n= done\n",
        ),
        (
            &["shared", "l", "r", "--budget", "11"],
            "print(1);",
            "print(2);",
            Status::Spent,
            "L 1\n= spent\n",
        ),
        (
            &["shared", "l", "r", "--budget", "0"],
            "print(1);",
            "print(2);",
            Status::Spent,
            "= spent\n",
        ),
        (
            &["shared", "l", "r", "--budget", "38"],
            "desk.o = {}; desk.same = (x) => x === desk.o;",
            "print(desk.same(desk.o));",
            Status::Done,
            "R true\n= done\n",
        ),
        (
            &["shared", "l", "r", "--budget", "37"],
            "desk.o = {}; desk.same = (x) => x === desk.o;",
            "print(desk.same(desk.o));",
            Status::Spent,
            "= spent\n",
        ),
    ];
    for (words, left, right, status, text) in rows {
        assert!(rt;
            shares(rt.alloc(), words, left, right, status, text),
            "{left} {right}"
        );
    }
}

#[test]
fn a_driver_notes_the_turns(rt: HostRuntime) {
    let call = Call {
        left: b"desk.o = {}; desk.same = (x) => x === desk.o;",
        right: b"print(desk.same(desk.o));",
        ..FIRST
    };
    let mut driver = Noting::new(rt.alloc());
    match called_by(rt.alloc(), &SHARED, call, &mut driver) {
        Ok(ended) => assert_eq!(rt; ended.status, Status::Done),
        Err(_) => assert!(rt; false, "there is memory"),
    }
    let ran = driver.ran();
    assert_eq!(rt; ran.len(), 2);
    assert_eq!(rt;
        (ran[0].side, ran[0].joined, ran[0].entries, ran[0].objects),
        (Side::LEFT, true, 0, 3)
    );
    assert_eq!(rt;
        (ran[1].side, ran[1].joined, ran[1].entries, ran[1].objects),
        (Side::RIGHT, true, 3, 3)
    );
    assert_eq!(rt; (ran[0].left, ran[1].left), (999_982, 999_962));
}

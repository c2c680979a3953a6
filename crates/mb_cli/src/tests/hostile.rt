// Scripts that use up the budget, grow a text, or change what is being read.
use super::*;

#[test]
fn a_run_that_never_ends_is_spent(rt: HostRuntime) {
    let rows: [(&[&str], &str, &str, Status, &str); 2] = [
        (
            &["shared", "l", "r", "--budget", "5000"],
            "desk.f = (n) => desk.g(n);",
            "desk.g = (n) => desk.f(n); print(1); desk.f(0);",
            Status::Spent,
            "R 1\n= spent\n",
        ),
        (
            &["shared", "l", "r", "--budget", "5000"],
            "let f = () => { later(f); desk.count = desk.count + 1; }; desk.count = 0; later(f);",
            "let g = () => { later(g); desk.count += 1; }; later(g);",
            Status::Spent,
            "= spent\n",
        ),
    ];
    for (words, left, right, status, text) in rows {
        assert!(rt;
            shares(rt.alloc(), words, left, right, status, text),
            "{left} {right}"
        );
    }
}

#[test]
fn a_text_that_grows_past_its_limit(rt: HostRuntime) {
    let rows: [(&[&str], &str, &str, Status, &str); 1] = [(
        &["shared", "l", "r"],
        "let t = \"ab\"; try { while (true) { t = t + t; } } catch (e) { print(e instanceof RangeError, \
                t.length); }",
        "",
        Status::Done,
        "L true 1048576\n= done\n",
    )];
    for (words, left, right, status, text) in rows {
        assert!(rt;
            shares(rt.alloc(), words, left, right, status, text),
            "{left} {right}"
        );
    }
}

#[test]
fn getters_that_change_what_is_read(rt: HostRuntime) {
    let rows: [(&[&str], &str, &str, Status, &str); 6] = [
        (
            &["shared", "l", "r"],
            "desk.a = [1, 2]; Object.defineProperty(desk.a, \"0\", { get() { desk.a.length = 1; return 7; } \
                });",
            "print(desk.a.join(\"-\"), desk.a.length);",
            Status::Done,
            "R 7- 1\n= done\n",
        ),
        (
            &["shared", "l", "r"],
            "desk.o = { get k() { delete desk.o.k; desk.o.k = 5; return 4; } };",
            "print(desk.o.k, desk.o.k);",
            Status::Done,
            "R 4 5\n= done\n",
        ),
        (
            &["shared", "l", "r"],
            "let t = { a: 1 }; desk.p = new Proxy(t, { ownKeys() { t.b = 2; return [\"a\", \"b\"]; } });",
            "print(Reflect.ownKeys(desk.p).join());",
            Status::Done,
            "R a,b\n= done\n",
        ),
        (
            &["shared", "l", "r"],
            "desk.p = new Proxy({ a: 1 }, { get(o, k) { Object.freeze(o); return 2; } });",
            "try { desk.p.a; } catch (e) { print(e instanceof TypeError); }",
            Status::Done,
            "R true\n= done\n",
        ),
        (
            &["shared", "l", "r"],
            "desk.a = [1, 2, 3, 4];",
            "print(desk.a.filter((x) => { desk.a.pop(); return true; }).join());",
            Status::Done,
            "R 1,2\n= done\n",
        ),
        (
            &["shared", "l", "r"],
            "desk.b = {}; desk.a = { get k() { Object.setPrototypeOf(desk.c, desk.b); return 1; } }; \
                desk.b.k = 2;",
            "desk.c = Object.create(desk.a); print(desk.c.k, desk.c.k);",
            Status::Done,
            "R 1 2\n= done\n",
        ),
    ];
    for (words, left, right, status, text) in rows {
        assert!(rt;
            shares(rt.alloc(), words, left, right, status, text),
            "{left} {right}"
        );
    }
}

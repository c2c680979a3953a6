// Which scripts and words are accepted, and how others are refused.
use super::*;
use crate::{Which, read_tree};
use mb_base::NodeId;
use mb_text::Texts;
use mb_tree::Kind;
use std::test::Fail;

const LONG: Status = Status::TooLong(Which::Script(Side::LEFT));

fn utf8(at: u32) -> ScriptKind {
    ScriptKind::Utf8 { at }
}

fn token(at: u32) -> ScriptKind {
    ScriptKind::Token { at }
}

fn number(at: u32) -> ScriptKind {
    ScriptKind::Number { at }
}

fn twice(node: u32) -> ScriptKind {
    ScriptKind::Twice { node: NodeId(node) }
}

fn stray(node: u32) -> ScriptKind {
    ScriptKind::Stray { node: NodeId(node) }
}

fn target(node: u32) -> ScriptKind {
    ScriptKind::BadTarget { node: NodeId(node) }
}

#[test]
fn writes_the_text_of_two_scripts(rt: HostRuntime) {
    let rows: [(&[u8], &[u8], &[u8]); 4] = [
        (b"print(1);", b"print(2);", b"L 1\nR 2\n= done\n"),
        (b"", b"", b"= done\n"),
        (
            b"print(9007199254740991);\nprint(0);",
            b"",
            b"L 9007199254740991\nL 0\n= done\n",
        ),
        (
            b"print(\"a b\"); print(0);",
            b"print(\"\");",
            b"L a b\nL 0\nR \n= done\n",
        ),
    ];
    for (left, right, text) in rows {
        let call = Call {
            left,
            right,
            ..FIRST
        };
        assert!(rt;
            ends(rt.alloc(), &RUN, call, Status::Done, false, text),
            "{left:?}"
        );
    }
}

#[test]
fn refuses_other_scripts(rt: HostRuntime) {
    let rows: [(&[u8], ScriptKind); 11] = [
        (b"print(9007199254740992);", number(6)),
        (b"print(01);", number(6)),
        (b"print(1+1);", SHAPE),
        (b"1 + 1;", SHAPE),
        (b"print(1", SHAPE),
        (b"print(1) print(2);", SHAPE),
        (b"print(\"\x7f\");", SHAPE),
        (b"print(\"\xff\");", utf8(7)),
        (b"print(1); # 2", token(10)),
        (b"return;", stray(0)),
        (b"1 = 2;", target(2)),
    ];
    for (other, kind) in rows {
        let on_left = Call {
            left: other,
            ..FIRST
        };
        assert!(rt;
            ends(rt.alloc(), &RUN, on_left, left(kind), false, b""),
            "{other:?}"
        );
        let on_right = Call {
            right: other,
            ..FIRST
        };
        assert!(rt;
            ends(rt.alloc(), &RUN, on_right, right(kind), false, b""),
            "{other:?}"
        );
        let on_both = Call {
            left: other,
            right: b"let a; let a;",
            ..FIRST
        };
        assert!(rt;
            ends(rt.alloc(), &RUN, on_both, left(kind), false, b""),
            "{other:?}"
        );
    }
}

// The script is answered so by `check`.
fn is_checked(alloc: Global, script: &[u8], status: Status) -> bool {
    let call = Call {
        left: script,
        piece: 4_096,
        ..FIRST
    };
    let bytes: &[u8] = if status == Status::Done {
        b"= ok\n"
    } else {
        b""
    };
    ends(alloc, &CHECK, call, status, false, bytes)
}

#[test]
fn checks_right_scripts(rt: HostRuntime) {
    let scripts: [&[u8]; 17] = [
        b"",
        b"print(1);",
        b"a ? b : c = 4;",
        b"if (a) b; else c;",
        b"if (a) if (b) c; else d;",
        b"for (;;) break;",
        b"for (let i = 0, j; i < 1; i++) { continue; }",
        b"try { } catch { } finally { }",
        b"do x; while (y);",
        b"function f() { return; }",
        b"{ let a; } let a;",
        b"{}",
        b"({});",
        b"(a) = 1;",
        b"delete a.b;",
        b"let f = x => { return y => { }; };",
        b"while (a) { if (b) break; }",
    ];
    for script in scripts {
        assert!(rt; is_checked(rt.alloc(), script, Status::Done), "{script:?}");
    }
}

#[test]
fn checks_wrong_scripts(rt: HostRuntime) {
    let rows: [(&[u8], ScriptKind); 21] = [
        (b"\xff", utf8(0)),
        (b"a\xe2\x82", utf8(1)),
        (b"\"ab", token(0)),
        (b"1.5;", number(0)),
        (b"let a", SHAPE),
        (b"try { }", SHAPE),
        (b"return\n1;", SHAPE),
        (b"throw\n1;", SHAPE),
        (b"const a;", SHAPE),
        (b"let a; let a;", twice(2)),
        (b"function f(a) { function a() {} }", twice(1)),
        (b"try { } catch (e) { let e; }", twice(2)),
        (b"return;", stray(0)),
        (b"break;", stray(0)),
        (b"while (a) { return; }", stray(1)),
        (b"while (a) { function f() { continue; } }", stray(1)),
        (b"1 = 2;", target(2)),
        (b"delete (a.b);", target(3)),
        (b"let a; return; let a;", stray(2)),
        (b"1 = 2; return;", target(2)),
        (b"1 = 2; # let", token(7)),
    ];
    for (script, kind) in rows {
        assert!(rt; is_checked(rt.alloc(), script, left(kind)), "{script:?}");
    }
}

#[test]
fn tells_a_tree_that_is_too_high(rt: HostRuntime) -> Result<(), Fail> {
    let mut script = Vec::new(rt.alloc());
    script.extend_from_slice(b"print(")?;
    for _ in 0..300 {
        script.push(b'!')?;
    }
    script.extend_from_slice(b"1);")?;
    assert!(rt; is_checked(rt.alloc(), &script, left(ScriptKind::Deep)));
    Ok(())
}

#[test]
fn checks_a_script_of_1048576_bytes(rt: HostRuntime) -> Result<(), Fail> {
    let blanks = vec![in rt.alloc(); b' '; 1_048_577]?;
    assert!(rt; is_checked(rt.alloc(), &blanks, LONG));
    assert!(rt; is_checked(rt.alloc(), &blanks[1..], Status::Done));
    Ok(())
}

// The status of `check` for a script that isn't too long, where every call of the library succeeds.
fn is_accepted_or_refused(alloc: Global, script: &[u8]) -> bool {
    let call = Call {
        left: script,
        ..FIRST
    };
    match called(alloc, &CHECK, call) {
        Ok(ended) => match ended.status {
            Status::Done => true,
            Status::BadScript { side, .. } => side == Side::LEFT,
            _ => false,
        },
        Err(_) => false,
    }
}

#[test]
fn accepts_or_refuses_each_front_of_a_script(rt: HostRuntime) {
    let script = b"const k = 3; let o = { a: 1, get b() { return k; }, c(x) { return x + 1; } };\n\
        for (let i = 0; i < k; i++) { if (o.c(i) === 2) { print(\"two\"); } else { continue; } }\n\
        try { throw o[\"a\"]; } catch (e) { print(e); } finally { print(0); }\n";
    assert!(rt; is_checked(rt.alloc(), script, Status::Done));
    for count in 0..script.len() {
        assert!(rt;
            is_accepted_or_refused(rt.alloc(), &script[..count]),
            "{count}"
        );
    }
}

// Whether the nodes have a choice whose last part is an assignment.
fn has_an_assignment_as_a_choice(nodes: &[mb_tree::Node]) -> bool {
    nodes.iter().any(|node| {
        node.kind == Kind::Cond
            && match node.children.get(2) {
                Some(last) => match nodes.get(last.0 as usize) {
                    Some(part) => part.kind == Kind::Assign,
                    None => false,
                },
                None => false,
            }
    })
}

#[test]
fn reads_trees(rt: HostRuntime) {
    // The script, the number of its tree's nodes, and of the names that its scopes bind.
    let rows: [(&[u8], usize, usize); 3] = [
        (b"a ? b : c = 4;", 8, 0),
        (
            b"({ a: 1, get b() { return 1; }, set b(v) { }, [c]: 2, d, \"e\": 3, 4: 5, f() { } });",
            21,
            1,
        ),
        (b"let f = function g(a, b) { const c = a; };", 9, 5),
    ];
    for (script, nodes, names) in rows {
        let mut texts = Texts::new(rt.alloc());
        match read_tree(rt.alloc(), script, &mut texts) {
            Ok(program) => {
                assert_eq!(rt; program.tree.nodes.len(), nodes, "{script:?}");
                assert_eq!(rt; program.scopes.names().len(), names, "{script:?}");
            }
            Err(fault) => assert!(rt; false, "{fault:?}"),
        }
    }
}

#[test]
fn reads_an_assignment_as_a_choice(rt: HostRuntime) {
    let mut texts = Texts::new(rt.alloc());
    match read_tree(rt.alloc(), b"a ? b : c = 4;", &mut texts) {
        Ok(program) => assert!(rt; has_an_assignment_as_a_choice(&program.tree.nodes)),
        Err(fault) => assert!(rt; false, "{fault:?}"),
    }
}

#[test]
fn refuses_other_words(rt: HostRuntime) {
    let rows: [&[&str]; 13] = [
        &[],
        &["check"],
        &["check", "-x"],
        &["check", ""],
        &["check", "l", "r"],
        &["checks", "l"],
        &["run"],
        &["run", "l"],
        &["walk", "l", "r"],
        &["run", "l", "r", "s"],
        &["run", "-x", "r"],
        &["run", "l", ""],
        &["run", "l", "--"],
    ];
    for words in rows {
        assert!(rt;
            ends(rt.alloc(), words, FIRST, USAGE, false, b""),
            "{words:?}"
        );
    }
}

#[test]
fn takes_a_script_of_65536_bytes(rt: HostRuntime) -> Result<(), Fail> {
    let blanks = vec![in rt.alloc(); b' '; 65_537]?;
    let long = Call {
        left: &blanks,
        piece: 5_000,
        ..FIRST
    };
    assert!(rt; ends(rt.alloc(), &RUN, long, left(SHAPE), false, b""));
    let whole = Call {
        left: &blanks[1..],
        ..long
    };
    assert!(rt;
        ends(
            rt.alloc(),
            &RUN,
            whole,
            Status::Done,
            false,
            b"R 2\n= done\n"
        )
    );
    Ok(())
}

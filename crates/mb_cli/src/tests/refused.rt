// What refuses a call of `shared`, and what breaks it off.
use super::*;
use crate::Which;
use std::test::Fail;

const LEFT_LONG: Status = Status::TooLong(Which::Script(Side::LEFT));

const RIGHT_LONG: Status = Status::TooLong(Which::Script(Side::RIGHT));

#[test]
fn words_of_shared(rt: HostRuntime) {
    let rows: [(&[&str], WordsKind); 7] = [
        (&["shared", "l"], WordsKind::Usage),
        (&["shared", "l", "r", "s"], WordsKind::Usage),
        (&["shared", "l", "r", "--policy", "p"], WordsKind::Usage),
        (
            &["shared", "l", "r", "--schedule", "LX"],
            WordsKind::Schedule { at: 1 },
        ),
        (
            &["shared", "l", "r", "--schedule", "RRQ"],
            WordsKind::Schedule { at: 2 },
        ),
        (
            &["shared", "l", "r", "--budget", "4000001"],
            WordsKind::Budget,
        ),
        (&["shared", "l", "r", "--budget", "01"], WordsKind::Budget),
    ];
    for (words, kind) in rows {
        let status = Status::BadWords(kind);
        assert!(rt;
            ends(rt.alloc(), words, FIRST, status, false, b""),
            "{words:?}"
        );
    }
}

#[test]
fn scripts_that_shared_refuses(rt: HostRuntime) {
    let rows = [
        ("print(1", "", left(SHAPE)),
        ("", "print(1", right(SHAPE)),
        ("print(1", "return;", left(SHAPE)),
        ("1.5;", "print(1);", left(ScriptKind::Number { at: 0 })),
        ("print(1);", "print(#);", right(ScriptKind::Token { at: 6 })),
    ];
    for (left, right, status) in rows {
        assert!(rt;
            shares(rt.alloc(), &SHARED, left, right, status, ""),
            "{left} {right}"
        );
    }
}

#[test]
fn scripts_that_are_too_long_to_share(rt: HostRuntime) -> Result<(), Fail> {
    let blanks = vec![in rt.alloc(); b' '; 1_048_577]?;
    let whole: &[u8] = &blanks[1..];
    let rows: [(&[u8], &[u8], Status, &[u8]); 5] = [
        (&blanks, b"print(2);", LEFT_LONG, b""),
        (b"print(1);", &blanks, RIGHT_LONG, b""),
        (b"print(1", &blanks, RIGHT_LONG, b""),
        (&blanks, &blanks, LEFT_LONG, b""),
        (whole, b"print(2);", Status::Done, b"R 2\n= done\n"),
    ];
    for (left, right, status, text) in rows {
        let call = Call {
            left,
            right,
            piece: 4_096,
            ..FIRST
        };
        assert!(rt; ends(rt.alloc(), &SHARED, call, status, false, text));
    }
    Ok(())
}

#[test]
fn reads_of_shared_that_fail(rt: HostRuntime) {
    // The calls are those of `run`: a start and two reads of each script. There is no seventh.
    for number in 1..7u64 {
        let call = Call {
            left: b"print(1))",
            failing_call: Some(number),
            ..FIRST
        };
        let fault = Status::ReadFault;
        assert!(rt;
            ends(rt.alloc(), &SHARED, call, fault, false, b""),
            "{number}"
        );
    }
    let seventh = Call {
        failing_call: Some(7),
        ..FIRST
    };
    let text = b"L 1\nR 2\n= done\n";
    assert!(rt; ends(rt.alloc(), &SHARED, seventh, Status::Done, false, text));
    let missing = ["shared", "l", "m"];
    assert!(rt; ends(rt.alloc(), &missing, FIRST, Status::ReadFault, false, b""));
}

#[test]
fn puts_of_shared_that_fail(rt: HostRuntime) {
    let rows: [(u64, usize, &[u8]); 5] = [
        (1, 0, b""),
        (1, 3, b"L 1"),
        (2, 1, b"L 1\nR"),
        (3, 0, b"L 1\nR 2\n"),
        (3, 7, b"L 1\nR 2\n= done\n"),
    ];
    let fault = Status::WriteFault;
    for (put, taken, bytes) in rows {
        let call = Call {
            failing_put: Some((put, taken)),
            ..FIRST
        };
        assert!(rt;
            ends(rt.alloc(), &SHARED, call, fault, true, bytes),
            "put {put}, {taken}"
        );
    }
    let narrow = Call { room: 14, ..FIRST };
    assert!(rt;
        ends(
            rt.alloc(),
            &SHARED,
            narrow,
            fault,
            true,
            b"L 1\nR 2\n= done"
        )
    );
    let wide = Call { room: 15, ..FIRST };
    assert!(rt;
        ends(
            rt.alloc(),
            &SHARED,
            wide,
            Status::Done,
            false,
            b"L 1\nR 2\n= done\n"
        )
    );
}

// Reads and puts that fail.
use super::*;

// The first call with this number failing ends so, and with these bytes in the sink.
fn fails_at(
    alloc: Global,
    words: &[&str],
    left: &[u8],
    number: u64,
    status: Status,
    bytes: &[u8],
) -> bool {
    let call = Call {
        left,
        failing_call: Some(number),
        ..FIRST
    };
    ends(alloc, words, call, status, false, bytes)
}

#[test]
fn tells_a_failing_read(rt: HostRuntime) {
    // The calls are a start, a read of all bytes and a read of the end, of the left script and then of the right. There
    // is no seventh, nor a fourth of `check`.
    let fault = Status::ReadFault;
    let one = FIRST.left;
    let bad: &[u8] = b"print(1))";
    for number in 1..7u64 {
        assert!(rt;
            fails_at(rt.alloc(), &RUN, one, number, fault, b""),
            "{number}"
        );
        assert!(rt;
            fails_at(rt.alloc(), &RUN, bad, number, fault, b""),
            "{number}"
        );
    }
    for number in 1..4u64 {
        assert!(rt;
            fails_at(rt.alloc(), &CHECK, one, number, fault, b""),
            "{number}"
        );
        assert!(rt;
            fails_at(rt.alloc(), &CHECK, bad, number, fault, b""),
            "{number}"
        );
    }
    let done = Status::Done;
    assert!(rt; fails_at(rt.alloc(), &RUN, one, 7, done, b"L 1\nR 2\n= done\n"));
    assert!(rt; fails_at(rt.alloc(), &RUN, bad, 7, left(SHAPE), b""));
    assert!(rt; fails_at(rt.alloc(), &CHECK, one, 4, done, b"= ok\n"));
    assert!(rt; fails_at(rt.alloc(), &CHECK, bad, 4, left(SHAPE), b""));
}

#[test]
fn tells_a_missing_name(rt: HostRuntime) {
    let rows: [&[&str]; 6] = [
        &["check", "m"],
        &["run", "m", "r"],
        &["run", "l", "m"],
        &["run", "l", "L"],
        &["run", "l", "l "],
        &["run", "m", "m"],
    ];
    for words in rows {
        assert!(rt;
            ends(rt.alloc(), words, FIRST, Status::ReadFault, false, b""),
            "{words:?}"
        );
    }
}

#[test]
fn tells_a_failing_put(rt: HostRuntime) {
    // Which put fails, how many bytes it takes, and what was put then.
    let rows: [(u64, usize, &[u8]); 9] = [
        (1, 0, b""),
        (1, 3, b"L 1"),
        (1, 9, b"L 1\n"),
        (2, 0, b"L 1\n"),
        (2, 1, b"L 1\nR"),
        (2, 4, b"L 1\nR 2\n"),
        (3, 0, b"L 1\nR 2\n"),
        (3, 6, b"L 1\nR 2\n= done"),
        (3, 7, b"L 1\nR 2\n= done\n"),
    ];
    for (put, taken, bytes) in rows {
        let call = Call {
            failing_put: Some((put, taken)),
            ..FIRST
        };
        assert!(rt;
            ends(rt.alloc(), &RUN, call, Status::WriteFault, true, bytes),
            "put {put}, {taken}"
        );
    }
    let rooms: [(usize, &[u8]); 4] = [
        (0, b""),
        (5, b"L 1\nR"),
        (8, b"L 1\nR 2\n"),
        (14, b"L 1\nR 2\n= done"),
    ];
    for (room, bytes) in rooms {
        let call = Call { room, ..FIRST };
        assert!(rt;
            ends(rt.alloc(), &RUN, call, Status::WriteFault, true, bytes),
            "room {room}"
        );
    }
    // The whole text fits, and there is no fourth put.
    let all: &[u8] = b"L 1\nR 2\n= done\n";
    let wide = Call { room: 15, ..FIRST };
    assert!(rt; ends(rt.alloc(), &RUN, wide, Status::Done, false, all));
    let fourth = Call {
        failing_put: Some((4, 0)),
        ..FIRST
    };
    assert!(rt; ends(rt.alloc(), &RUN, fourth, Status::Done, false, all));
}

#[test]
fn tells_a_failing_put_of_a_check(rt: HostRuntime) {
    let fronts: [(usize, &[u8]); 3] = [(0, b""), (1, b"="), (4, b"= ok")];
    for (taken, bytes) in fronts {
        let cut = Call {
            failing_put: Some((1, taken)),
            ..FIRST
        };
        assert!(rt;
            ends(rt.alloc(), &CHECK, cut, Status::WriteFault, true, bytes),
            "{taken}"
        );
        let narrow = Call {
            room: taken,
            ..FIRST
        };
        assert!(rt;
            ends(rt.alloc(), &CHECK, narrow, Status::WriteFault, true, bytes),
            "room {taken}"
        );
    }
    let wide = Call { room: 5, ..FIRST };
    assert!(rt; ends(rt.alloc(), &CHECK, wide, Status::Done, false, b"= ok\n"));
    let second = Call {
        failing_put: Some((2, 0)),
        ..FIRST
    };
    assert!(rt; ends(rt.alloc(), &CHECK, second, Status::Done, false, b"= ok\n"));
}

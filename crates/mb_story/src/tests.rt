// Runs of two scripts on one graph, over a sink in memory.
mod driver;

use crate::{Ending, Letter, RunFault, Style};
use driver::{L, R, Script, is_told, told_run};

#[test]
fn each_side_has_its_turn(rt: HostRuntime) {
    let rows = [
        ("print(1);", "print(2);", Ending::Done, "L 1\nR 2\n= done\n"),
        ("", "", Ending::Done, "= done\n"),
        (
            "print(9007199254740991 + 1);",
            "",
            Ending::Uncaught,
            "L! RangeError\n= uncaught\n",
        ),
        (
            "throw \"x\";",
            "throw {};",
            Ending::Uncaught,
            "L! value x\nR! object\n= uncaught\n",
        ),
        (
            "desk.o = {}; desk.same = (x) => x === desk.o;",
            "print(desk.same(desk.o));",
            Ending::Done,
            "R true\n= done\n",
        ),
    ];
    for (left, right, ending, text) in rows {
        let ran = told_run(&rt, rt.alloc(), Script::of(left, right), &[], 1_000);
        is_told(&rt, &ran, Ok(ending), text);
        assert!(rt; !ran.halted);
    }
}

#[test]
fn a_budget_that_just_suffices(rt: HostRuntime) {
    let rows = [
        (12, Ending::Done, "L 1\nR 2\n= done\n"),
        (11, Ending::Spent, "L 1\n= spent\n"),
        (0, Ending::Spent, "= spent\n"),
    ];
    for (units, ending, text) in rows {
        let ran = told_run(
            &rt,
            rt.alloc(),
            Script::of("print(1);", "print(2);"),
            &[],
            units,
        );
        is_told(&rt, &ran, Ok(ending), text);
        assert_eq!(rt; ran.halted, ending == Ending::Spent);
    }
}

#[test]
fn turns_follow_the_schedule(rt: HostRuntime) {
    let script = Script::of("later(() => print(2)); print(1);", "print(3);");
    let rows: [(&[Letter], &str); 4] = [
        (&[], "L 1\nR 3\nL 2\n= done\n"),
        (&[Letter::Turn(R)], "R 3\nL 1\nL 2\n= done\n"),
        (
            &[Letter::Turn(L), Letter::Turn(L)],
            "L 1\nL 2\nR 3\n= done\n",
        ),
        (
            &[Letter::Turn(R), Letter::Turn(R)],
            "R 3\nL 1\nL 2\n= done\n",
        ),
    ];
    for (word, text) in rows {
        let ran = told_run(&rt, rt.alloc(), script, word, 1_000);
        is_told(&rt, &ran, Ok(Ending::Done), text);
    }
}

#[test]
fn an_uncaught_throw_ends_its_turn_alone(rt: HostRuntime) {
    let script = Script::of("later(() => { throw 1; }); later(() => print(2));", "");
    let ran = told_run(&rt, rt.alloc(), script, &[], 1_000);
    is_told(
        &rt,
        &ran,
        Ok(Ending::Uncaught),
        "L! value 1\nL 2\n= uncaught\n",
    );
}

#[test]
fn a_schedule_ends_where_it_is_spent(rt: HostRuntime) {
    let script = Script::of("for (;;) {}", "print(1);");
    let word = [Letter::Turn(L), Letter::Turn(R)];
    let ran = told_run(&rt, rt.alloc(), script, &word, 100);
    is_told(&rt, &ran, Ok(Ending::Spent), "= spent\n");
    assert!(rt; ran.halted);
}

#[test]
fn entries_are_told_where_asked(rt: HostRuntime) {
    let script = Script::of("desk.a = 1;", "print(0); desk.a; print(2);");
    let ran = told_run(&rt, rt.alloc(), script, &[], 1_000);
    is_told(&rt, &ran, Ok(Ending::Done), "R 0\nR 2\n= done\n");
    let traced = Script {
        style: Style {
            traced: true,
            lettered: false,
        },
        ..script
    };
    let ran = told_run(&rt, rt.alloc(), traced, &[], 1_000);
    is_told(
        &rt,
        &ran,
        Ok(Ending::Done),
        "R 0\nT 0 R #0 get \"a\" - 1\nR 2\n= done\n",
    );
}

#[test]
fn sides_have_letters(rt: HostRuntime) {
    let script = Script {
        style: Style {
            traced: false,
            lettered: true,
        },
        ..Script::of("print(1);", "print(2);")
    };
    let ran = told_run(&rt, rt.alloc(), script, &[], 1_000);
    is_told(&rt, &ran, Ok(Ending::Done), "A 1\nB 2\n= done\n");
}

#[test]
fn a_failed_put_breaks_off(rt: HostRuntime) {
    for (number, taken, text) in [(1, 0, ""), (2, 1, "L 1\nR"), (3, 3, "L 1\nR 2\n= d")] {
        let script = Script {
            failing: Some((number, taken)),
            ..Script::of("print(1);", "print(2);")
        };
        let ran = told_run(&rt, rt.alloc(), script, &[], 1_000);
        is_told(&rt, &ran, Err(RunFault::Write), text);
        assert!(rt; ran.halted);
    }
}

#[test]
fn a_driver_tells_the_turns(rt: HostRuntime) {
    let ran = told_run(
        &rt,
        rt.alloc(),
        Script::of("print(1);", "print(2);"),
        &[],
        12,
    );
    let turns = ran.driver.ran();
    assert_eq!(rt; turns.len(), 2);
    assert_eq!(rt; (turns[0].side, turns[0].left), (L, 6));
    assert_eq!(rt; (turns[1].side, turns[1].left), (R, 0));
    assert_eq!(rt; ran.left, 0);
}

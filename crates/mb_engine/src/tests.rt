// Turns of scripts.
mod array_members;
mod arrays;
mod built_ins;
mod calls;
mod driver;
mod expressions;
mod methods;
mod mixed;
mod objects;
mod operators;
mod proxies;
mod rows;
mod scripts;
mod statements;

use crate::{Noting, Straight, TurnEnd};
use driver::{L, R, begun, goes_on, is_told, is_traced, notes, ran};

// What the script of long texts costs.
const LONG: u32 = 120;

// Six units a call: of `+`, `1`, the call, `f`, the method, and what is entered.
const DEEP: u32 = 6 * 200_000 + 20;

#[test]
fn a_function_calls_itself(rt: HostRuntime) {
    let script = "let f = (n) => n < 1 ? 0 : n + f(n - 1); print(f(3));";
    let told = ran(&rt, rt.alloc(), script, 1_000);
    is_told(&rt, &told, TurnEnd::Ended, told.left, &["L 6"]);
}

#[test]
fn print_pays_before_it_writes(rt: HostRuntime) {
    let told = ran(&rt, rt.alloc(), "print(1);", 6);
    is_told(&rt, &told, TurnEnd::Ended, 0, &["L 1"]);
    let told = ran(&rt, rt.alloc(), "print(1);", 5);
    is_told(&rt, &told, TurnEnd::Spent, 0, &[]);
}

#[test]
fn an_uncaught_throw_has_its_line(rt: HostRuntime) {
    let mut w = begun(&rt, rt.alloc(), "x;", "");
    let lines = ["L! ReferenceError"];
    let left = goes_on(&rt, &mut w, L, 10, TurnEnd::Uncaught, &lines);
    assert_eq!(rt; left, 8);
    let left = goes_on(&rt, &mut w, L, 10, TurnEnd::Idle, &[]);
    assert_eq!(rt; left, 10);
}

#[test]
fn what_may_be_thrown(rt: HostRuntime) {
    let rows = [
        ("throw 1;", "L! value 1"),
        ("throw \"a\\nb\";", "L! value a\\nb"),
        ("throw \"\";", "L! value "),
        ("throw Symbol(\"s\");", "L! value Symbol(s)"),
        ("throw undefined;", "L! value undefined"),
        ("throw {};", "L! object"),
        ("throw print;", "L! object"),
        ("null.x;", "L! TypeError"),
        ("later(1);", "L! TypeError"),
    ];
    for (script, line) in rows {
        let told = ran(&rt, rt.alloc(), script, 100);
        is_told(&rt, &told, TurnEnd::Uncaught, told.left, &[line]);
    }
}

#[test]
fn names_of_collections_are_not_bound(rt: HostRuntime) {
    for script in ["Map;", "new Set();", "new WeakMap();"] {
        let told = ran(&rt, rt.alloc(), script, 100);
        is_told(
            &rt,
            &told,
            TurnEnd::Uncaught,
            told.left,
            &["L! ReferenceError"],
        );
    }
}

#[test]
fn print_of_no_and_of_three(rt: HostRuntime) {
    let told = ran(&rt, rt.alloc(), "print(); print(1, \"x\", null);", 100);
    is_told(&rt, &told, TurnEnd::Ended, told.left, &["L ", "L 1 x null"]);
}

#[test]
fn print_of_long_texts_pays_for_them(rt: HostRuntime) {
    // t has 128 units, so that each of the sums from the sixth on and each text of print costs a unit for each 64
    let script = "let t = \"ab\"; let i = 0; while (i < 6) { t = t + t; i = i + 1; } print(t, t);";
    let told = ran(&rt, rt.alloc(), script, LONG);
    assert_eq!(rt; told.end, TurnEnd::Ended);
    assert_eq!(rt; told.left, 0);
    assert_eq!(rt; told.lines.len(), 1);
    assert_eq!(rt; told.lines[0].len(), 2 + 128 + 1 + 128);
    // the last charge is of two units, of which one is there
    let told = ran(&rt, rt.alloc(), script, LONG - 1);
    is_told(&rt, &told, TurnEnd::Spent, 1, &[]);
}

#[test]
fn a_job_of_the_other_sides_function(rt: HostRuntime) {
    let left = "desk.f = () => print(\"made by left\");";
    let mut w = begun(&rt, rt.alloc(), left, "later(desk.f); print(\"right\");");
    goes_on(&rt, &mut w, L, 100, TurnEnd::Ended, &[]);
    goes_on(&rt, &mut w, R, 100, TurnEnd::Ended, &["R right"]);
    goes_on(&rt, &mut w, L, 100, TurnEnd::Idle, &[]);
    let lines = ["L made by left"];
    goes_on(&rt, &mut w, R, 100, TurnEnd::Ended, &lines);
}

#[test]
fn calls_go_deep(rt: HostRuntime) {
    // fourteen units a call, and nineteen around them
    let script = "let f = (n) => n < 1 ? 0 : 1 + f(n - 1); print(f(2000));";
    let told = ran(&rt, rt.alloc(), script, 14 * 2000 + 19);
    is_told(&rt, &told, TurnEnd::Ended, 0, &["L 2000"]);
    let told = ran(&rt, rt.alloc(), "let f = () => 1 + f(); f();", DEEP);
    is_told(&rt, &told, TurnEnd::Spent, 0, &[]);
}

#[test]
fn entries_have_their_lines(rt: HostRuntime) {
    let right = "print(\"before\"); desk.a; print(\"after\");";
    let mut w = begun(&rt, rt.alloc(), "desk.a = 1;", right);
    goes_on(&rt, &mut w, L, 100, TurnEnd::Ended, &[]);
    let lines = ["R before", "T 0 R #0 get \"a\" - 1", "R after"];
    is_traced(&rt, &mut w, R, 100, TurnEnd::Ended, &lines);
}

#[test]
fn a_getter_that_throws_has_its_entry(rt: HostRuntime) {
    let left = "desk.o = { get y() { throw 5; } };";
    let right = "try { desk.o.y; } catch (e) { print(e); }";
    let mut w = begun(&rt, rt.alloc(), left, right);
    goes_on(&rt, &mut w, L, 100, TurnEnd::Ended, &[]);
    let lines = [
        "T 0 R #0 get \"o\" - #1",
        "T 1 R #2 apply - - throw 5",
        "T 1 R #1 get \"y\" - throw 5",
        "R 5",
    ];
    is_traced(&rt, &mut w, R, 100, TurnEnd::Ended, &lines);
}

#[test]
fn a_construction_acts_in_its_functions_side(rt: HostRuntime) {
    let left = "desk.C = function (a) { this.a = a; };";
    let right = "print(new desk.C(7).a); desk.o = 1;";
    let mut w = begun(&rt, rt.alloc(), left, right);
    goes_on(&rt, &mut w, L, 100, TurnEnd::Ended, &[]);
    let lines = [
        "T 0 R #0 get \"C\" - #1",
        "T 1 R #1 construct - - #3",
        "T 2 R #3 get \"a\" - 7",
        "R 7",
        "T 3 R #0 getOwnPropertyDescriptor \"o\" - none",
        "T 4 R #0 defineProperty \"o\" {value=1,writable=true,enumerable=true,configurable=true} true",
        "T 3 R #0 set \"o\" 1 true",
    ];
    is_traced(&rt, &mut w, R, 100, TurnEnd::Ended, &lines);
}

#[test]
fn a_driver_notes_what_ran(rt: HostRuntime) {
    let mut w = begun(&rt, rt.alloc(), "desk.a = {};", "desk.a; x;");
    let mut driver = Noting::new(rt.alloc());
    notes(&rt, &mut driver, &mut w, L, TurnEnd::Ended);
    notes(&rt, &mut driver, &mut w, L, TurnEnd::Idle);
    notes(&rt, &mut driver, &mut w, R, TurnEnd::Uncaught);
    notes(&rt, &mut Straight, &mut w, R, TurnEnd::Idle);
    let ran = driver.ran();
    assert_eq!(rt; ran.len(), 2);
    assert_eq!(rt;
        (ran[0].side, ran[0].joined, ran[0].entries, ran[0].objects),
        (L, true, 0, 2)
    );
    assert_eq!(rt;
        (ran[1].side, ran[1].joined, ran[1].entries, ran[1].objects),
        (R, true, 1, 3)
    );
}

// Rows of steps, as scripts.
use super::array_members::ARRAY_MEMBERS;
use super::built_ins::BUILT_INS;
use super::calls::CALLS;
use super::driver::{has_printed, ran};
use super::expressions::EXPRESSIONS;
use super::methods::METHODS;
use super::mixed::MIXED;
use super::objects::OBJECTS;
use super::operators::{HEAD, OPERATORS, TAIL};
use super::proxies::{PROXIES, PROXIES_FURTHER};
use super::rows::{each_budget_holds, joined, rows_hold};
use super::statements::STATEMENTS;
use crate::TurnEnd;

#[test]
fn operators_on_each_pair_of_sorts(rt: HostRuntime) {
    for table in OPERATORS {
        let mut script = joined(&rt, rt.alloc(), HEAD);
        script.push_str(table.sign).expect(&rt, "there is memory");
        let tail = joined(&rt, rt.alloc(), TAIL);
        script.push_str(&tail).expect(&rt, "there is memory");
        let told = ran(&rt, rt.alloc(), &script, table.units);
        has_printed(&rt, &told, TurnEnd::Ended, 0, table.lines);
    }
}

#[test]
fn rows_of_expressions(rt: HostRuntime) {
    rows_hold(&rt, rt.alloc(), EXPRESSIONS);
}

#[test]
fn expressions_with_each_budget(rt: HostRuntime) {
    each_budget_holds(&rt, rt.alloc(), EXPRESSIONS);
}

#[test]
fn rows_of_statements(rt: HostRuntime) {
    rows_hold(&rt, rt.alloc(), STATEMENTS);
    let told = ran(&rt, rt.alloc(), "for (;;) {}", 99);
    has_printed(&rt, &told, TurnEnd::Spent, 0, &[]);
}

#[test]
fn statements_with_each_budget(rt: HostRuntime) {
    each_budget_holds(&rt, rt.alloc(), STATEMENTS);
}

#[test]
fn rows_of_calls(rt: HostRuntime) {
    rows_hold(&rt, rt.alloc(), CALLS);
}

#[test]
fn calls_with_each_budget(rt: HostRuntime) {
    each_budget_holds(&rt, rt.alloc(), CALLS);
}

#[test]
fn rows_of_built_ins(rt: HostRuntime) {
    rows_hold(&rt, rt.alloc(), BUILT_INS);
}

#[test]
fn built_ins_with_each_budget(rt: HostRuntime) {
    each_budget_holds(&rt, rt.alloc(), BUILT_INS);
}

#[test]
fn rows_of_methods(rt: HostRuntime) {
    rows_hold(&rt, rt.alloc(), METHODS);
}

#[test]
fn methods_with_each_budget(rt: HostRuntime) {
    each_budget_holds(&rt, rt.alloc(), METHODS);
}

#[test]
fn rows_of_objects(rt: HostRuntime) {
    rows_hold(&rt, rt.alloc(), OBJECTS);
}

#[test]
fn objects_with_each_budget(rt: HostRuntime) {
    each_budget_holds(&rt, rt.alloc(), OBJECTS);
}

#[test]
fn rows_of_mixed_members(rt: HostRuntime) {
    rows_hold(&rt, rt.alloc(), MIXED);
}

#[test]
fn mixed_members_with_each_budget(rt: HostRuntime) {
    each_budget_holds(&rt, rt.alloc(), MIXED);
}

#[test]
fn rows_of_array_members(rt: HostRuntime) {
    rows_hold(&rt, rt.alloc(), ARRAY_MEMBERS);
}

#[test]
fn array_members_with_each_budget(rt: HostRuntime) {
    each_budget_holds(&rt, rt.alloc(), ARRAY_MEMBERS);
}

#[test]
fn rows_of_proxies(rt: HostRuntime) {
    rows_hold(&rt, rt.alloc(), PROXIES);
}

#[test]
fn proxies_with_each_budget(rt: HostRuntime) {
    each_budget_holds(&rt, rt.alloc(), PROXIES);
}

#[test]
fn further_rows_of_proxies(rt: HostRuntime) {
    rows_hold(&rt, rt.alloc(), PROXIES_FURTHER);
}

#[test]
fn further_proxies_with_each_budget(rt: HostRuntime) {
    each_budget_holds(&rt, rt.alloc(), PROXIES_FURTHER);
}

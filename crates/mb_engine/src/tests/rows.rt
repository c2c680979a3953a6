// Rows of scripts: what a script tells with ample units, and with each number of units below its cost.
use super::driver::{has_printed, ran};
use crate::TurnEnd;
use std::alloc::Global;
use std::process::Abort;

/// A script, its lines, its whole cost, and for some the units that suffice for each line.
pub(super) struct Row {
    pub(super) script: &'static [&'static str],
    pub(super) lines: &'static [&'static str],
    pub(super) units: u32,
    pub(super) at: &'static [u32],
}

/// The pieces in one text.
pub(super) fn joined(rt: &impl Abort, alloc: Global, pieces: &[&str]) -> String {
    let mut whole = String::new(alloc);
    for piece in pieces {
        whole.push_str(piece).expect(rt, "there is memory");
    }
    whole
}

/// That each row ends with its lines, ten units above its cost.
pub(super) fn rows_hold(rt: &impl Abort, alloc: Global, rows: &[Row]) {
    for row in rows {
        let script = joined(rt, alloc, row.script);
        let told = ran(rt, alloc, &script, row.units.wrapping_add(10));
        has_printed(rt, &told, TurnEnd::Ended, 10, row.lines);
    }
}

/// That each row whose lines have their units holds with each budget.
pub(super) fn each_budget_holds(rt: &impl Abort, alloc: Global, rows: &[Row]) {
    for row in rows {
        if !row.at.is_empty() {
            row_holds(rt, alloc, row);
        }
    }
}

// Below its cost a row is spent, with no unit left, and it ends with it.
fn row_holds(rt: &impl Abort, alloc: Global, row: &Row) {
    let script = joined(rt, alloc, row.script);
    for units in 0..row.units {
        let told = ran(rt, alloc, &script, units);
        has_printed(rt, &told, TurnEnd::Spent, 0, paid(rt, row, units));
    }
    let told = ran(rt, alloc, &script, row.units);
    has_printed(rt, &told, TurnEnd::Ended, 0, row.lines);
}

// The lines of a row for which so many units suffice.
fn paid(rt: &impl Abort, row: &Row, units: u32) -> &'static [&'static str] {
    let paid = row.at.iter().filter(|at| **at <= units).count();
    assert!(rt; paid <= row.lines.len());
    &row.lines[..paid]
}

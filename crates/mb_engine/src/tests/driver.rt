// Worlds of scripts, and what turns tell.
ghost use Rattle.std.specs.Prelude.{◌≡◌, ◌<◌, false};
ghost use Rattle.mb_engine.specs.Begun.{IsBegun};
ghost use Rattle.mb_engine.specs.Turns.{halts};
ghost use Rattle.mb_programs.specs.Read.{WasRead};
ghost use Rattle.mb_text.specs.Texts.{KeepsIds};
ghost use Rattle.mb_world.specs.Data.{script_of};

use crate::{Driver, TurnEnd, begin, turn};
use mb_base::{Fuel, Side};
use mb_frames::Lines;
use mb_lexer::lex;
use mb_parse_stmt::parse;
use mb_scope::check;
use mb_text::Texts;
use mb_tree::Program;
use mb_world::{Rules, World};
use std::alloc::Global;
use std::process::Abort;

pub(crate) const L: Side = Side::LEFT;

pub(crate) const R: Side = Side::RIGHT;

const MOST: usize = 1_048_576;

// The tree of a script, and what its scopes bind.
fn program(rt: &impl Abort, alloc: Global, texts: &mut Texts, script: &str) -> Program
    ensures read { WasRead texts.new (script_of result) }
    ensures ids { KeepsIds texts.old texts.new }
{
    assert!(rt; script.len() <= MOST);
    let Ok(tokens) = lex(alloc, script.as_bytes(), texts) else {
        panic!(rt; "it has tokens")
    };
    assert!(rt; tokens.len() <= MOST);
    let Ok(tree) = parse(alloc, &tokens) else {
        panic!(rt; "it has a tree")
    };
    let Ok(scopes) = check(alloc, &tree) else {
        panic!(rt; "it keeps the static rules")
    };
    Program { tree, scopes }
}

/// A joined world of two scripts that has begun.
pub(crate) fn begun(rt: &impl Abort, alloc: Global, left: &str, right: &str) -> World
    ensures begun { IsBegun result }
    ensures running { result.halted ≡ false }
    ensures sides { result.sides ≡ 2 }
{
    let mut texts = Texts::new(alloc);
    let first = program(rt, alloc, &mut texts, left);
    let second = program(rt, alloc, &mut texts, right);
    let mut programs = Vec::new(alloc);
    programs.push(first).expect(rt, "there is memory");
    programs.push(second).expect(rt, "there is memory");
    let Ok(mut w) = World::new(alloc) else {
        panic!(rt; "there is memory")
    };
    let done = begin(&mut w, texts, programs, Rules::none(alloc), true);
    assert!(rt; done.is_ok());
    w
}

/// No lines.
pub(crate) fn no_lines(alloc: Global, traced: bool) -> Lines {
    Lines {
        traced,
        lettered: false,
        all: Vec::new(alloc),
    }
}

/// How a turn ended, the units that it left, and its lines.
#[derive(Drop)]
pub(crate) struct Told {
    pub(crate) end: TurnEnd,
    pub(crate) left: u32,
    pub(crate) lines: Vec<Vec<u8>>,
}

// A turn of a side with so many units, with the lines of entries or without them.
fn turned(w: &mut World, side: Side, units: u32, traced: bool) -> Told
    requires begun { IsBegun w.old }
    requires running { w.old.halted ≡ false }
    requires side { side.0 < w.old.sides }
    ensures begun { halts result.end ≡ false → IsBegun w.new }
    ensures halted { w.new.halted ≡ halts result.end }
    ensures sides { w.new.sides ≡ w.old.sides }
{
    let mut fuel = Fuel::new(units);
    let mut lines = no_lines(*w.trace().allocator(), traced);
    let end = turn(w, side, &mut fuel, &mut lines);
    Told {
        end,
        left: fuel.left(),
        lines: lines.all,
    }
}

/// What the first turn of a script tells that is the left one.
pub(crate) fn ran(rt: &impl Abort, alloc: Global, script: &str, units: u32) -> Told {
    let mut w = begun(rt, alloc, script, "");
    turned(&mut w, L, units, false)
}

/// A turn of a world that goes on: it ends so, with these lines. What it leaves of the units.
pub(crate) fn goes_on(
    rt: &impl Abort,
    w: &mut World,
    side: Side,
    units: u32,
    end: TurnEnd,
    lines: &[&str],
) -> u32
    requires begun { IsBegun w.old }
    requires running { w.old.halted ≡ false }
    requires side { side.0 < w.old.sides }
    requires goes { halts end ≡ false }
    ensures begun { IsBegun w.new }
    ensures running { w.new.halted ≡ false }
    ensures sides { w.new.sides ≡ w.old.sides }
{
    let told = turned(w, side, units, false);
    is_told(rt, &told, end, told.left, lines);
    told.left
}

/// A turn with the lines of entries.
pub(crate) fn is_traced(
    rt: &impl Abort,
    w: &mut World,
    side: Side,
    units: u32,
    end: TurnEnd,
    lines: &[&str],
)
    requires begun { IsBegun w.old }
    requires running { w.old.halted ≡ false }
    requires side { side.0 < w.old.sides }
{
    let told = turned(w, side, units, true);
    is_told(rt, &told, end, told.left, lines);
}

/// A driver's turn of a world that goes on, with 100 units: it ends so.
pub(crate) fn notes<D: Driver>(
    rt: &impl Abort,
    driver: &mut D,
    w: &mut World,
    side: Side,
    end: TurnEnd,
)
    requires begun { IsBegun w.old }
    requires running { w.old.halted ≡ false }
    requires side { side.0 < w.old.sides }
    requires goes { halts end ≡ false }
    ensures begun { IsBegun w.new }
    ensures running { w.new.halted ≡ false }
    ensures sides { w.new.sides ≡ w.old.sides }
{
    let mut fuel = Fuel::new(100);
    let mut lines = no_lines(*w.trace().allocator(), false);
    let ended = driver.turn(w, side, &mut fuel, &mut lines);
    assert_eq!(rt; ended, end);
}

/// That it ended so, with so many units and these lines.
pub(crate) fn is_told(rt: &impl Abort, told: &Told, end: TurnEnd, left: u32, lines: &[&str])
    ensures end { told.now.end ≡ end }
{
    has_lines(rt, told, end, left, "", lines);
}

/// That it ended so, with so many units, and the left side printed these texts.
pub(crate) fn has_printed(rt: &impl Abort, told: &Told, end: TurnEnd, left: u32, texts: &[&str])
    ensures end { told.now.end ≡ end }
{
    has_lines(rt, told, end, left, "L ", texts);
}

fn has_lines(rt: &impl Abort, told: &Told, end: TurnEnd, left: u32, first: &str, lines: &[&str])
    ensures end { told.now.end ≡ end }
{
    assert_eq!(rt; told.end, end);
    assert_eq!(rt; told.left, left);
    assert_eq!(rt; told.lines.len(), lines.len());
    for (line, wanted) in told.lines.iter().zip(lines) {
        let mut whole = String::new(*told.lines.allocator());
        whole.push_str(first).expect(rt, "there is memory");
        whole.push_str(wanted).expect(rt, "there is memory");
        assert_eq!(rt; line.as_slice(), whole.as_bytes());
    }
}

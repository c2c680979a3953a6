// Two scripts, and how their run ended.
ghost use Rattle.std.specs.Prelude.{◌≡◌, false};
ghost use Rattle.mb_engine.specs.Begun.{IsBegun};
ghost use Rattle.mb_programs.specs.Read.{WasRead};
ghost use Rattle.mb_story.specs.Running.{NamesItsSides};
ghost use Rattle.mb_text.specs.Texts.{KeepsIds};
ghost use Rattle.mb_world.specs.Data.{script_of};

use crate::{Ending, Letter, RunFault, Style, run};
use mb_base::{Fuel, Side};
use mb_engine::{Noting, begin};
use mb_lexer::lex;
use mb_outer::ShelfSink;
use mb_parse_stmt::parse;
use mb_scope::check;
use mb_text::Texts;
use mb_tree::Program;
use mb_world::{Rules, World};
use std::alloc::Global;
use std::process::Abort;

pub(crate) const L: Side = Side::LEFT;

pub(crate) const R: Side = Side::RIGHT;

const MOST: usize = 1_048_576;

/// Two scripts, how their lines are told, and which put is to fail.
#[derive(Clone, Copy)]
pub(crate) struct Script<'a> {
    pub(crate) left: &'a str,
    pub(crate) right: &'a str,
    pub(crate) style: Style,
    pub(crate) failing: Option<(u64, usize)>,
}

impl<'a> Script<'a> {
    pub(crate) fn of(left: &'a str, right: &'a str) -> Script<'a> {
        Script {
            left,
            right,
            style: Style {
                traced: false,
                lettered: false,
            },
            failing: None,
        }
    }
}

/// How a run ended.
#[derive(Drop)]
pub(crate) struct Told {
    pub(crate) answer: Result<Ending, RunFault>,
    pub(crate) halted: bool,
    pub(crate) left: u32,
    pub(crate) sink: ShelfSink,
    pub(crate) driver: Noting,
}

// The tree of a script, and what its scopes bind.
fn program(rt: &impl Abort, alloc: Global, texts: &mut Texts, script: &str) -> Program
    ensures read { WasRead texts.new (script_of result) }
    ensures ids { KeepsIds texts.old texts.new }
{
    assert!(rt; script.len() <= MOST);
    let Ok(tokens) = lex(alloc, script.as_bytes(), texts) else {
        panic!(rt; "it has tokens")
    };
    assert!(rt; tokens.len() <= MOST);
    let Ok(tree) = parse(alloc, &tokens) else {
        panic!(rt; "it has a tree")
    };
    let Ok(scopes) = check(alloc, &tree) else {
        panic!(rt; "it keeps the static rules")
    };
    Program { tree, scopes }
}

// A joined world of two scripts that has begun.
fn begun(rt: &impl Abort, alloc: Global, left: &str, right: &str) -> World
    ensures begun { IsBegun result }
    ensures running { result.halted ≡ false }
    ensures sides { result.sides ≡ 2 }
{
    let mut texts = Texts::new(alloc);
    let first = program(rt, alloc, &mut texts, left);
    let second = program(rt, alloc, &mut texts, right);
    let mut programs = Vec::new(alloc);
    programs.push(first).expect(rt, "there is memory");
    programs.push(second).expect(rt, "there is memory");
    let Ok(mut w) = World::new(alloc) else {
        panic!(rt; "there is memory")
    };
    let done = begin(&mut w, texts, programs, Rules::none(alloc), true);
    assert!(rt; done.is_ok());
    w
}

// That each letter is one of two sides.
fn names_two(rt: &impl Abort, word: &[Letter])
    ensures { NamesItsSides 2 word.now }
{
    for letter in word {
        let Letter::Turn(side) = letter;
        assert!(rt; side.0 < 2);
    }
}

/// The run of a script with so many units.
pub(crate) fn told_run(
    rt: &impl Abort,
    alloc: Global,
    script: Script<'_>,
    word: &[Letter],
    units: u32,
) -> Told {
    names_two(rt, word);
    let mut w = begun(rt, alloc, script.left, script.right);
    let mut failing = Vec::new(alloc);
    if let Some(put) = script.failing {
        failing.push(put).expect(rt, "there is memory");
    }
    let Ok(mut sink) = ShelfSink::new(alloc, 1_000, failing) else {
        panic!(rt; "there is memory")
    };
    let mut driver = Noting::new(alloc);
    let mut fuel = Fuel::new(units);
    let answer = run(
        &mut w,
        word,
        &mut fuel,
        script.style,
        &mut sink,
        &mut driver,
    );
    Told {
        answer,
        halted: w.halted(),
        left: fuel.left(),
        sink,
        driver,
    }
}

/// That it ended so, with this text.
pub(crate) fn is_told(rt: &impl Abort, ran: &Told, answer: Result<Ending, RunFault>, text: &str) {
    assert_eq!(rt; ran.answer, answer);
    assert_eq!(rt; ran.sink.bytes(), text.as_bytes());
}

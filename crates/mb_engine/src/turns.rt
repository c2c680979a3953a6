// One turn: the next job of a side (ECMA-262, 9.5).
ghost use Rattle.std.specs.Prelude.{◌≡◌, ◌≢◌, ◌<◌, ◌↔◌, [], List, IfOk, IsSome, Ok, OnOk, false, if◌then◌else◌, true};
ghost use Rattle.std.specs.Prelude.{ℕ};
ghost use Rattle.mb_engine.specs.Begun.{IsBegun};
ghost use Rattle.mb_engine.specs.Turns.{AddsLines, Turns, halts};
ghost use Rattle.mb_engine.specs.machine.Running.{Finishes, IsRealOutcome, JobEnds};
ghost use Rattle.mb_frames.specs.Found.{HoldsJob};
ghost use Rattle.mb_frames.specs.Passing.{TextsGrew};
ghost use Rattle.mb_frames.specs.Ready.{IsReady};
ghost use Rattle.mb_frames.specs.Resolved.{outcome_in};
ghost use Rattle.mb_frames.specs.Standing.{Logged};
ghost use Rattle.mb_frames.specs.Stepping.{written};
ghost use Rattle.mb_frames.specs.Wholeness.{StaysFound};
ghost use Rattle.mb_model.specs.Engine.{Gives};
ghost use Rattle.mb_model.specs.Story.{TurnOf, job_ends, turn_ended};
ghost use Rattle.mb_world.specs.Data.{queue_of};
ghost use Rattle.mb_world.specs.Graph.{Item};
ghost use Rattle.mb_world.specs.Image.{Image, job_in, names_of};

use crate::advancing::run;
use crate::starting::start;
use crate::uncaught::note_uncaught;
use mb_base::{Fuel, NoMemory, Side};
use mb_frames::{Halt, Lines, Machine, Outcome};
use mb_world::{Job, World};

/// How a turn ended.
#[derive(Clone, Copy, Debug, PartialEq, Eq)]
pub enum TurnEnd {
    /// The side had no job.
    Idle,
    /// Its job ended.
    Ended,
    /// Its job threw, which no script caught.
    Uncaught,
    /// A charge of its job was above what is left.
    Spent,
    NoMemory,
}

/// Does the next job of a side to its end. An uncaught throw has its line. The world is halted by a job that can't be
/// paid, and where memory is wanting.
pub fn turn(w: &mut World, side: Side, fuel: &mut Fuel, lines: &mut Lines) -> TurnEnd
    requires begun { IsBegun w.old }
    requires running { w.old.halted ≡ false }
    requires side { side.0 < w.old.sides }

    // the turn of the story, with exact units, lines and entries
    ensures turns { (log : List Item) → Logged w.old log → Turns result w.new fuel.new (written lines.old)
        (written lines.new) log (TurnOf (Image w.old log) side.0 fuel.old) }
    ensures idle { (result ≡ TurnEnd.Idle) ↔ (queue_of w.old side ≡ []) }
    ensures rests { result ≡ TurnEnd.Idle →
        (w.new ≡ w.old) × (fuel.new ≡ fuel.old) × (written lines.new ≡ written lines.old) }

    // the world after it
    ensures begun { halts result ≡ false → IsBegun w.new }
    ensures halted { w.new.halted ≡ halts result }
    ensures same { (w.new.joined ≡ w.old.joined) × (w.new.sides ≡ w.old.sides) }
    ensures adds { AddsLines (written lines.old) (written lines.new) }
{
    match w.take_job(side) {
        Some(job) => {
            let end = do_job(w, side, fuel, lines, job);
            halt_after(w, end);
            end
        }
        None => TurnEnd::Idle,
    }
}

// A turn that couldn't be paid, and one that wanted memory, end the run.
fn halt_after(w: &mut World, end: TurnEnd)
    ensures { w.new ≡ (if halts end then record w.old { halted = true } else w.old) }
{
    match end {
        TurnEnd::Spent => w.halt(),
        TurnEnd::NoMemory => w.halt(),
        _ => {}
    }
}

// A job that was taken. Its lines stand apart until it has ended.
fn do_job(w: &mut World, side: Side, fuel: &mut Fuel, lines: &mut Lines, job: Job) -> TurnEnd
    requires begun { IsBegun w.old }
    requires running { w.old.halted ≡ false }
    requires side { side.0 < w.old.sides }
    requires job { HoldsJob w.old side job }
    ensures turns { (log : List Item) → Logged w.old log → Turns result w.new fuel.new (written lines.old)
        (written lines.new) log
        (turn_ended side.0 (job_ends side.0 (job_in (names_of w.old) job) (Image w.old log) fuel.old)) }
    ensures worked { result ≢ TurnEnd.Idle }
    ensures ready { IsReady w.new }
    ensures found { StaysFound w.old w.new }
    ensures running { halts result ≡ false → w.new.halted ≡ false }
    ensures adds { AddsLines (written lines.old) (written lines.new) }
{
    let mut own = Lines {
        traced: lines.traced,
        lettered: lines.lettered,
        all: Vec::new(*lines.all.allocator()),
    };
    let end = end_of(w, side, fuel, &mut own, job);
    match lines.all.append(&mut own.all) {
        Ok(()) => end,
        Err(_) => TurnEnd::NoMemory,
    }
}

// How the turn of a job ends.
fn end_of(w: &mut World, side: Side, fuel: &mut Fuel, lines: &mut Lines, job: Job) -> TurnEnd
    requires begun { IsBegun w.old }
    requires running { w.old.halted ≡ false }
    requires side { side.0 < w.old.sides }
    requires job { HoldsJob w.old side job }
    ensures turns { (log : List Item) → Logged w.old log → Turns result w.new fuel.new (written lines.old)
        (written lines.new) log
        (turn_ended side.0 (job_ends side.0 (job_in (names_of w.old) job) (Image w.old log) fuel.old)) }
    ensures worked { result ≢ TurnEnd.Idle }
    ensures ready { IsReady w.new }
    ensures found { StaysFound w.old w.new }
    ensures running { halts result ≡ false → w.new.halted ≡ false }
{
    match outcome_of(w, side, fuel, lines, job) {
        Ok(outcome) => ended(w, side, lines, &outcome),
        Err(Halt::Spent) => TurnEnd::Spent,
        Err(Halt::NoMemory) => TurnEnd::NoMemory,
    }
}

// The outcome of a job.
fn outcome_of(
    w: &mut World,
    side: Side,
    fuel: &mut Fuel,
    lines: &mut Lines,
    job: Job,
) -> Result<Outcome, Halt>
    requires begun { IsBegun w.old }
    requires side { side.0 < w.old.sides }
    requires job { HoldsJob w.old side job }
    ensures ends { (log : List Item) → Logged w.old log → JobEnds result w.new fuel.new (written lines.old)
        (written lines.new) log (job_ends side.0 (job_in (names_of w.old) job) (Image w.old log) fuel.old) }
    ensures ready { IsReady w.new }
    ensures found { StaysFound w.old w.new }
    ensures running { OnOk result (w.new.halted ≡ false) }
    ensures thrown { IfOk result (IsRealOutcome w.new) }
{
    let mut m = start(w, side, job)?;
    let ran = run(&mut m, w, fuel, lines);
    let done = done_of(m);
    finished(ran, w.halted(), done)
}

// What a machine leaves whose frames are of no more use.
fn done_of(m: Machine) -> Option<Outcome>
    ensures { result ≡ m.done }
{
    m.done
}

// That no step which goes on halts the world is said by no contract of a step, so it is asked.
fn finished(ran: Result<(), Halt>, halted: bool, done: Option<Outcome>) -> Result<Outcome, Halt>
    requires { OnOk ran (IsSome done) }
    ensures { Finishes ran halted done result }
{
    match ran {
        Ok(()) => running(halted, done),
        Err(halt) => Err(halt),
    }
}

fn running(halted: bool, done: Option<Outcome>) -> Result<Outcome, Halt>
    requires { IsSome done }
    ensures { Finishes (Ok tt) halted done result }
{
    if halted {
        return Err(Halt::NoMemory);
    }
    match done {
        Some(outcome) => Ok(outcome),
        None => unreachable!(),
    }
}

// How a turn ends whose job gave that outcome; an uncaught throw has its line.
fn ended(w: &mut World, side: Side, lines: &mut Lines, outcome: &Outcome) -> TurnEnd
    requires ready { IsReady w.old }
    requires side { side.0 < w.old.sides }
    requires thrown { IsRealOutcome w.old outcome.now }
    ensures turns { (log : List Item) → Logged w.old log → (f : ℕ) → Turns result w.new f (written lines.old)
        (written lines.new) log
        (turn_ended side.0 (Gives (outcome_in (names_of w.old) outcome.now) (Image w.old log) f)) }
    ensures worked { result ≢ TurnEnd.Idle }
    ensures grew { TextsGrew w.old w.new }
{
    match outcome {
        Outcome::Throw(thrown) => match note_uncaught(w, side, lines, *thrown) {
            Ok(()) => TurnEnd::Uncaught,
            Err(NoMemory) => TurnEnd::NoMemory,
        },
        _ => {
            let _texts = w.texts();
            TurnEnd::Ended
        }
    }
}

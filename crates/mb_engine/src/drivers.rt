// Who makes turns, and what is told of them.
ghost use Rattle.std.specs.Prelude.{◌≡◌, ◌≢◌, ◌<◌, ◌↔◌, [], List, None, Option, Some, false, length, true};
ghost use Rattle.std.specs.Prelude.{vec_capacity, vec_len};
ghost use Rattle.mb_engine.specs.Begun.{IsBegun};
ghost use Rattle.mb_engine.specs.Driving.{noted, noted_if, ran_of, tells};
ghost use Rattle.mb_engine.specs.Turns.{AddsLines, Turns, halts};
ghost use Rattle.mb_engine.specs.declared.drivers.Ran.{Ran as ARan};
ghost use Rattle.mb_frames.specs.Standing.{Logged};
ghost use Rattle.mb_frames.specs.Stepping.{written};
ghost use Rattle.mb_model.specs.Story.{TurnOf};
ghost use Rattle.mb_world.specs.Data.{queue_of};
ghost use Rattle.mb_world.specs.Graph.{Item};
ghost use Rattle.mb_world.specs.Image.{Image};

use crate::turns::{TurnEnd, turn};
use mb_base::{Fuel, Side};
use mb_frames::Lines;
use mb_world::World;
use std::alloc::Global;
use std::marker::Model;

/// A turn that took a job: its side, whether the world is joined, and, as they stand after it, the number of entries,
/// the number that the next object gets, and the units left.
#[derive(Clone, Copy, Debug, PartialEq, Eq)]
pub struct Ran {
    pub side: Side,
    pub joined: bool,
    pub entries: u32,
    pub objects: u32,
    pub left: u32,
}

/// Makes turns as `turn` does. Where it tells which, a turn that ended, threw or was spent stands last.
pub trait Driver {
    ghost ran: { Self → Option (List ARan) };

    fn turn(&mut self, w: &mut World, side: Side, fuel: &mut Fuel, lines: &mut Lines) -> TurnEnd
        requires begun { IsBegun w.old }
        requires running { w.old.halted ≡ false }
        requires side { side.0 < w.old.sides }

        // the turn of the story, with exact units, lines and entries
        ensures turns { (log : List Item) → Logged w.old log → Turns result w.new fuel.new (written lines.old)
            (written lines.new) log (TurnOf (Image w.old log) side.0 fuel.old) }
        ensures idle { result ≢ TurnEnd.NoMemory → (result ≡ TurnEnd.Idle) ↔ (queue_of w.old side ≡ []) }
        ensures rests { result ≡ TurnEnd.Idle →
            (w.new ≡ w.old) × (fuel.new ≡ fuel.old) × (written lines.new ≡ written lines.old) }
        ensures ran { ran self.new ≡ noted_if result side w.new fuel.new (ran self.old) }

        // the world after it
        ensures begun { halts result ≡ false → IsBegun w.new }
        ensures halted { w.new.halted ≡ halts result }
        ensures same { (w.new.joined ≡ w.old.joined) × (w.new.sides ≡ w.old.sides) }
        ensures adds { AddsLines (written lines.old) (written lines.new) };
}

/// Makes turns, and tells nothing.
#[derive(Clone, Copy, Debug, Drop)]
pub struct Straight;

impl Driver for Straight {
    ghost use Rattle.std.specs.Prelude.{None};

    ghost ran = { λ driver. None };

    fn turn(&mut self, w: &mut World, side: Side, fuel: &mut Fuel, lines: &mut Lines) -> TurnEnd {
        turn(w, side, fuel, lines)
    }
}

/// Makes turns, and tells which took a job: contracts see the list.
#[derive(Drop)]
pub struct Noting {
    ran: Vec<Ran>,
}

impl Model for Noting {
    ghost use Rattle.std.specs.Prelude.{List};
    ghost use Rattle.mb_engine.specs.declared.drivers.Ran.{Ran as ARan};

    ghost Value = { List ARan };

    ghost view = { λ noting. noting.ran.items };
}

impl Noting {
    /// No turns yet.
    pub fn new(alloc: Global) -> Noting
        ensures { result ≡ [] }
    {
        Noting {
            ran: Vec::new(alloc),
        }
    }

    /// The turns so far.
    pub fn ran(&self) -> &[Ran]
        ensures { result.now ≡ self.now }
    {
        &self.ran
    }
}

impl Driver for Noting {
    ghost use Rattle.std.specs.Prelude.{Some};

    ghost ran = { λ noting. Some noting };

    fn turn(&mut self, w: &mut World, side: Side, fuel: &mut Fuel, lines: &mut Lines) -> TurnEnd {
        match self.ran.reserve(1) {
            Ok(()) => {
                let end = turn(w, side, fuel, lines);
                match u32::try_from(w.trace().len()) {
                    Ok(entries) => {
                        note(&mut self.ran, w, side, fuel, entries, end);
                        end
                    }
                    Err(_) => refuse(w),
                }
            }
            Err(_) => refuse(w),
        }
    }
}

// Notes a turn, if it is told of.
fn note(ran: &mut Vec<Ran>, w: &World, side: Side, fuel: &Fuel, entries: u32, end: TurnEnd)
    requires room { vec_len ran.old < vec_capacity ran.old }
    requires entries { length w.now.entries ≡ entries }
    ensures { ran.new.items ≡ noted end (ran_of side w.now fuel.now) ran.old.items }
{
    if tells(end) {
        ran.push_reserved(Ran {
            side,
            joined: w.joined(),
            entries,
            objects: w.objects(),
            left: fuel.left(),
        });
    }
}

// Whether a turn took a job and is told of.
fn tells(end: TurnEnd) -> bool
    ensures { result ≡ tells end }
{
    match end {
        TurnEnd::Ended | TurnEnd::Uncaught | TurnEnd::Spent => true,
        TurnEnd::Idle | TurnEnd::NoMemory => false,
    }
}

// No memory is left for the list: the run ends.
fn refuse(w: &mut World) -> TurnEnd
    ensures end { result ≡ TurnEnd.NoMemory }
    ensures halted { w.new ≡ record w.old { halted = true } }
{
    w.halt();
    TurnEnd::NoMemory
}

// The world before the first turn.
ghost use Rattle.std.specs.Prelude.{◌≡◌, ◌≤◌, ◌<◌, [], All, IfOk, OnOk, is_err, length, map, true, false};
ghost use Rattle.mb_engine.specs.Begun.{IsBegun, IsGiven, first_graph_of};
ghost use Rattle.mb_engine.specs.machine.Beginning.{AddsScope, AddsScopes, Begins, Crosses, IsDesk, IsSet};
ghost use Rattle.mb_engine.specs.machine.Beginning.{with_scripts, with_started};
ghost use Rattle.mb_frames.specs.Held.{HeldValue};
ghost use Rattle.mb_frames.specs.Ready.{IsReady, MayHold};
ghost use Rattle.mb_intrinsics.specs.Untouched.{programs_in, rules_in};
ghost use Rattle.mb_model.specs.Story.{first_graph};
ghost use Rattle.mb_world.specs.Data.{fresh, script_of};
ghost use Rattle.mb_world.specs.Ids.{HasItsIds, ScriptIn};
ghost use Rattle.mb_world.specs.Image.{Image, Resolve, names_of};
ghost use Rattle.mb_world.specs.Value.{Object};

use mb_base::{NoMemory, ObjId, Side, Value};
use mb_intrinsics::{bind_names, furnish};
use mb_maps::cross;
use mb_text::Texts;
use mb_tree::Program;
use mb_world::{Job, Rules, World};

/// Begins a run of a script for each side, in a fresh world. After `NoMemory` the world is halted.
pub fn begin(
    w: &mut World,
    texts: Texts,
    programs: Vec<Program>,
    rules: Rules,
    joined: bool,
) -> Result<(), NoMemory>
    requires fresh { w.old ≡ fresh }
    requires given { IsGiven texts (map script_of programs.items) rules joined }
    ensures begun { OnOk result (IsBegun w.new) }
    ensures first { OnOk result (Image w.new [] ≡ first_graph_of texts (map script_of programs.items) rules) }
    ensures joined { OnOk result (w.new.joined ≡ joined) }
    ensures sides { OnOk result (w.new.sides ≡ length programs.items) }
    ensures entries { OnOk result (w.new.entries ≡ []) }
    ensures apart { joined ≡ false → w.new.joined ≡ false }
    ensures halted { w.new.halted ≡ is_err result }
{
    let sides = programs.len() as u8;
    w.set_texts(texts);
    set_programs(w, programs);
    w.set_rules(rules);
    if joined {
        w.set_joined();
    }
    let begun = add_all(w, sides);
    if begun.is_err() {
        w.halt();
    }
    begun
}

// The scripts, by side.
fn set_programs(w: &mut World, programs: Vec<Program>)
    requires few { length programs.items ≤ 8 }
    requires ids { All (ScriptIn w.old) (map script_of programs.items) }
    ensures { w.new ≡ with_scripts w.old (map script_of programs.items) }
{
    let mut side = 0;
    for program in programs {
        w.set_program(Side(side), program);
        side += 1;
    }
}

// Each side's script as its first job, the built-ins, `desk`, and the scopes of their names.
fn add_all(w: &mut World, sides: u8) -> Result<(), NoMemory>
    requires set { IsSet w.old sides }
    ensures begins { OnOk result (Begins (first_graph (programs_in w.old sides) (rules_in w.old)) sides w.old w.new) }
    ensures joined { w.new.joined ≡ w.old.joined }
{
    add_scripts(w, sides)?;
    furnish(w, sides)?;
    match w.object(0) {
        Some(desk) => add_scopes(w, desk, sides),
        None => unreachable!(),
    }
}

// Each side's script is its job.
fn add_scripts(w: &mut World, sides: u8) -> Result<(), NoMemory>
    requires { sides ≤ 8 }
    ensures added { OnOk result (w.new ≡ with_started w.old sides) }
    ensures joined { w.new.joined ≡ w.old.joined }
    ensures ids { HasItsIds w.new }
{
    let added = add_each_script(w, sides);
    let _texts = w.texts();
    added
}

fn add_each_script(w: &mut World, sides: u8) -> Result<(), NoMemory>
    requires { sides ≤ 8 }
    ensures added { OnOk result (w.new ≡ with_started w.old sides) }
    ensures joined { w.new.joined ≡ w.old.joined }
{
    for side in 0..sides {
        w.add_job(Side(side), Job::Script)?;
    }
    Ok(())
}

// The scopes of all sides.
fn add_scopes(w: &mut World, desk: ObjId, sides: u8) -> Result<(), NoMemory>
    requires ready { IsReady w.old }
    requires sides { w.old.sides ≡ sides }
    requires desk { IsDesk w.old desk }
    requires none { w.old.scopes ≡ [] }
    ensures added { OnOk result (AddsScopes desk sides w.old w.new) }
    ensures joined { w.new.joined ≡ w.old.joined }
{
    for side in 0..sides {
        add_scope(w, desk, Side(side))?;
    }
    Ok(())
}

// The first scope of a side binds what it has for `desk`.
fn add_scope(w: &mut World, desk: ObjId, side: Side) -> Result<(), NoMemory>
    requires ready { IsReady w.old }
    requires side { side.0 < w.old.sides }
    requires desk { IsDesk w.old desk }
    ensures added { OnOk result (AddsScope desk side w.old w.new) }
    ensures joined { w.new.joined ≡ w.old.joined }
{
    let own = own_desk(w, desk, side)?;
    bind_names(w, side, own)
}

// What a side has for `desk`.
fn own_desk(w: &mut World, desk: ObjId, side: Side) -> Result<Value, NoMemory>
    requires ready { IsReady w.old }
    requires side { side.0 < w.old.sides }
    requires desk { IsDesk w.old desk }
    ensures crosses { OnOk result (Crosses desk w.old w.new) }
    ensures held { IfOk result (λ own. MayHold w.new side (HeldValue own)) }
    ensures stands { IfOk result (λ own. Resolve (names_of w.new) own ≡ Object 0) }
    ensures joined { w.new.joined ≡ w.old.joined }
{
    let desk = Value::Object(desk);
    if side == Side::LEFT {
        return Ok(desk);
    }
    let own = cross(w, desk, side);
    let _texts = w.texts();
    own
}

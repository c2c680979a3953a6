// A world with the built-ins and `desk`.
ghost use Rattle.std.specs.Prelude.{◌≡◌, ◌≤◌, [], true, OnErr, OnOk};
ghost use Rattle.std.specs.List.{flat_map};
ghost use Rattle.mb_frames.specs.Failing.{HasItsBuiltIns};
ghost use Rattle.mb_intrinsics.specs.Furnished.{HasTableTexts, IsFurnished, IsHalfFurnished, home_count, homes, standard_cells};
ghost use Rattle.mb_intrinsics.specs.machine.Filling.{OnlyCells};
ghost use Rattle.mb_text.specs.Texts.{KeepsIds};
ghost use Rattle.mb_world.specs.Data.{with_cells, with_texts};
ghost use Rattle.mb_world.specs.Ids.{HasItsIds};

use crate::desk::add_desk;
use crate::standard::add_built_ins;
use crate::texts::intern_all;
use mb_base::{NoMemory, Side};
use mb_world::World;

/// Lets so many sides take part, in a world without cells: it makes the built-ins of each, by side and by place, and
/// then `desk`, whose number is 0 and which the first side owns. In a joined world the first side's built-ins serve
/// both.
/// The texts of the table are there from then on. After `NoMemory` the world is halted.
pub fn furnish(w: &mut World, sides: u8) -> Result<(), NoMemory>
    requires empty { w.old.cells ≡ [] }
    requires least { 2 ≤ sides }
    requires most { sides ≤ 8 }
    requires joined { w.old.joined ≡ true → sides ≡ 2 }
    ensures furnished { OnOk result (IsFurnished w.old sides w.new) }
    ensures built_ins { OnOk result (HasItsBuiltIns w.new) }
    ensures halted { OnErr result (IsHalfFurnished w.old sides w.new) }
    ensures ids { HasItsIds w.new }
{
    w.set_sides(sides);
    let added = add_all(w, sides);
    if added.is_err() {
        w.halt();
    }
    let _texts = w.texts();
    added
}

// The texts of the table, the built-ins of the sides, and `desk`.
fn add_all(w: &mut World, sides: u8) -> Result<(), NoMemory>
    requires empty { w.old.cells ≡ [] }
    requires least { 2 ≤ sides }
    requires most { sides ≤ 8 }
    ensures furnished { w.old.sides ≡ sides → OnOk result (IsFurnished w.old sides w.new) }
    ensures halted { OnErr result (KeepsIds w.old.texts w.new.texts) }
    ensures rest { OnErr result (OnlyCells (with_texts w.old w.new.texts) w.new) }
{
    intern_all(w)?;
    add_each(w, sides)?;
    add_desk(w)?;
    Ok(())
}

// The built-ins of each side, or those of the first one that serve all.
fn add_each(w: &mut World, sides: u8) -> Result<(), NoMemory>
    requires empty { w.old.cells ≡ [] }
    requires sides { sides ≤ 8 }
    requires texts { HasTableTexts w.old.texts }
    ensures added { OnOk result
        (w.new ≡ with_cells w.old (flat_map (standard_cells w.old.texts) (homes w.old.joined sides))) }
    ensures halted { OnErr result (OnlyCells w.old w.new) }
{
    for side in 0..home_count(w, sides) {
        add_built_ins(w, Side(side))?;
    }
    Ok(())
}

// How many sides have built-ins of their own.
fn home_count(w: &World, sides: u8) -> u8
    ensures { result ≡ home_count w.now.joined sides }
{
    if w.joined() { 1 } else { sides }
}

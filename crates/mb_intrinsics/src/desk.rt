// `desk`, the object that all scripts share.
ghost use Rattle.std.specs.Prelude.{◌≡◌, ◌∷◌, ◌++◌, [], OnErr, OnOk};
ghost use Rattle.mb_intrinsics.specs.Furnished.{HasTableTexts, desk_cell, first_side};
ghost use Rattle.mb_intrinsics.specs.machine.Filling.{HasCellsOf, OnlyCells};
ghost use Rattle.mb_world.specs.Data.{with_cells};

use crate::places::OBJECT_PROTOTYPE;
use crate::standard::built_in_id;
use crate::texts::{DESK, intern};
use mb_base::{NoMemory, Side, Value};
use mb_world::{CellKind, World};

/// Makes `desk`, which the first side owns.
pub(crate) fn add_desk(w: &mut World) -> Result<(), NoMemory>
    requires cells { HasCellsOf w.old first_side }
    requires texts { HasTableTexts w.old.texts }
    ensures added { OnOk result (w.new ≡ with_cells w.old (w.old.cells ++ desk_cell w.old.texts ∷ [])) }
    ensures halted { OnErr result (OnlyCells w.old w.new) }
{
    let label = intern(w, DESK)?;
    let prototype = Value::Object(built_in_id(Side::LEFT, OBJECT_PROTOTYPE));
    w.make(Side::LEFT, CellKind::Plain, prototype, Some(label))?;
    Ok(())
}

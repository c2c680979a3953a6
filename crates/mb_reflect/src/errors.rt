// Errors that are thrown (ECMA-262, 20.5).
ghost use Rattle.std.specs.Prelude.{◌<◌, ℕ};
ghost use Rattle.mb_frames.specs.Passing.{Part};
ghost use Rattle.mb_frames.specs.Ready.{IsReady, KeepsBy};
ghost use Rattle.mb_frames.specs.Sorts.{Sort};
ghost use Rattle.mb_model.specs.Meaning.{finished};
ghost use Rattle.mb_model.specs.Writing.{type_error as type_error_row};

use mb_base::Side;
use mb_frames::{Halt, Move};
use mb_world::World;

// A fresh TypeError of the side that acts is thrown.
pub(crate) fn type_error(w: &mut World, home: Side) -> Result<Move, Halt>
    requires ready { IsReady w.old }
    requires side { home.0 < w.old.sides }
    ensures part { (f : ℕ) → Part home result w.old w.new f f (type_error_row home.0 finished) }
    ensures keeps { (wanted : Sort) → KeepsBy home wanted result w.old w.new }
{
    mb_parts::type_error(w, home)
}

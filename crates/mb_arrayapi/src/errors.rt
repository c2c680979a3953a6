// Errors that are thrown (ECMA-262, 20.5).
ghost use Rattle.std.specs.Prelude.{◌<◌, ℕ};
ghost use Rattle.mb_frames.specs.Passing.{Part};
ghost use Rattle.mb_frames.specs.Ready.{IsReady, KeepsBy};
ghost use Rattle.mb_frames.specs.Sorts.{Sort};
ghost use Rattle.mb_model.specs.Meaning.{finished};
ghost use Rattle.mb_model.specs.Writing.{range_error, type_error};

use mb_base::Side;
use mb_frames::{Halt, Move};
use mb_parts::throws;
use mb_world::{ErrorKind, World};

// A fresh TypeError of that side is thrown.
pub(crate) fn type_error(w: &mut World, home: Side) -> Result<Move, Halt>
    requires ready { IsReady w.old }
    requires side { home.0 < w.old.sides }
    ensures part { (f : ℕ) → Part home result w.old w.new f f (type_error home.0 finished) }
    ensures keeps { (wanted : Sort) → KeepsBy home wanted result w.old w.new }
{
    throws(w, home, ErrorKind::TypeError)
}

// A fresh RangeError of that side is thrown.
pub(crate) fn range_error(w: &mut World, home: Side) -> Result<Move, Halt>
    requires ready { IsReady w.old }
    requires side { home.0 < w.old.sides }
    ensures part { (f : ℕ) → Part home result w.old w.new f f (range_error home.0 finished) }
    ensures keeps { (wanted : Sort) → KeepsBy home wanted result w.old w.new }
{
    throws(w, home, ErrorKind::RangeError)
}

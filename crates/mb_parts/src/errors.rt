// Errors that rows throw (ECMA-262, 20.5).
ghost use Rattle.std.specs.Prelude.{ℕ, []};
ghost use Rattle.mb_model.specs.Meaning.{finished};
ghost use Rattle.mb_model.specs.Writing.{fail as fail_row};
ghost use Rattle.mb_frames.specs.Passing.{Part};
ghost use Rattle.mb_parts.specs.Standing.{Acts};
ghost use Rattle.mb_world.specs.declared.cell.ErrorKind.TheVariants as ErrorKind;
ghost use Rattle.mb_frames.specs.Ready.{Keeps};
ghost use Rattle.mb_frames.specs.Sorts.{Sort};

use mb_base::Side;
use mb_frames::{Halt, Move, fail};
use mb_world::{ErrorKind, World};

/// Throws a fresh error of that side, which acts (ECMA-262, 20.5).
pub fn throws(w: &mut World, home: Side, kind: ErrorKind) -> Result<Move, Halt>
    requires { Acts w.old home }
    ensures part { (f : ℕ) → Part home result w.old w.new f f (fail_row home.0 kind finished) }
    ensures keeps { (wanted : Sort) → Keeps home wanted [] result w.old w.new }
{
    fail(w, home, kind)
}

/// Throws a fresh TypeError of that side, which acts (ECMA-262, 20.5).
pub fn type_error(w: &mut World, home: Side) -> Result<Move, Halt>
    requires { Acts w.old home }
    ensures part { (f : ℕ) → Part home result w.old w.new f f (fail_row home.0 ErrorKind.TypeError finished) }
    ensures keeps { (wanted : Sort) → Keeps home wanted [] result w.old w.new }
{
    throws(w, home, ErrorKind::TypeError)
}

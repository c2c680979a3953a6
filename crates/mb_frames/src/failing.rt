// Errors that the machine throws.
ghost use Rattle.std.specs.Prelude.{◌≡◌, ◌<◌, ℕ, Bool, [], false, length, IfOk, OnErr, OnOk};
ghost use Rattle.mb_base.specs.declared.value.Value.TheVariants as v;
ghost use Rattle.mb_world.specs.Contained.{Contained, Paired};
ghost use Rattle.mb_world.specs.Data.{obj_id};
ghost use Rattle.mb_frames.specs.declared.frame.Move.TheVariants as move;
ghost use Rattle.mb_frames.specs.declared.task.Outcome.TheVariants as o;
ghost use Rattle.mb_frames.specs.Wholeness.{KeptWorld};
ghost use Rattle.mb_model.specs.Writing.{fail as fail_row};
ghost use Rattle.mb_model.specs.Meaning.{finished};
ghost use Rattle.mb_world.specs.Ids.{HasItsIds};
ghost use Rattle.mb_frames.specs.Failing.{HasErrorPrototype, error_place};
ghost use Rattle.mb_frames.specs.Ready.{Keeps};
ghost use Rattle.mb_frames.specs.Sorts.{Sort};
ghost use Rattle.mb_frames.specs.Stepping.{Step, Written};

use crate::frame::Move;
use crate::machine::Halt;
use crate::task::Outcome;
use mb_base::{Side, Value};
use mb_world::{CellKind, ErrorKind, World};

/// Throws a fresh error object of that side (ECMA-262, 20.5).
pub fn fail(w: &mut World, home: Side, kind: ErrorKind) -> Result<Move, Halt>
    requires home { home.0 < 8 }
    requires prototype { HasErrorPrototype w.old home kind }
    requires ids { HasItsIds w.old }
    ensures step { (begun : Bool) (f : ℕ) (l : Written) →
        Step home begun result w.old w.new f f l l (fail_row home.0 kind finished) }
    ensures thrown { IfOk result (λ m. m ≡ move.Done (o.Throw (v.Object (obj_id (length w.old.cells))))) }
    ensures keeps { (wanted : Sort) → Keeps home wanted [] result w.old w.new }
    ensures kept_world { OnOk result
        (w.old.joined ≡ false → Contained w.old → Paired w.old → KeptWorld home w.old w.new) }
    ensures kept { OnErr result (w.new ≡ w.old) }
{
    match w.built_in(home, error_place(&kind)) {
        Some(prototype) => {
            let error = w.make(home, CellKind::Fault(kind), Value::Object(prototype), None)?;
            Ok(Move::Done(Outcome::Throw(Value::Object(error))))
        }
        None => unreachable!(),
    }
}

// The place of the prototype of a kind of errors.
fn error_place(kind: &ErrorKind) -> u16
    ensures { result ≡ error_place kind.now }
{
    match kind {
        ErrorKind::Error => 49,
        ErrorKind::TypeError => 50,
        ErrorKind::RangeError => 51,
        ErrorKind::ReferenceError => 52,
    }
}

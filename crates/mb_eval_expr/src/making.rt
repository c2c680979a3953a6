// Objects that literals begin with (ECMA-262, 10.1.12).
ghost use Rattle.std.specs.Prelude.{[], None, IfOk, OnOk};
ghost use Rattle.mb_frames.specs.Going.{Makes};
ghost use Rattle.mb_frames.specs.Wholeness.{IsOfKind};
ghost use Rattle.mb_model.specs.Operations.Makings.{make_plain};
ghost use Rattle.mb_world.specs.Standard.{object_prototype};
ghost use Rattle.mb_world.specs.declared.cell.CellKind.TheVariants as TheKind;
ghost use Rattle.mb_parts.specs.Standing.{Acts};
ghost use Rattle.mb_frames.specs.Keeping.{KeepsOn};
ghost use Rattle.mb_eval_expr.specs.machine.Keeping.{plain_held};

use mb_base::{ObjId, Side};
use mb_frames::{Halt, built_in};
use mb_world::{CellKind, World};

// The place of the prototype of objects.
const OBJECT_PROTOTYPE: u16 = 13;

// A new object of that side, without properties.
pub(crate) fn make_plain(w: &mut World, home: Side) -> Result<ObjId, Halt>
    requires { Acts w.old home }
    ensures makes { Makes result w.old w.new (make_plain home.0 None object_prototype) }
    ensures object { IfOk result (IsOfKind w.new home TheKind.Plain) }
    ensures acts { OnOk result (Acts w.new home) }
    ensures keeps { KeepsOn home [] plain_held result w.old w.new }
{
    let prototype = built_in(w, home, OBJECT_PROTOTYPE);
    let object = w.make(home, CellKind::Plain, prototype, None)?;
    let _texts = w.texts();
    Ok(object)
}

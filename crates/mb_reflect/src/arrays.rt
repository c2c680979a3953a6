// Rows that end with an array of values (CreateArrayFromList, ECMA-262, 7.3.18).
ghost use Rattle.std.specs.Prelude.{◌∷◌, [], ℕ};
ghost use Rattle.mb_call.specs.Ours.{Acts};
ghost use Rattle.mb_frames.specs.Held.{HeldValues};
ghost use Rattle.mb_frames.specs.Passing.{Part};
ghost use Rattle.mb_frames.specs.Ready.{KeepsBy};
ghost use Rattle.mb_frames.specs.Resolved.{values_in};
ghost use Rattle.mb_frames.specs.Sorts.{AValue};
ghost use Rattle.mb_model.specs.BuiltIns.Arguments.{array_of};
ghost use Rattle.mb_model.specs.Meaning.{finished};
ghost use Rattle.mb_world.specs.Image.{names_of};

use crate::giving::value;
use mb_base::{Side, Value};
use mb_frames::{Halt, Move};
use mb_parts::make_array;
use mb_world::World;

// The row ends with an array of these values.
pub(crate) fn array_of(w: &mut World, home: Side, items: &[Value]) -> Result<Move, Halt>
    requires acts { Acts w.old home (HeldValues items.now ∷ []) }
    ensures part { (f : ℕ) → Part home result w.old w.new f f
        (array_of home.0 (values_in (names_of w.old) items.now) finished) }
    ensures keeps { KeepsBy home AValue result w.old w.new }
{
    let array = make_array(w, home, items)?;
    Ok(value(Value::Object(array)))
}

// Methods that change their object alone (ECMA-262, 10.1.4, 10.1.6, 10.1.10, 10.4.2.1).
ghost use Rattle.std.specs.Prelude.{◌∷◌, [], ℕ, Ok};
ghost use Rattle.mb_base.specs.declared.value.Side.{Side as ASide};
ghost use Rattle.mb_frames.specs.Held.{HeldDesc, HeldKey, HeldObject};
ghost use Rattle.mb_frames.specs.Ready.{KeepsBy};
ghost use Rattle.mb_frames.specs.Sorts.{AFlag};
ghost use Rattle.mb_ordinary.specs.Objects.{IsOrdinary};
ghost use Rattle.mb_world.specs.Data.{cell_at};
ghost use Rattle.mb_world.specs.Ids.{KeyIn};
ghost use Rattle.mb_call.specs.Ours.{Acts};
ghost use Rattle.mb_call.specs.Methods.{DoesMethod, IsFree};
ghost use Rattle.mb_frames.specs.declared.task.Method.TheVariants as TheMethod;

use crate::errors::throws;
use crate::giving::yes_or_no;
use mb_array::{Defined, define_any};
use mb_base::{Key, ObjId, Side, Value};
use mb_desc::Desc;
use mb_frames::{Halt, Move};
use mb_ordinary::{delete, prevent};
use mb_world::{ErrorKind, World};

/// [[PreventExtensions]] (ECMA-262, 10.1.4), which ends in this step.
pub fn prevent_extensions(w: &mut World, object: ObjId) -> Move
    requires ordinary { IsOrdinary (cell_at w.old object) }
    ensures part { (home viewer : ASide) → Acts w.old home (HeldObject object ∷ []) → (f : ℕ) →
        DoesMethod home home viewer object TheMethod.PreventExtensions (Ok result) w.old w.new f f }
    ensures keeps { (home : ASide) → Acts w.old home (HeldObject object ∷ []) →
        KeepsBy home AFlag (Ok result) w.old w.new }
{
    yes_or_no(prevent(w, object))
}

/// [[Delete]] (ECMA-262, 10.1.10), where the policy leaves it to the object; it ends in this step.
pub fn delete_key(w: &mut World, object: ObjId, key: Key) -> Move
    requires ordinary { IsOrdinary (cell_at w.old object) }
    requires key { KeyIn w.old key }
    ensures part { (home viewer : ASide) → Acts w.old home (HeldObject object ∷ HeldKey key ∷ []) →
        IsFree w.old viewer object (TheMethod.Delete key) → (f : ℕ) →
        DoesMethod home home viewer object (TheMethod.Delete key) (Ok result) w.old w.new f f }
    ensures keeps { (home : ASide) → Acts w.old home (HeldObject object ∷ HeldKey key ∷ []) →
        KeepsBy home AFlag (Ok result) w.old w.new }
{
    let _texts = w.texts();
    let _there = w.cell(object).props.get(key);
    yes_or_no(delete(w, object, key))
}

// [[DefineOwnProperty]] (ECMA-262, 10.1.6, 10.4.2.1).
pub(crate) fn define(
    w: &mut World,
    home: Side,
    object: ObjId,
    key: Key,
    given: Desc<Value>,
) -> Result<Move, Halt>
    requires acts { Acts w.old home (HeldObject object ∷ HeldKey key ∷ HeldDesc given ∷ []) }
    requires ordinary { IsOrdinary (cell_at w.old object) }
    ensures part { (viewer : ASide) (f : ℕ) →
        DoesMethod home home viewer object (TheMethod.DefineOwnProperty key given) result w.old w.new f f }
    ensures keeps { KeepsBy home AFlag result w.old w.new }
{
    let _texts = w.texts();
    let _there = w.cell(object).props.get(key);
    let defined = define_any(w, object, key, given)?;
    let _after = w.texts();
    match defined {
        Defined::Answer(answer) => Ok(yes_or_no(answer)),
        Defined::Range => throws(w, home, ErrorKind::RangeError),
        Defined::Kind => throws(w, home, ErrorKind::TypeError),
    }
}

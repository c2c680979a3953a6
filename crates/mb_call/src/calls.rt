// Calls (ECMA-262, 10.2.1, 10.3.1).
ghost use Rattle.std.specs.Prelude.{◌≡◌, ◌∷◌, [], ℕ};
ghost use Rattle.mb_base.specs.declared.value.Side.{Side as ASide};
ghost use Rattle.mb_frames.specs.Held.{HeldObject, HeldValue, HeldValues};
ghost use Rattle.mb_frames.specs.Ready.{KeepsBy};
ghost use Rattle.mb_frames.specs.Sorts.{AValue};
ghost use Rattle.mb_ordinary.specs.Objects.{IsOrdinary};
ghost use Rattle.mb_world.specs.Data.{cell_at};
ghost use Rattle.mb_call.specs.Ours.{Acts};
ghost use Rattle.mb_call.specs.Methods.{DoesMethod};

use crate::errors::type_error;
use mb_base::{ObjId, Side, Value};
use mb_frames::{Halt, Method, Move, Task, Values};
use mb_world::{CellKind, World};

// [[Call]]: a function is entered, a built-in runs for the side that acts already.
pub(crate) fn call(
    w: &mut World,
    home: Side,
    object: ObjId,
    this: Value,
    arguments: Values,
) -> Result<Move, Halt>
    requires acts { Acts w.old home (HeldObject object ∷ HeldValue this ∷ HeldValues arguments ∷ []) }
    requires ordinary { IsOrdinary (cell_at w.old object) }
    ensures part { (viewer : ASide) (f : ℕ) →
        DoesMethod home home viewer object (Method.Call this arguments) result w.old w.new f f }
    ensures keeps { KeepsBy home AValue result w.old w.new }
{
    match w.cell(object).kind {
        CellKind::Function(_) => Ok(enter(object, this, arguments)),
        CellKind::Revoker(_) => Ok(enter(object, this, arguments)),
        CellKind::BuiltIn(place) => Ok(Move::Next(Task::Run {
            place,
            this,
            arguments,
            target: Value::Undefined,
        })),
        _ => type_error(w, home),
    }
}

fn enter(function: ObjId, this: Value, arguments: Values) -> Move
    ensures { result ≡ Move.Next (Task.Enter function this arguments) }
{
    Move::Next(Task::Enter {
        function,
        this,
        arguments,
    })
}

// indexOf and slice, which begin and end where their arguments say (ECMA-262, 23.1.3.17, 23.1.3.28).
ghost use Rattle.std.specs.Prelude.{◌≡◌, ◌∷◌, [], ℕ, IfSome, None};
ghost use Rattle.mb_arrayapi.specs.machine.Ranging.{IsNoRange, IsRange};
ghost use Rattle.mb_call.specs.Ours.{Acts};
ghost use Rattle.mb_frames.specs.Held.{HeldObject, HeldValue};
ghost use Rattle.mb_frames.specs.Passing.{Part};
ghost use Rattle.mb_frames.specs.Ready.{KeepsBy};
ghost use Rattle.mb_frames.specs.Rest.Arraying.{index_from, slice_from};
ghost use Rattle.mb_frames.specs.Sorts.{AValue};
ghost use Rattle.mb_model.specs.BuiltIns.ArrayMembers.{clamped, index_arg, slice_each};
ghost use Rattle.mb_model.specs.BuiltIns.Arrays.{fresh_array};
ghost use Rattle.mb_model.specs.Meaning.{finished};
ghost use Rattle.mb_model.specs.Writing.{◌>>=◌ as after_that, give, type_error};
ghost use Rattle.mb_world.specs.Data.{Data};
ghost use Rattle.mb_world.specs.Image.{Resolve, names_of, object_in};

use crate::errors::{range_error, type_error};
use crate::making::{LIMIT, fresh_array};
use crate::turns::{Elements, turns_from};
use mb_base::{Fuel, ObjId, Side, Value};
use mb_frames::{Halt, Move, Turn};
use mb_world::World;

// Where an index argument points: a number below 0 counts from the end; undefined stands for the other value, and
// `None` for what is no number (ECMA-262, 7.1.5).
fn index_arg(default: u64, length: u64, x: Value) -> Option<u64>
    ensures some { IfSome result (λ k. (s : ℕ) (d : Data) →
        index_arg s default length (Resolve (names_of d) x) ≡ give k) }
    ensures none { result ≡ None → (s : ℕ) (d : Data) →
        index_arg s default length (Resolve (names_of d) x) ≡ type_error s }
{
    match x {
        Value::Undefined => Some(default),
        Value::Whole(n) => Some(clamped(length, n)),
        _ => None,
    }
}

// A number below 0 counts from the end.
fn clamped(length: u64, n: i64) -> u64
    ensures { result ≡ clamped length n }
{
    if n < 0 {
        length.saturating_sub(n.unsigned_abs())
    } else {
        length.min(n as u64)
    }
}

// indexOf has the length.
pub(crate) fn index_of(
    w: &mut World,
    fuel: &mut Fuel,
    home: Side,
    object: ObjId,
    value: Value,
    from: Value,
    length: u64,
) -> Result<Move, Halt>
    requires acts { Acts w.old home (HeldObject object ∷ HeldValue value ∷ HeldValue from ∷ []) }
    ensures part { Part home result w.old w.new fuel.old fuel.new (index_from home.0
        (object_in (names_of w.old) object) (Resolve (names_of w.old) value) (Resolve (names_of w.old) from) length
        finished) }
    ensures keeps { KeepsBy home AValue result w.old w.new }
{
    match index_arg(0, length, from) {
        Some(place) => {
            let turn = Turn::IndexOf { value };
            let left = length.saturating_sub(place);
            turns_from(
                w,
                fuel,
                home,
                Elements {
                    object,
                    place,
                    left,
                    turn,
                },
            )
        }
        None => type_error(w, home),
    }
}

// slice has the length.
pub(crate) fn slice(
    w: &mut World,
    fuel: &mut Fuel,
    home: Side,
    object: ObjId,
    from: Value,
    to: Value,
    length: u64,
) -> Result<Move, Halt>
    requires acts { Acts w.old home (HeldObject object ∷ HeldValue from ∷ HeldValue to ∷ []) }
    ensures part { Part home result w.old w.new fuel.old fuel.new (slice_from home.0
        (object_in (names_of w.old) object) (Resolve (names_of w.old) from) (Resolve (names_of w.old) to) length
        finished) }
    ensures keeps { KeepsBy home AValue result w.old w.new }
{
    match bounds(length, from, to) {
        Some((from, to)) => sliced(w, fuel, home, object, from, to.saturating_sub(from)),
        None => type_error(w, home),
    }
}

// Where a slice begins and ends; `None` where one of the two is no number.
fn bounds(length: u64, from: Value, to: Value) -> Option<(u64, u64)>
    ensures some { IfSome result (IsRange length from to) }
    ensures none { result ≡ None → IsNoRange length from to }
{
    let from = index_arg(0, length, from)?;
    let to = index_arg(length, length, to)?;
    Some((from, to))
}

// The elements of a slice, behind those before it: its array is made before the loop.
fn sliced(
    w: &mut World,
    fuel: &mut Fuel,
    home: Side,
    object: ObjId,
    from: u64,
    left: u64,
) -> Result<Move, Halt>
    requires acts { Acts w.old home (HeldObject object ∷ []) }
    ensures part { Part home result w.old w.new fuel.old fuel.new (after_that (fresh_array home.0 left)
        (λ a. slice_each home.0 (object_in (names_of w.old) object) a left from 0) finished) }
    ensures keeps { KeepsBy home AValue result w.old w.new }
{
    if left > LIMIT {
        return range_error(w, home);
    }
    let array = fresh_array(w, home, left as u32)?;
    let turn = Turn::Slice { array, from };
    turns_from(
        w,
        fuel,
        home,
        Elements {
            object,
            place: 0,
            left,
            turn,
        },
    )
}

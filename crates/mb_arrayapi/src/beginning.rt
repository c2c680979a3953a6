// The members of Array.prototype begin once they have the length (ECMA-262, 23.1.3).
ghost use Rattle.std.specs.Prelude.{◌≡◌, ◌∷◌, [], ℕ};
ghost use Rattle.mb_call.specs.Ours.{Acts};
ghost use Rattle.mb_frames.specs.Held.{HeldObject, HeldValue};
ghost use Rattle.mb_frames.specs.Holding.{member_held, value_if};
ghost use Rattle.mb_frames.specs.Passing.{Part};
ghost use Rattle.mb_frames.specs.Ready.{KeepsBy};
ghost use Rattle.mb_frames.specs.Rest.Arraying.{filter_from, for_each_from, map_from, member_from, reduce_from};
ghost use Rattle.mb_frames.specs.Sorts.{AValue};
ghost use Rattle.mb_model.specs.Meaning.{finished};
ghost use Rattle.mb_model.specs.Operations.Calls.{length_from, not_below_zero};
ghost use Rattle.mb_model.specs.Writing.{◌>>=◌ as after_that};
ghost use Rattle.mb_world.specs.Image.{Resolve, names_of, object_in};
ghost use Rattle.std.specs.Prelude.{option_map};

use crate::calling::can_call;
use crate::errors::{range_error, type_error};
use crate::joining::join;
use crate::making::{LIMIT, fresh_array};
use crate::popping::pop;
use crate::pushing::push;
use crate::ranges::{index_of, slice};
use crate::turns::{Elements, turns_from};
use mb_base::{Fuel, ObjId, Side, Value};
use mb_frames::{Callback, Halt, Member, Move, Turn};
use mb_world::World;

// The length of a member's `this` was got.
pub(crate) fn length_got(
    w: &mut World,
    fuel: &mut Fuel,
    home: Side,
    object: ObjId,
    member: Member,
    length: Value,
) -> Result<Move, Halt>
    requires acts { Acts w.old home (HeldValue length ∷ HeldObject object ∷ member_held member) }
    ensures part { Part home result w.old w.new fuel.old fuel.new (after_that
        (length_from home.0 (Resolve (names_of w.old) length))
        (member_from (names_of w.old) home.0 (object_in (names_of w.old) object) member) finished) }
    ensures keeps { KeepsBy home AValue result w.old w.new }
{
    match length {
        Value::Undefined => begin(w, fuel, home, object, member, 0),
        Value::Whole(n) => begin(w, fuel, home, object, member, not_below_zero(n)),
        _ => type_error(w, home),
    }
}

// A number below 0 counts as 0.
fn not_below_zero(n: i64) -> u64
    ensures { result ≡ not_below_zero n }
{
    if n < 0 { 0 } else { n as u64 }
}

// A member has the length.
fn begin(
    w: &mut World,
    fuel: &mut Fuel,
    home: Side,
    object: ObjId,
    member: Member,
    length: u64,
) -> Result<Move, Halt>
    requires acts { Acts w.old home (HeldObject object ∷ member_held member) }
    ensures part { Part home result w.old w.new fuel.old fuel.new
        (member_from (names_of w.old) home.0 (object_in (names_of w.old) object) member length finished) }
    ensures keeps { KeepsBy home AValue result w.old w.new }
{
    match member {
        Member::Push { arguments } => push(w, fuel, home, object, arguments, length),
        Member::Pop => pop(w, home, object, length),
        Member::ForEach { function, this } => for_each(
            w, fuel, home, object, function, this, length,
        ),
        Member::Map { function, this } => map(w, fuel, home, object, function, this, length),
        Member::Filter { function, this } => filter(w, fuel, home, object, function, this, length),
        Member::Reduce { function, first } => reduce(
            w, fuel, home, object, function, first, length,
        ),
        Member::IndexOf { value, from } => index_of(w, fuel, home, object, value, from, length),
        Member::Slice { from, to } => slice(w, fuel, home, object, from, to, length),
        Member::Join { separator } => join(w, fuel, home, object, separator, length),
    }
}

// forEach (ECMA-262, 23.1.3.15).
fn for_each(
    w: &mut World,
    fuel: &mut Fuel,
    home: Side,
    object: ObjId,
    function: Value,
    this: Value,
    length: u64,
) -> Result<Move, Halt>
    requires acts { Acts w.old home (HeldObject object ∷ HeldValue function ∷ HeldValue this ∷ []) }
    ensures part { Part home result w.old w.new fuel.old fuel.new (for_each_from home.0
        (object_in (names_of w.old) object) (Resolve (names_of w.old) function) (Resolve (names_of w.old) this) length
        finished) }
    ensures keeps { KeepsBy home AValue result w.old w.new }
{
    if !can_call(w, home, function) {
        return type_error(w, home);
    }
    let turn = Turn::Call(Callback::ForEach { function, this });
    turns_from(w, fuel, home, all_of(object, length, turn))
}

// All elements of an object.
fn all_of(object: ObjId, length: u64, turn: Turn) -> Elements
    ensures { result ≡ record { object = object; place = 0; left = length; turn = turn } }
{
    Elements {
        object,
        place: 0,
        left: length,
        turn,
    }
}

// map (ECMA-262, 23.1.3.21): its array is made before the loop.
fn map(
    w: &mut World,
    fuel: &mut Fuel,
    home: Side,
    object: ObjId,
    function: Value,
    this: Value,
    length: u64,
) -> Result<Move, Halt>
    requires acts { Acts w.old home (HeldObject object ∷ HeldValue function ∷ HeldValue this ∷ []) }
    ensures part { Part home result w.old w.new fuel.old fuel.new (map_from home.0
        (object_in (names_of w.old) object) (Resolve (names_of w.old) function) (Resolve (names_of w.old) this) length
        finished) }
    ensures keeps { KeepsBy home AValue result w.old w.new }
{
    if !can_call(w, home, function) {
        return type_error(w, home);
    }
    if length > LIMIT {
        return range_error(w, home);
    }
    let array = fresh_array(w, home, length as u32)?;
    let turn = Turn::Call(Callback::Map {
        function,
        this,
        array,
    });
    turns_from(w, fuel, home, all_of(object, length, turn))
}

// filter (ECMA-262, 23.1.3.8): its array is made before the loop.
fn filter(
    w: &mut World,
    fuel: &mut Fuel,
    home: Side,
    object: ObjId,
    function: Value,
    this: Value,
    length: u64,
) -> Result<Move, Halt>
    requires acts { Acts w.old home (HeldObject object ∷ HeldValue function ∷ HeldValue this ∷ []) }
    ensures part { Part home result w.old w.new fuel.old fuel.new (filter_from home.0
        (object_in (names_of w.old) object) (Resolve (names_of w.old) function) (Resolve (names_of w.old) this) length
        finished) }
    ensures keeps { KeepsBy home AValue result w.old w.new }
{
    if !can_call(w, home, function) {
        return type_error(w, home);
    }
    let array = fresh_array(w, home, 0)?;
    let turn = Turn::Call(Callback::Filter {
        function,
        this,
        array,
        count: 0,
    });
    turns_from(w, fuel, home, all_of(object, length, turn))
}

// reduce (ECMA-262, 23.1.3.24).
fn reduce(
    w: &mut World,
    fuel: &mut Fuel,
    home: Side,
    object: ObjId,
    function: Value,
    first: Option<Value>,
    length: u64,
) -> Result<Move, Halt>
    requires acts { Acts w.old home (HeldObject object ∷ HeldValue function ∷ value_if first) }
    ensures part { Part home result w.old w.new fuel.old fuel.new (reduce_from home.0
        (object_in (names_of w.old) object) (Resolve (names_of w.old) function)
        (option_map (Resolve (names_of w.old)) first) length finished) }
    ensures keeps { KeepsBy home AValue result w.old w.new }
{
    if !can_call(w, home, function) {
        return type_error(w, home);
    }
    let turn = Turn::Call(Callback::Reduce {
        function,
        so_far: first,
    });
    turns_from(w, fuel, home, all_of(object, length, turn))
}

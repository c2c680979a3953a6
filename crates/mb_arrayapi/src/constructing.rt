// Array and Array.isArray (ECMA-262, 23.1.1.1, 23.1.2.2).
ghost use Rattle.std.specs.Prelude.{◌≡◌, ◌∷◌, [], ℕ, IfSome, None};
ghost use Rattle.mb_arrayapi.specs.machine.Constructing.{IsFilled, IsLength, IsLengthIn, array_place};
ghost use Rattle.mb_base.specs.declared.value.Value.TheVariants as v;
ghost use Rattle.mb_call.specs.Ours.{Acts};
ghost use Rattle.mb_frames.specs.Held.{HeldObject, HeldPrototype, HeldValue, HeldValues};
ghost use Rattle.mb_frames.specs.Passing.{Part};
ghost use Rattle.mb_frames.specs.Ready.{KeepsBy};
ghost use Rattle.mb_frames.specs.Resolved.{values_in};
ghost use Rattle.mb_frames.specs.Sorts.{AValue, AnObject, run_gives};
ghost use Rattle.mb_model.specs.BuiltIns.Arguments.{prototype_or};
ghost use Rattle.mb_model.specs.BuiltIns.Arrays.{array_fn, array_from, is_array_row};
ghost use Rattle.mb_model.specs.Meaning.{finished};
ghost use Rattle.mb_world.specs.Ids.{ObjIn};
ghost use Rattle.mb_world.specs.Image.{Resolve, names_of, object_in};
ghost use Rattle.mb_world.specs.Standard.{array_prototype};
ghost use Rattle.mb_world.specs.Value.{BuiltIn, same_value};
ghost use Rattle.std.specs.Prelude.{true};

use crate::errors::{range_error, type_error};
use crate::giving::{value, waits};
use crate::keys::prototype_key;
use crate::making::{make_array, make_filled};
use crate::places::{ARRAY, ARRAY_PROTOTYPE};
use mb_base::{ObjId, Side, Value};
use mb_call::is_array;
use mb_frames::{ArrayFrame, Halt, Method, Move, Values, built_in};
use mb_world::{CellKind, World};

// The greatest length of an array.
const LONGEST: i64 = 4294967295;

// Array: another new target's `prototype` is got first (ECMA-262, 10.1.14). A new target is an object; no step begins
// it with another value.
pub(crate) fn array_row(
    w: &mut World,
    home: Side,
    arguments: Values,
    target: Value,
) -> Result<Move, Halt>
    requires acts { Acts w.old home (HeldValues arguments ∷ HeldValue target ∷ []) }
    ensures part { (f : ℕ) → Part home result w.old w.new f f (array_fn home.0
        (values_in (names_of w.old) arguments) (BuiltIn array_place) (Resolve (names_of w.old) target) finished) }
    ensures keeps { KeepsBy home (run_gives target true) result w.old w.new }
{
    match target {
        Value::Undefined => array_made(w, home, &arguments),
        Value::Object(asked) => asked_row(w, home, arguments, asked),
        _ => Err(Halt::NoMemory),
    }
}

// A new target that is no `Array` is asked for its `prototype`.
fn asked_row(w: &mut World, home: Side, arguments: Values, asked: ObjId) -> Result<Move, Halt>
    requires acts { Acts w.old home (HeldValues arguments ∷ HeldObject asked ∷ []) }
    ensures part { (f : ℕ) → Part home result w.old w.new f f (array_fn home.0
        (values_in (names_of w.old) arguments) (BuiltIn array_place) (object_in (names_of w.old) asked) finished) }
    ensures keeps { KeepsBy home AnObject result w.old w.new }
{
    let own = is_array_function(w, asked);
    if own {
        return array_made(w, home, &arguments);
    }
    let key = prototype_key(w)?;
    let receiver = Value::Object(asked);
    Ok(waits(
        home,
        ArrayFrame::Prototype { arguments },
        Method::Get { key, receiver },
        asked,
    ))
}

// Whether it is the built-in `Array`.
fn is_array_function(w: &World, id: ObjId) -> bool
    requires { ObjIn w.now id }
    ensures { result ≡ same_value (BuiltIn array_place) (object_in (names_of w.now) id) }
{
    matches!(w.cell(id).kind, CellKind::BuiltIn(ARRAY))
}

// An array with the prototype of arrays.
fn array_made(w: &mut World, home: Side, arguments: &Values) -> Result<Move, Halt>
    requires acts { Acts w.old home (HeldValues arguments.now ∷ []) }
    ensures part { (f : ℕ) → Part home result w.old w.new f f
        (array_from home.0 (values_in (names_of w.old) arguments.now) array_prototype finished) }
    ensures keeps { KeepsBy home AnObject result w.old w.new }
{
    let prototype = built_in(w, home, ARRAY_PROTOTYPE);
    array_from(w, home, arguments, prototype)
}

// The `prototype` of the new target was got: if it is no object, that of arrays is taken.
pub(crate) fn prototype_got(
    w: &mut World,
    home: Side,
    arguments: &Values,
    got: Value,
) -> Result<Move, Halt>
    requires acts { Acts w.old home (HeldValue got ∷ HeldValues arguments.now ∷ []) }
    ensures part { (f : ℕ) → Part home result w.old w.new f f (array_from home.0
        (values_in (names_of w.old) arguments.now) (prototype_or array_prototype (Resolve (names_of w.old) got))
        finished) }
    ensures keeps { KeepsBy home AnObject result w.old w.new }
{
    match got {
        Value::Object(object) => array_from(w, home, arguments, Value::Object(object)),
        _ => array_made(w, home, arguments),
    }
}

// The array of the arguments: one whole number alone is its length.
fn array_from(w: &mut World, home: Side, arguments: &Values, prototype: Value) -> Result<Move, Halt>
    requires acts { Acts w.old home (HeldValues arguments.now ∷ HeldPrototype prototype ∷ []) }
    ensures part { (f : ℕ) → Part home result w.old w.new f f (array_from home.0
        (values_in (names_of w.old) arguments.now) (Resolve (names_of w.old) prototype) finished) }
    ensures keeps { KeepsBy home AnObject result w.old w.new }
{
    match array_length(arguments) {
        Some(Some(length)) => {
            let array = make_array(w, home, prototype, length)?;
            Ok(value(Value::Object(array)))
        }
        Some(None) => range_error(w, home),
        None => {
            let filled = make_filled(w, home, prototype, arguments)?;
            Ok(value(Value::Object(filled)))
        }
    }
}

// The length that the arguments give, if they are a number alone: `Some(None)` where no array is so long.
fn array_length(arguments: &Values) -> Option<Option<u32>>
    ensures { IsLengthIn result arguments.now }
{
    match length_in(arguments) {
        Some(n) => Some(as_length(n)),
        None => None,
    }
}

// The number as the length of an array.
fn as_length(n: i64) -> Option<u32>
    ensures { IsLength result n }
{
    if n < 0 {
        return None;
    }
    if n > LONGEST {
        return None;
    }
    Some(n as u32)
}

// The whole number that is the only argument, if it is one.
fn length_in(arguments: &Values) -> Option<i64>
    ensures some { IfSome result (λ z. arguments.now ≡ v.Whole z ∷ []) }
    ensures none { result ≡ None → IsFilled arguments.now }
{
    match arguments.items() {
        [Value::Whole(length)] => Some(*length),
        _ => None,
    }
}

// Array.isArray.
pub(crate) fn is_array_row(w: &mut World, home: Side, x: Value) -> Result<Move, Halt>
    requires acts { Acts w.old home (HeldValue x ∷ []) }
    ensures part { (f : ℕ) → Part home result w.old w.new f f
        (is_array_row home.0 (Resolve (names_of w.old) x) finished) }
    ensures keeps { KeepsBy home AValue result w.old w.new }
{
    match is_array(w, home, x) {
        Some(b) => Ok(value(Value::Bool(b))),
        None => type_error(w, home),
    }
}

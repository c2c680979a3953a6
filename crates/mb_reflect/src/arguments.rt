// What was passed to a built-in.
ghost use Rattle.std.specs.Prelude.{◌≡◌, ◌||◌, IfOk, drop, true};
ghost use Rattle.mb_reflect.specs.machine.Arguments.{passed, passed_or};
ghost use Rattle.mb_world.specs.Formed.{IsNullOrObject};
ghost use Rattle.mb_world.specs.Image.{Names, Resolve};
ghost use Rattle.mb_world.specs.Value.{is_null, is_nullish, is_object};

use mb_base::{NoMemory, Value};
use mb_frames::Values;
use std::alloc::Global;

// The argument at a place, or undefined.
pub(crate) fn argument(arguments: &Values, place: usize) -> Value
    ensures { result ≡ passed arguments.now place }
{
    argument_or(arguments, place, Value::Undefined)
}

// The argument at a place, or another value where not so many were passed.
pub(crate) fn argument_or(arguments: &Values, place: usize, x: Value) -> Value
    ensures { result ≡ passed_or arguments.now place x }
{
    match arguments.at(place) {
        Some(given) => given,
        None => x,
    }
}

// The arguments but for the first.
pub(crate) fn after_first(alloc: Global, arguments: &Values) -> Result<Values, NoMemory>
    ensures { IfOk result (λ rest. rest ≡ drop 1 arguments.now) }
{
    if arguments.len() == 0 {
        return Ok(Values::new(alloc));
    }
    let rest = arguments.items()[1..].to_vec(alloc)?;
    Ok(Values::from(rest))
}

// Whether a value is null or an object.
pub(crate) fn may_be_prototype(x: Value) -> bool
    ensures may { (n : Names) → result ≡ (is_object (Resolve n x) || is_null (Resolve n x)) }
    ensures prototype { result ≡ true → IsNullOrObject x }
{
    matches!(x, Value::Object(_) | Value::Null)
}

// Whether a value is undefined or null.
pub(crate) fn is_nullish(x: Value) -> bool
    ensures { (n : Names) → result ≡ is_nullish (Resolve n x) }
{
    matches!(x, Value::Undefined | Value::Null)
}

// Calls and constructions of what was passed (ECMA-262, 20.2.3, 28.1.1, 28.1.2).
ghost use Rattle.std.specs.Prelude.{◌∷◌, [], ℕ};
ghost use Rattle.mb_call.specs.Ours.{Acts};
ghost use Rattle.mb_frames.specs.Held.{HeldValue, HeldValues};
ghost use Rattle.mb_frames.specs.Passing.{Part};
ghost use Rattle.mb_frames.specs.Ready.{KeepsBy};
ghost use Rattle.mb_frames.specs.Resolved.{values_in};
ghost use Rattle.mb_frames.specs.Sorts.{AValue};
ghost use Rattle.mb_model.specs.BuiltIns.ErrorsAndFunctions.{function_call};
ghost use Rattle.mb_model.specs.Meaning.{finished};
ghost use Rattle.mb_reflect.specs.machine.Running.{apply_row, construct_row, function_apply_row};
ghost use Rattle.mb_world.specs.Image.{Resolve, names_of};

use crate::arguments::{after_first, argument, is_nullish};
use crate::errors::type_error;
use crate::giving::performs;
use mb_base::{Side, Value};
use mb_call::list_of;
use mb_frames::{AfterList, Halt, Method, Move, Values};
use mb_parts::{callable, constructor};
use mb_world::World;

// Function.prototype.call (ECMA-262, 20.2.3.3).
pub(crate) fn function_call(
    w: &mut World,
    home: Side,
    function: Value,
    arguments: &Values,
) -> Result<Move, Halt>
    requires acts { Acts w.old home (HeldValue function ∷ HeldValues arguments.now ∷ []) }
    ensures part { (f : ℕ) → Part home result w.old w.new f f (function_call home.0
        (Resolve (names_of w.old) function) (values_in (names_of w.old) arguments.now) finished) }
    ensures keeps { KeepsBy home AValue result w.old w.new }
{
    match callable(w, function) {
        Some(object) => {
            let this = argument(arguments, 0);
            let alloc = *w.trace().allocator();
            let arguments = after_first(alloc, arguments)?;
            Ok(performs(home, Method::Call { this, arguments }, object))
        }
        None => type_error(w, home),
    }
}

// Function.prototype.apply (ECMA-262, 20.2.3.1).
pub(crate) fn function_apply(
    w: &mut World,
    home: Side,
    function: Value,
    this: Value,
    list: Value,
) -> Result<Move, Halt>
    requires acts { Acts w.old home (HeldValue function ∷ HeldValue this ∷ HeldValue list ∷ []) }
    ensures part { (f : ℕ) → Part home result w.old w.new f f (function_apply_row home.0
        (Resolve (names_of w.old) function) (Resolve (names_of w.old) this) (Resolve (names_of w.old) list)
        finished) }
    ensures keeps { KeepsBy home AValue result w.old w.new }
{
    match callable(w, function) {
        Some(object) => {
            if is_nullish(list) {
                let arguments = Values::new(*w.trace().allocator());
                return Ok(performs(home, Method::Call { this, arguments }, object));
            }
            list_of(w, home, list, AfterList::Apply { function, this })
        }
        None => type_error(w, home),
    }
}

// Reflect.apply (ECMA-262, 28.1.1).
pub(crate) fn reflect_apply(
    w: &mut World,
    home: Side,
    function: Value,
    this: Value,
    list: Value,
) -> Result<Move, Halt>
    requires acts { Acts w.old home (HeldValue function ∷ HeldValue this ∷ HeldValue list ∷ []) }
    ensures part { (f : ℕ) → Part home result w.old w.new f f (apply_row home.0
        (Resolve (names_of w.old) function) (Resolve (names_of w.old) this) (Resolve (names_of w.old) list)
        finished) }
    ensures keeps { KeepsBy home AValue result w.old w.new }
{
    match callable(w, function) {
        Some(_) => list_of(w, home, list, AfterList::Apply { function, this }),
        None => type_error(w, home),
    }
}

// Reflect.construct (ECMA-262, 28.1.2).
pub(crate) fn reflect_construct(
    w: &mut World,
    home: Side,
    function: Value,
    list: Value,
    target: Value,
) -> Result<Move, Halt>
    requires acts { Acts w.old home (HeldValue function ∷ HeldValue list ∷ HeldValue target ∷ []) }
    ensures part { (f : ℕ) → Part home result w.old w.new f f (construct_row home.0
        (Resolve (names_of w.old) function) (Resolve (names_of w.old) list) (Resolve (names_of w.old) target)
        finished) }
    ensures keeps { KeepsBy home AValue result w.old w.new }
{
    match constructor(w, function) {
        Some(object) => match constructor(w, target) {
            Some(_) => list_of(
                w,
                home,
                list,
                AfterList::Construct {
                    function: object,
                    target,
                },
            ),
            None => type_error(w, home),
        },
        None => type_error(w, home),
    }
}

// The row of a built-in by its place.
ghost use Rattle.std.specs.Prelude.{◌≡◌, ◌∷◌, [], ℕ, false, true};
ghost use Rattle.mb_call.specs.Ours.{Acts};
ghost use Rattle.mb_frames.specs.Held.{HeldValue, HeldValues};
ghost use Rattle.mb_frames.specs.Passing.{Part};
ghost use Rattle.mb_frames.specs.Ready.{KeepsBy};
ghost use Rattle.mb_frames.specs.Resolved.{values_in};
ghost use Rattle.mb_frames.specs.Sorts.{run_gives};
ghost use Rattle.mb_model.specs.BuiltIns.{run_row};
ghost use Rattle.mb_model.specs.Meaning.{finished};
ghost use Rattle.mb_reflect.specs.Ours.{is_of_object, is_of_reflect, is_reflecting};
ghost use Rattle.mb_world.specs.Image.{Resolve, names_of};
ghost use Rattle.mb_world.specs.Intrinsics.{intrinsic};
ghost use Rattle.mb_world.specs.Objects.{intrinsic_is};
ghost use Rattle.mb_world.specs.Standard.{constructs};

use crate::arguments::{argument, argument_or};
use crate::asking::{Asked, ask, object_set_prototype, reflect_set_prototype};
use crate::failures::error;
use crate::freezing::is_frozen;
use crate::functions::{function_apply, function_call, reflect_apply, reflect_construct};
use crate::giving::value;
use crate::keyed::{Keyed, ask_with_key};
use crate::objects::{create, object};
use crate::places::{
    ERROR, FUNCTION_PROTOTYPE_APPLY, FUNCTION_PROTOTYPE_CALL, OBJECT, OBJECT_CREATE,
    OBJECT_DEFINE_PROPERTY, OBJECT_FREEZE, OBJECT_GET_OWN_PROPERTY_DESCRIPTOR,
    OBJECT_GET_OWN_PROPERTY_SYMBOLS, OBJECT_GET_PROTOTYPE_OF, OBJECT_IS_FROZEN, OBJECT_KEYS,
    OBJECT_PROTOTYPE_HAS_OWN_PROPERTY, OBJECT_SEAL, OBJECT_SET_PROTOTYPE_OF, RANGE_ERROR,
    REFERENCE_ERROR, REFLECT_APPLY, REFLECT_CONSTRUCT, REFLECT_DEFINE_PROPERTY,
    REFLECT_DELETE_PROPERTY, REFLECT_GET, REFLECT_GET_OWN_PROPERTY_DESCRIPTOR,
    REFLECT_GET_PROTOTYPE_OF, REFLECT_HAS, REFLECT_IS_EXTENSIBLE, REFLECT_OWN_KEYS,
    REFLECT_PREVENT_EXTENSIONS, REFLECT_SET, REFLECT_SET_PROTOTYPE_OF, TYPE_ERROR,
};
use crate::settling::settle;
use mb_base::{Side, Value};
use mb_frames::{Halt, Move, Values};
use mb_world::{ErrorKind, World};

// The row of a built-in: of Object and its members here.
pub(crate) fn run(
    w: &mut World,
    home: Side,
    place: u16,
    this: Value,
    arguments: &Values,
    target: Value,
) -> Result<Move, Halt>
    requires acts { Acts w.old home (HeldValue this ∷ HeldValues arguments.now ∷ HeldValue target ∷ []) }
    requires ours { is_reflecting (intrinsic place) ≡ true }
    ensures part { (f : ℕ) → Part home result w.old w.new f f (run_row home.0 place (Resolve (names_of w.old) this)
        (values_in (names_of w.old) arguments.now) (Resolve (names_of w.old) target) finished) }
    ensures keeps { KeepsBy home (run_gives target (intrinsic_is constructs (intrinsic place))) result w.old w.new }
{
    let first = argument(arguments, 0);
    let second = argument(arguments, 1);
    match place {
        OBJECT => object(w, home, target, first),
        OBJECT_PROTOTYPE_HAS_OWN_PROPERTY => ask_with_key(w, home, Keyed::HasOwn, this, first),
        OBJECT_CREATE => create(w, home, first, second),
        OBJECT_KEYS => ask(w, home, Asked::Keys, first),
        OBJECT_FREEZE => Ok(settle(home, true, first)),
        OBJECT_IS_FROZEN => Ok(is_frozen(home, first)),
        OBJECT_SEAL => Ok(settle(home, false, first)),
        OBJECT_GET_PROTOTYPE_OF => ask(w, home, Asked::Prototype, first),
        OBJECT_SET_PROTOTYPE_OF => object_set_prototype(w, home, first, second),
        OBJECT_DEFINE_PROPERTY => {
            let attributes = argument(arguments, 2);
            ask_with_key(w, home, Keyed::ObjectDefine(attributes), first, second)
        }
        OBJECT_GET_OWN_PROPERTY_DESCRIPTOR => {
            ask_with_key(w, home, Keyed::Describe, first, second)
        }
        OBJECT_GET_OWN_PROPERTY_SYMBOLS => ask(w, home, Asked::Symbols, first),
        _ => run_reflect(w, home, place, this, arguments, target),
    }
}

// The row of a member of Reflect.
fn run_reflect(
    w: &mut World,
    home: Side,
    place: u16,
    this: Value,
    arguments: &Values,
    target: Value,
) -> Result<Move, Halt>
    requires acts { Acts w.old home (HeldValue this ∷ HeldValues arguments.now ∷ HeldValue target ∷ []) }
    requires ours { is_reflecting (intrinsic place) ≡ true }
    requires object { is_of_object (intrinsic place) ≡ false }
    ensures part { (f : ℕ) → Part home result w.old w.new f f (run_row home.0 place (Resolve (names_of w.old) this)
        (values_in (names_of w.old) arguments.now) (Resolve (names_of w.old) target) finished) }
    ensures keeps { KeepsBy home (run_gives target (intrinsic_is constructs (intrinsic place))) result w.old w.new }
{
    let first = argument(arguments, 0);
    let second = argument(arguments, 1);
    let third = argument(arguments, 2);
    match place {
        REFLECT_APPLY => reflect_apply(w, home, first, second, third),
        REFLECT_CONSTRUCT => {
            let other = argument_or(arguments, 2, first);
            reflect_construct(w, home, first, second, other)
        }
        REFLECT_DEFINE_PROPERTY => {
            ask_with_key(w, home, Keyed::ReflectDefine(third), first, second)
        }
        REFLECT_DELETE_PROPERTY => ask_with_key(w, home, Keyed::Delete, first, second),
        REFLECT_GET => {
            let receiver = argument_or(arguments, 2, first);
            ask_with_key(w, home, Keyed::Get(receiver), first, second)
        }
        REFLECT_GET_OWN_PROPERTY_DESCRIPTOR => {
            ask_with_key(w, home, Keyed::Describe, first, second)
        }
        REFLECT_GET_PROTOTYPE_OF => ask(w, home, Asked::Prototype, first),
        REFLECT_HAS => ask_with_key(w, home, Keyed::Has, first, second),
        REFLECT_IS_EXTENSIBLE => ask(w, home, Asked::Extensible, first),
        REFLECT_OWN_KEYS => ask(w, home, Asked::OwnKeys, first),
        REFLECT_PREVENT_EXTENSIONS => ask(w, home, Asked::Prevent, first),
        REFLECT_SET => {
            let value = third;
            let receiver = argument_or(arguments, 3, first);
            ask_with_key(w, home, Keyed::Set { value, receiver }, first, second)
        }
        REFLECT_SET_PROTOTYPE_OF => reflect_set_prototype(w, home, first, second),
        _ => run_function(w, home, place, this, arguments, target),
    }
}

// The row of an error constructor, or of a member of Function.prototype; what nothing calls gives undefined.
fn run_function(
    w: &mut World,
    home: Side,
    place: u16,
    this: Value,
    arguments: &Values,
    target: Value,
) -> Result<Move, Halt>
    requires acts { Acts w.old home (HeldValue this ∷ HeldValues arguments.now ∷ HeldValue target ∷ []) }
    requires ours { is_reflecting (intrinsic place) ≡ true }
    requires object { is_of_object (intrinsic place) ≡ false }
    requires reflect { is_of_reflect (intrinsic place) ≡ false }
    ensures part { (f : ℕ) → Part home result w.old w.new f f (run_row home.0 place (Resolve (names_of w.old) this)
        (values_in (names_of w.old) arguments.now) (Resolve (names_of w.old) target) finished) }
    ensures keeps { KeepsBy home (run_gives target (intrinsic_is constructs (intrinsic place))) result w.old w.new }
{
    let first = argument(arguments, 0);
    match place {
        ERROR => error(w, home, ErrorKind::Error, ERROR, target, first),
        TYPE_ERROR => error(w, home, ErrorKind::TypeError, TYPE_ERROR, target, first),
        RANGE_ERROR => error(w, home, ErrorKind::RangeError, RANGE_ERROR, target, first),
        REFERENCE_ERROR => {
            error(
                w,
                home,
                ErrorKind::ReferenceError,
                REFERENCE_ERROR,
                target,
                first,
            )
        }
        FUNCTION_PROTOTYPE_CALL => function_call(w, home, this, arguments),
        FUNCTION_PROTOTYPE_APPLY => {
            let list = argument(arguments, 1);
            function_apply(w, home, this, first, list)
        }
        _ => Ok(value(Value::Undefined)),
    }
}

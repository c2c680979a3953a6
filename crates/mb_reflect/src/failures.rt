// Error constructors (ECMA-262, 20.5).
ghost use Rattle.std.specs.Prelude.{◌≡◌, ◌∷◌, [], ℕ, true};
ghost use Rattle.mb_call.specs.Ours.{Acts};
ghost use Rattle.mb_frames.specs.Failing.{error_place};
ghost use Rattle.mb_frames.specs.Held.{HeldObject, HeldPrototype, HeldValue};
ghost use Rattle.mb_frames.specs.Passing.{Part};
ghost use Rattle.mb_frames.specs.Ready.{KeepsBy};
ghost use Rattle.mb_frames.specs.Sorts.{AnObject, Sort, fits};
ghost use Rattle.mb_model.specs.BuiltIns.Arguments.{prototype_or};
ghost use Rattle.mb_model.specs.BuiltIns.ErrorsAndFunctions.{error_fn, error_made, with_message};
ghost use Rattle.mb_model.specs.Meaning.{finished};
ghost use Rattle.mb_reflect.specs.machine.Failing.{IsBare};
ghost use Rattle.mb_world.specs.Image.{Resolve, names_of, object_in};
ghost use Rattle.mb_world.specs.Standard.{error_prototype};
ghost use Rattle.mb_world.specs.Value.{BuiltIn};

use crate::errors::type_error;
use crate::giving::value;
use crate::places::{
    ERROR_PROTOTYPE, RANGE_ERROR_PROTOTYPE, REFERENCE_ERROR_PROTOTYPE, TYPE_ERROR_PROTOTYPE,
};
use crate::targets::{ask_prototype, other_target, prototype_or};
use mb_base::{ObjId, Side, Value};
use mb_desc::Full;
use mb_frames::{Halt, Move, ReflectFrame, built_in, put};
use mb_parts::text_from;
use mb_world::{CellKind, ErrorKind, World};

// The units of the text `message`.
const MESSAGE: [u16; 7] = [109, 101, 115, 115, 97, 103, 101];

// The place of the prototype of a kind of errors.
fn error_place(kind: ErrorKind) -> u16
    ensures { result ≡ error_place kind }
{
    match kind {
        ErrorKind::Error => ERROR_PROTOTYPE,
        ErrorKind::TypeError => TYPE_ERROR_PROTOTYPE,
        ErrorKind::RangeError => RANGE_ERROR_PROTOTYPE,
        ErrorKind::ReferenceError => REFERENCE_ERROR_PROTOTYPE,
    }
}

// The constructor of that kind at its place, called or constructed.
pub(crate) fn error(
    w: &mut World,
    home: Side,
    kind: ErrorKind,
    place: u16,
    target: Value,
    message: Value,
) -> Result<Move, Halt>
    requires acts { Acts w.old home (HeldValue target ∷ HeldValue message ∷ []) }
    ensures part { (f : ℕ) → Part home result w.old w.new f f (error_fn home.0 kind (BuiltIn place)
        (Resolve (names_of w.old) target) (Resolve (names_of w.old) message) finished) }
    ensures keeps { (wanted : Sort) → fits AnObject wanted ≡ true → KeepsBy home wanted result w.old w.new }
{
    match other_target(w, target, place)? {
        Some(asked) => ask_prototype(
            w,
            home,
            ReflectFrame::ErrorPrototype { kind, message },
            asked,
        ),
        None => {
            let prototype = built_in(w, home, error_place(kind));
            error_made(w, home, kind, message, prototype)
        }
    }
}

// The new target's `prototype` was got.
pub(crate) fn error_from(
    w: &mut World,
    home: Side,
    kind: ErrorKind,
    message: Value,
    got: Value,
) -> Result<Move, Halt>
    requires acts { Acts w.old home (HeldValue got ∷ HeldValue message ∷ []) }
    ensures part { (f : ℕ) → Part home result w.old w.new f f
        (error_made home.0 kind (Resolve (names_of w.old) message)
        (prototype_or (error_prototype kind) (Resolve (names_of w.old) got)) finished) }
    ensures keeps { (wanted : Sort) → fits AnObject wanted ≡ true → KeepsBy home wanted result w.old w.new }
{
    let prototype = prototype_or(w, home, error_place(kind), got);
    error_made(w, home, kind, message, prototype)
}

// The error is made first, and then its message is converted.
fn error_made(
    w: &mut World,
    home: Side,
    kind: ErrorKind,
    message: Value,
    prototype: Value,
) -> Result<Move, Halt>
    requires acts { Acts w.old home (HeldValue message ∷ HeldPrototype prototype ∷ []) }
    ensures part { (f : ℕ) → Part home result w.old w.new f f (error_made home.0 kind
        (Resolve (names_of w.old) message) (Resolve (names_of w.old) prototype) finished) }
    ensures keeps { (wanted : Sort) → fits AnObject wanted ≡ true → KeepsBy home wanted result w.old w.new }
{
    let error = w.make(home, CellKind::Fault(kind), prototype, None)?;
    match message {
        Value::Undefined => Ok(value(Value::Object(error))),
        _ => with_message(w, home, error, message),
    }
}

// A new error gets its message.
fn with_message(w: &mut World, home: Side, error: ObjId, message: Value) -> Result<Move, Halt>
    requires acts { Acts w.old home (HeldObject error ∷ HeldValue message ∷ []) }
    requires error { IsBare w.old home error }
    ensures part { (f : ℕ) → Part home result w.old w.new f f (with_message home.0
        (object_in (names_of w.old) error) (Resolve (names_of w.old) message) finished) }
    ensures keeps { (wanted : Sort) → fits AnObject wanted ≡ true → KeepsBy home wanted result w.old w.new }
{
    match text_from(w, message)? {
        Some(text) => {
            let full = Full::Datum {
                value: Value::Text(text),
                writable: true,
                enumerable: false,
                configurable: true,
            };
            put(w, error, &MESSAGE, full)?;
            Ok(value(Value::Object(error)))
        }
        None => type_error(w, home),
    }
}

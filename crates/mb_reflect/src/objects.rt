// Objects that are made (ECMA-262, 20.1.1.1, 20.1.2.2), and descriptors of properties.
ghost use Rattle.std.specs.Prelude.{◌≡◌, ◌∷◌, [], ℕ, true};
ghost use Rattle.mb_call.specs.Ours.{Acts};
ghost use Rattle.mb_desc.specs.Descriptors.{descriptor_of};
ghost use Rattle.mb_frames.specs.Held.{HeldPrototype, HeldReal, HeldValue};
ghost use Rattle.mb_frames.specs.Passing.{Part};
ghost use Rattle.mb_frames.specs.Ready.{KeepsBy};
ghost use Rattle.mb_frames.specs.Resolved.{real_in};
ghost use Rattle.mb_frames.specs.Sorts.{AValue, AnObject, Sort, fits};
ghost use Rattle.mb_model.specs.BuiltIns.Arguments.{prototype_or};
ghost use Rattle.mb_model.specs.BuiltIns.ObjectMembers.{described, object_fn, object_made, plain_from};
ghost use Rattle.mb_model.specs.Meaning.{finished};
ghost use Rattle.mb_reflect.specs.machine.Asking.{create_row};
ghost use Rattle.mb_world.specs.Image.{Resolve, names_of};
ghost use Rattle.mb_world.specs.Standard.{object_prototype};
ghost use Rattle.mb_world.specs.Value.{BuiltIn};

use crate::arguments::{is_nullish, may_be_prototype};
use crate::errors::type_error;
use crate::giving::value;
use crate::places::{OBJECT, OBJECT_PROTOTYPE};
use crate::targets::{ask_prototype, other_target, prototype_or};
use mb_base::{Side, Value};
use mb_call::fromdesc;
use mb_desc::{Desc, Full};
use mb_frames::{Halt, Move, ReflectFrame, built_in};
use mb_world::{CellKind, World};

// A new object without properties.
pub(crate) fn plain_from(w: &mut World, home: Side, prototype: Value) -> Result<Move, Halt>
    requires acts { Acts w.old home (HeldPrototype prototype ∷ []) }
    ensures part { (f : ℕ) → Part home result w.old w.new f f
        (plain_from home.0 (Resolve (names_of w.old) prototype) finished) }
    ensures keeps { (wanted : Sort) → fits AnObject wanted ≡ true → KeepsBy home wanted result w.old w.new }
{
    let made = w.make(home, CellKind::Plain, prototype, None)?;
    Ok(value(Value::Object(made)))
}

// Object.create (ECMA-262, 20.1.2.2), which takes no properties here.
pub(crate) fn create(
    w: &mut World,
    home: Side,
    prototype: Value,
    properties: Value,
) -> Result<Move, Halt>
    requires acts { Acts w.old home (HeldValue prototype ∷ HeldValue properties ∷ []) }
    ensures part { (f : ℕ) → Part home result w.old w.new f f (create_row home.0
        (Resolve (names_of w.old) prototype) (Resolve (names_of w.old) properties) finished) }
    ensures keeps { KeepsBy home AValue result w.old w.new }
{
    if !may_be_prototype(prototype) {
        return type_error(w, home);
    }
    match properties {
        Value::Undefined => plain_from(w, home, prototype),
        _ => type_error(w, home),
    }
}

// Object (ECMA-262, 20.1.1.1), called or constructed.
pub(crate) fn object(w: &mut World, home: Side, target: Value, x: Value) -> Result<Move, Halt>
    requires acts { Acts w.old home (HeldValue target ∷ HeldValue x ∷ []) }
    ensures part { (f : ℕ) → Part home result w.old w.new f f (object_fn home.0 (BuiltIn 3)
        (Resolve (names_of w.old) target) (Resolve (names_of w.old) x) finished) }
    ensures keeps { (wanted : Sort) → fits AnObject wanted ≡ true → KeepsBy home wanted result w.old w.new }
{
    match x {
        Value::Object(_) => Ok(value(x)),
        _ => {
            if is_nullish(x) {
                object_made(w, home, target)
            } else {
                type_error(w, home)
            }
        }
    }
}

// A new object, with the prototype of another new target.
fn object_made(w: &mut World, home: Side, target: Value) -> Result<Move, Halt>
    requires acts { Acts w.old home (HeldValue target ∷ []) }
    ensures part { (f : ℕ) → Part home result w.old w.new f f (object_made home.0 (BuiltIn 3)
        (Resolve (names_of w.old) target) finished) }
    ensures keeps { (wanted : Sort) → fits AnObject wanted ≡ true → KeepsBy home wanted result w.old w.new }
{
    match other_target(w, target, OBJECT)? {
        Some(asked) => ask_prototype(w, home, ReflectFrame::ObjectPrototype, asked),
        None => {
            let prototype = built_in(w, home, OBJECT_PROTOTYPE);
            plain_from(w, home, prototype)
        }
    }
}

// The new target's `prototype` was got.
pub(crate) fn object_from(w: &mut World, home: Side, got: Value) -> Result<Move, Halt>
    requires acts { Acts w.old home (HeldValue got ∷ []) }
    ensures part { (f : ℕ) → Part home result w.old w.new f f (plain_from home.0
        (prototype_or object_prototype (Resolve (names_of w.old) got)) finished) }
    ensures keeps { (wanted : Sort) → fits AnObject wanted ≡ true → KeepsBy home wanted result w.old w.new }
{
    let prototype = prototype_or(w, home, OBJECT_PROTOTYPE, got);
    plain_from(w, home, prototype)
}

// A property was read: a descriptor of it, or undefined where there is none.
pub(crate) fn described(w: &mut World, home: Side, found: Option<Full<Value>>) -> Result<Move, Halt>
    requires acts { Acts w.old home (HeldReal found ∷ []) }
    ensures part { (f : ℕ) → Part home result w.old w.new f f
        (described home.0 (real_in (names_of w.old) found) finished) }
    ensures keeps { KeepsBy home AValue result w.old w.new }
{
    match found {
        None => Ok(value(Value::Undefined)),
        Some(full) => {
            let made = fromdesc(w, home, descriptor_of(full))?;
            Ok(value(Value::Object(made)))
        }
    }
}

// The descriptor that says all of a property.
fn descriptor_of(full: Full<Value>) -> Desc<Value>
    ensures { result ≡ descriptor_of full }
{
    match full {
        Full::Datum {
            value,
            writable,
            enumerable,
            configurable,
        } => Desc {
            value: Some(value),
            writable: Some(writable),
            get: None,
            set: None,
            enumerable: Some(enumerable),
            configurable: Some(configurable),
        },
        Full::Accessor {
            get,
            set,
            enumerable,
            configurable,
        } => Desc {
            value: None,
            writable: None,
            get: Some(get),
            set: Some(set),
            enumerable: Some(enumerable),
            configurable: Some(configurable),
        },
    }
}

// Constructions (ECMA-262, 10.2.2, 10.3.2).
ghost use Rattle.std.specs.Prelude.{◌≡◌, ◌∷◌, [], ℕ, Ok, codes};
ghost use Rattle.mb_base.specs.declared.value.Side.{Side as ASide};
ghost use Rattle.mb_frames.specs.Held.{HeldConstructor, HeldObject, HeldPrototype, HeldValue};
ghost use Rattle.mb_frames.specs.Holding.{call_held, method_held};
ghost use Rattle.mb_frames.specs.Passing.{Part};
ghost use Rattle.mb_frames.specs.Ready.{Holds, KeepsBy, Leaves, MayHold};
ghost use Rattle.mb_frames.specs.Resolved.{label_in, values_in};
ghost use Rattle.mb_frames.specs.Sorts.{AnObject};
ghost use Rattle.mb_frames.specs.Stepping.{Sure};
ghost use Rattle.mb_frames.specs.declared.calls.CallFrame.TheVariants as TheFrame;
ghost use Rattle.mb_model.specs.BuiltIns.Arguments.{prototype_or};
ghost use Rattle.mb_model.specs.Meaning.{finished};
ghost use Rattle.mb_model.specs.Objects.Methods.{construct_with, constructed};
ghost use Rattle.mb_model.specs.Operations.Calls.{get};
ghost use Rattle.mb_model.specs.Writing.{◌>>=◌ as after_that, is_value};
ghost use Rattle.mb_ordinary.specs.Objects.{IsOrdinary};
ghost use Rattle.mb_world.specs.Data.{Data, cell_at};
ghost use Rattle.mb_world.specs.Ids.{ObjIn};
ghost use Rattle.mb_world.specs.Image.{Resolve, names_of, object_in};
ghost use Rattle.mb_world.specs.Key.{Named};
ghost use Rattle.mb_world.specs.Standard.{object_prototype};
ghost use Rattle.mb_call.specs.Ours.{Acts};
ghost use Rattle.mb_call.specs.Owners.{owner_of};
ghost use Rattle.mb_call.specs.Methods.{DoesMethod};

use crate::errors::type_error;
use crate::giving::asks;
use crate::parts::key_of_word;
use mb_base::{ObjId, Side, StrId, Value};
use mb_frames::{Answer, CallFrame, Frame, Halt, Method, Move, Outcome, Task, Values, built_in};
use mb_world::{CellKind, World};

// The place of Object.prototype.
const OBJECT_PROTOTYPE: u16 = 13;

// The units of the text `prototype`.
const PROTOTYPE: [u16; 9] = [112, 114, 111, 116, 111, 116, 121, 112, 101];

/// [[Construct]] (ECMA-262, 10.2.2, 10.3.2): a function's owner acts, and gets the new target's `prototype` first; a
/// built-in runs for the side that acts already. What constructs nothing throws a TypeError of `home`.
pub fn construct(
    w: &mut World,
    home: Side,
    side: Side,
    object: ObjId,
    arguments: Values,
    target: Value,
) -> Result<Move, Halt>
    requires acts { Acts w.old home (HeldObject object ∷ method_held object (Method.Construct arguments target)) }
    requires ordinary { IsOrdinary (cell_at w.old object) }
    requires side { side ≡ owner_of home (cell_at w.old object) }
    ensures part { (viewer : ASide) (f : ℕ) →
        DoesMethod home side viewer object (Method.Construct arguments target) result w.old w.new f f }
    ensures keeps { KeepsBy side AnObject result w.old w.new }
{
    let cell = w.cell(object);
    let label = cell.label;
    match cell.kind {
        CellKind::Function(_) => get_prototype(w, side, object, label, arguments, target),
        CellKind::BuiltIn(place) => Ok(Move::Next(Task::Run {
            place,
            this: Value::Undefined,
            arguments,
            target,
        })),
        _ => type_error(w, home),
    }
}

// The new target's `prototype` is got (ECMA-262, 10.1.14).
fn get_prototype(
    w: &mut World,
    home: Side,
    function: ObjId,
    label: Option<StrId>,
    arguments: Values,
    target: Value,
) -> Result<Move, Halt>
    requires acts { Acts w.old home (call_held (TheFrame.ConstructPrototype function label arguments)) }
    requires target { MayHold w.old home (HeldConstructor target) }
    ensures part { (f : ℕ) → Part home result w.old w.new f f (after_that
        (get home.0 (Resolve (names_of w.old) target) (Named (codes "prototype")))
        (construct_with home.0 (object_in (names_of w.old) function) (label_in (names_of w.old) label)
        (values_in (names_of w.old) arguments)) finished) }
    ensures keeps { KeepsBy home AnObject result w.old w.new }
{
    match target {
        Value::Object(asked) => {
            let key = key_of_word(w, &PROTOTYPE)?;
            Ok(Move::Wait(
                Frame::Call(CallFrame::ConstructPrototype {
                    function,
                    label,
                    arguments,
                }),
                asks(
                    home,
                    Method::Get {
                        key,
                        receiver: target,
                    },
                    asked,
                ),
            ))
        }
        _ => unreachable!(),
    }
}

// The object is made, with the prototype that was got or Object.prototype, and the function is entered for it.
pub(crate) fn construct_with(
    w: &mut World,
    home: Side,
    function: ObjId,
    label: Option<StrId>,
    arguments: Values,
    got: Value,
) -> Result<Move, Halt>
    requires acts { Acts w.old home (call_held (TheFrame.ConstructPrototype function label arguments)) }
    requires got { MayHold w.old home (HeldValue got) }
    ensures part { (f : ℕ) → Part home result w.old w.new f f
        (construct_with home.0 (object_in (names_of w.old) function) (label_in (names_of w.old) label)
        (values_in (names_of w.old) arguments) (Resolve (names_of w.old) got) finished) }
    ensures keeps { KeepsBy home AnObject result w.old w.new }
{
    let prototype = prototype_or(w, home, got);
    let made = w.make(home, CellKind::Plain, prototype, label)?;
    let this = Value::Object(made);
    Ok(Move::Wait(
        Frame::Call(CallFrame::ConstructBody { made }),
        Task::Enter {
            function,
            this,
            arguments,
        },
    ))
}

// What was got, if it is an object, or Object.prototype.
fn prototype_or(w: &World, home: Side, got: Value) -> Value
    requires { Acts w.now home (HeldValue got ∷ []) }
    ensures value { Resolve (names_of w.now) result ≡ prototype_or object_prototype (Resolve (names_of w.now) got) }
    ensures held { Holds w.now home (HeldPrototype result ∷ []) }
{
    match got {
        Value::Object(_) => got,
        _ => built_in(w, home, OBJECT_PROTOTYPE),
    }
}

// The body of a constructor ended: an object that it gave is the answer, or else the new one.
pub(crate) fn constructed(made: ObjId, gave: Value) -> Move
    ensures sure { (home : ASide) (d : Data) → Acts d home (HeldObject made ∷ HeldValue gave ∷ []) →
        Sure home d (constructed (object_in (names_of d) made) (Resolve (names_of d) gave) finished) result }
    ensures leaves { (home : ASide) (d : Data) → Acts d home (HeldObject made ∷ HeldValue gave ∷ []) →
        Leaves d home AnObject result }
{
    match gave {
        Value::Object(object) => gives(object),
        _ => gives(made),
    }
}

// The construction gives an object.
fn gives(object: ObjId) -> Move
    ensures sure { (home : ASide) (d : Data) → ObjIn d object →
        Sure home d (is_value (object_in (names_of d) object) finished) result }
    ensures leaves { (home : ASide) (d : Data) → Holds d home (HeldObject object ∷ []) →
        Leaves d home AnObject result }
{
    Move::Done(Outcome::Normal(Answer::Value(Value::Object(object))))
}

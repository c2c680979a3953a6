// A call that waits takes how its part ended.
ghost use Rattle.std.specs.Prelude.{◌≡◌, ◌∷◌, [], true};
ghost use Rattle.mb_base.specs.declared.value.Side.{Side as ASide};
ghost use Rattle.mb_frames.specs.Held.{HeldReal, HeldValue};
ghost use Rattle.mb_frames.specs.Holding.{answer_held, call_held, outcome_held};
ghost use Rattle.mb_frames.specs.Passing.{Part};
ghost use Rattle.mb_frames.specs.Ready.{Holds, KeepsBy};
ghost use Rattle.mb_frames.specs.Resolved.{answer_in, outcome_in, real_in};
ghost use Rattle.mb_frames.specs.Rest.Calls.{call_rest};
ghost use Rattle.mb_frames.specs.Sorts.{call_gives, call_waits};
ghost use Rattle.mb_frames.specs.Standing.{forms_at};
ghost use Rattle.mb_model.specs.Meaning.{finished};
ghost use Rattle.mb_model.specs.Task.{Normal};
ghost use Rattle.mb_model.specs.Writing.{flag_in, property_in, value_in};
ghost use Rattle.mb_world.specs.Data.{Data};
ghost use Rattle.mb_world.specs.Image.{Names, Resolve, names_of};
ghost use Rattle.mb_call.specs.Ours.{Acts};
ghost use Rattle.mb_call.specs.machine.Resuming.{IsAwaited, is_answered};

use crate::bodies::body_next;
use crate::constructions::{construct_with, constructed};
use crate::descriptors::{field_found, field_got};
use crate::giving::{value, yes_or_no};
use crate::lists::{element_got, length_got};
use crate::writing::receiver_has;
use mb_base::{Fuel, Side, Value};
use mb_desc::Full;
use mb_frames::{Answer, CallFrame, Halt, Move, Outcome};
use mb_world::World;

pub(crate) fn resume(
    w: &mut World,
    fuel: &mut Fuel,
    home: Side,
    frame: CallFrame,
    outcome: Outcome,
) -> Result<Move, Halt>
    requires acts { Acts w.old home (call_held frame) }
    requires outcome { Holds w.old home (outcome_held outcome) }
    requires sort { IsAwaited (call_waits frame) outcome }
    ensures part { Part home result w.old w.new fuel.old fuel.new (call_rest (names_of w.old) (forms_at w.old home)
        home.0 frame (outcome_in (names_of w.old) outcome) finished) }
    ensures keeps { KeepsBy home (call_gives frame) result w.old w.new }
{
    match frame {
        CallFrame::Statement { at, node, next } => body_next(w, home, at, node, next, outcome),
        frame => match outcome {
            Outcome::Normal(answer) => answered(w, fuel, home, frame, answer),
            Outcome::Throw(x) => Ok(Move::Done(Outcome::Throw(x))),
            _ => unreachable!(),
        },
    }
}

// Its part gave an answer.
fn answered(
    w: &mut World,
    fuel: &mut Fuel,
    home: Side,
    frame: CallFrame,
    answer: Answer,
) -> Result<Move, Halt>
    requires acts { Acts w.old home (call_held frame) }
    requires waits { is_answered frame ≡ true }
    requires answer { Holds w.old home (answer_held answer) }
    ensures part { Part home result w.old w.new fuel.old fuel.new (call_rest (names_of w.old) (forms_at w.old home)
        home.0 frame (Normal (answer_in (names_of w.old) answer)) finished) }
    ensures keeps { KeepsBy home (call_gives frame) result w.old w.new }
{
    match frame {
        CallFrame::SetterCalled => Ok(yes_or_no(true)),
        CallFrame::ReceiverRead {
            key,
            value,
            receiver,
        } => Ok(receiver_has(home, key, value, receiver, property_in(&answer))),
        CallFrame::ConstructPrototype {
            function,
            label,
            arguments,
        } => construct_with(w, home, function, label, arguments, value_in(&answer)),
        CallFrame::ConstructBody { made } => Ok(constructed(made, value_in(&answer))),
        CallFrame::ArrowValue => Ok(value(value_in(&answer))),
        CallFrame::ListLength { list, after } => {
            length_got(w, fuel, home, list, after, value_in(&answer))
        }
        CallFrame::ListElement {
            list,
            left,
            done,
            after,
        } => element_got(w, fuel, home, list, left, done, after, value_in(&answer)),
        CallFrame::FieldThere {
            object,
            field,
            desc,
            after,
        } => field_found(w, home, object, field, desc, after, flag_in(&answer)),
        CallFrame::FieldGot {
            object,
            field,
            desc,
            after,
        } => field_got(w, home, object, field, desc, after, value_in(&answer)),
        CallFrame::Statement { .. } => unreachable!(),
    }
}

// The value of an answer that is one.
fn value_in(answer: &Answer) -> Value
    ensures value { (n : Names) → value_in (answer_in n answer.now) ≡ Resolve n result }
    ensures held { (d : Data) (home : ASide) → Holds d home (answer_held answer.now) →
        Holds d home (HeldValue result ∷ []) }
{
    match answer {
        Answer::Value(x) => *x,
        _ => Value::Undefined,
    }
}

// The flag of an answer that is one.
fn flag_in(answer: &Answer) -> bool
    ensures { (n : Names) → flag_in (answer_in n answer.now) ≡ result }
{
    match answer {
        Answer::Flag(b) => *b,
        _ => false,
    }
}

// The property of an answer that is one.
fn property_in(answer: &Answer) -> Option<Full<Value>>
    ensures property { (n : Names) → property_in (answer_in n answer.now) ≡ real_in n result }
    ensures held { (d : Data) (home : ASide) → Holds d home (answer_held answer.now) →
        Holds d home (HeldReal result ∷ []) }
{
    match answer {
        Answer::Prop(found) => *found,
        _ => None,
    }
}

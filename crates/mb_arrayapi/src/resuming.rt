// Array or a member of Array.prototype that waits takes how its part ended.
ghost use Rattle.std.specs.Prelude.{◌≡◌, ◌∷◌, []};
ghost use Rattle.mb_base.specs.declared.value.Side.{Side as ASide};
ghost use Rattle.mb_call.specs.Ours.{Acts};
ghost use Rattle.mb_call.specs.machine.Resuming.{IsAwaited};
ghost use Rattle.mb_frames.specs.Held.{HeldValue};
ghost use Rattle.mb_frames.specs.Holding.{answer_held, array_held, outcome_held};
ghost use Rattle.mb_frames.specs.Passing.{Part};
ghost use Rattle.mb_frames.specs.Ready.{Holds, KeepsBy};
ghost use Rattle.mb_frames.specs.Resolved.{answer_in, outcome_in};
ghost use Rattle.mb_frames.specs.Rest.Arraying.{array_rest};
ghost use Rattle.mb_frames.specs.Rest.Parts.{with_answer};
ghost use Rattle.mb_frames.specs.Sorts.{array_gives, array_waits};
ghost use Rattle.mb_model.specs.Meaning.{finished};
ghost use Rattle.mb_model.specs.Writing.{flag_in, value_in};
ghost use Rattle.mb_world.specs.Data.{Data};
ghost use Rattle.mb_world.specs.Image.{Names, Resolve, names_of};

use crate::beginning::length_got;
use crate::calling::called;
use crate::constructing::prototype_got;
use crate::finding::{element_got, told};
use crate::joining::join_got;
use crate::popping::{pop_deleted, pop_ended, pop_got};
use crate::pushing::{push_ended, push_set};
use crate::turns::Elements;
use mb_base::{Fuel, ObjId, Side, Value};
use mb_frames::{Answer, ArrayFrame, Halt, Move, Outcome, Turn};
use mb_world::World;

pub(crate) fn resume(
    w: &mut World,
    fuel: &mut Fuel,
    home: Side,
    frame: ArrayFrame,
    outcome: Outcome,
) -> Result<Move, Halt>
    requires acts { Acts w.old home (array_held frame) }
    requires outcome { Holds w.old home (outcome_held outcome) }
    requires sort { IsAwaited (array_waits frame) outcome }
    ensures part { Part home result w.old w.new fuel.old fuel.new (with_answer
        (outcome_in (names_of w.old) outcome) (array_rest (names_of w.old) home.0 frame) finished) }
    ensures keeps { KeepsBy home (array_gives frame) result w.old w.new }
{
    match outcome {
        Outcome::Normal(answer) => answered(w, fuel, home, frame, answer),
        Outcome::Throw(x) => Ok(Move::Done(Outcome::Throw(x))),
        _ => unreachable!(),
    }
}

// Its part gave an answer.
fn answered(
    w: &mut World,
    fuel: &mut Fuel,
    home: Side,
    frame: ArrayFrame,
    answer: Answer,
) -> Result<Move, Halt>
    requires acts { Acts w.old home (array_held frame) }
    requires answer { Holds w.old home (answer_held answer) }
    ensures part { Part home result w.old w.new fuel.old fuel.new
        (array_rest (names_of w.old) home.0 frame (answer_in (names_of w.old) answer) finished) }
    ensures keeps { KeepsBy home (array_gives frame) result w.old w.new }
{
    let x = value_in(&answer);
    let done = flag_in(&answer);
    match frame {
        ArrayFrame::Prototype { arguments } => prototype_got(w, home, &arguments, x),
        ArrayFrame::Length { object, member } => length_got(w, fuel, home, object, member, x),
        ArrayFrame::There {
            object,
            place,
            left,
            turn,
        } => told(
            w,
            fuel,
            home,
            Elements {
                object,
                place,
                left,
                turn,
            },
            done,
        ),
        ArrayFrame::Got {
            object,
            place,
            left,
            turn,
        } => element_got(
            w,
            fuel,
            home,
            Elements {
                object,
                place,
                left,
                turn,
            },
            x,
        ),
        ArrayFrame::Called {
            object,
            place,
            left,
            element,
            callback,
        } => {
            let turn = Turn::Call(callback);
            let at = Elements {
                object,
                place,
                left,
                turn,
            };
            called(w, fuel, home, at, callback, element, x)
        }
        ArrayFrame::PushSet {
            object,
            place,
            arguments,
            next,
        } => push_set(w, fuel, home, object, place, arguments, next, done),
        ArrayFrame::PushLength { length } => push_ended(w, home, length, done),
        ArrayFrame::PopGot { object, place } => pop_got(w, home, object, place, x),
        ArrayFrame::PopDeleted {
            object,
            place,
            value,
        } => pop_deleted(w, home, object, place, value, done),
        ArrayFrame::PopLength { value } => pop_ended(w, home, value, done),
        ArrayFrame::JoinGot {
            object,
            place,
            left,
            separator,
            so_far,
        } => join_got(w, fuel, home, object, place, left, separator, so_far, x),
    }
}

// The value of an answer that is one.
fn value_in(answer: &Answer) -> Value
    ensures value { (n : Names) → value_in (answer_in n answer.now) ≡ Resolve n result }
    ensures held { (d : Data) (home : ASide) → Holds d home (answer_held answer.now) →
        Holds d home (HeldValue result ∷ []) }
{
    match answer {
        Answer::Value(x) => *x,
        _ => Value::Undefined,
    }
}

// The flag of an answer that is one.
fn flag_in(answer: &Answer) -> bool
    ensures { (n : Names) → flag_in (answer_in n answer.now) ≡ result }
{
    match answer {
        Answer::Flag(b) => *b,
        _ => false,
    }
}

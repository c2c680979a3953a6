// The values of answers.
ghost use Rattle.std.specs.Prelude.{◌≡◌};
ghost use Rattle.mb_base.specs.declared.value.Side.{Side};
ghost use Rattle.mb_frames.specs.Held.{AreIn, HeldValue};
ghost use Rattle.mb_frames.specs.Ready.{Holds, MayHold};
ghost use Rattle.mb_frames.specs.Holding.{answer_held};
ghost use Rattle.mb_frames.specs.Resolved.{answer_in};
ghost use Rattle.mb_model.specs.Writing.{value_in};
ghost use Rattle.mb_world.specs.Data.{Data};
ghost use Rattle.mb_world.specs.Ids.{ValueIn};
ghost use Rattle.mb_world.specs.Image.{Names, Resolve};

use mb_base::Value;
use mb_frames::Answer;

// The value of an answer that is one.
pub(crate) fn value_of(answer: &Answer) -> Value
    ensures value { (n : Names) → value_in (answer_in n answer.now) ≡ Resolve n result }
    ensures ids { (d : Data) → AreIn d (answer_held answer.now) → ValueIn d result }
    ensures held { (home : Side) (d : Data) → Holds d home (answer_held answer.now) →
        MayHold d home (HeldValue result) }
{
    match answer {
        Answer::Value(x) => *x,
        _ => Value::Undefined,
    }
}

// Moves that give a value.
ghost use Rattle.std.specs.Prelude.{◌≡◌};
ghost use Rattle.mb_frames.specs.declared.frame.Move.TheVariants as move;
ghost use Rattle.mb_frames.specs.declared.task.Answer.TheVariants as a;
ghost use Rattle.mb_frames.specs.declared.task.Outcome.TheVariants as o;

use mb_base::Value;
use mb_frames::{Answer, Move, Outcome};

// The row ends with a value.
pub(crate) fn value(x: Value) -> Move
    ensures { result ≡ move.Done (o.Normal (a.Value x)) }
{
    Move::Done(Outcome::Normal(Answer::Value(x)))
}

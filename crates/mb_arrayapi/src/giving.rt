// Moves that give a value, and frames that wait for a method.
ghost use Rattle.std.specs.Prelude.{◌≡◌, true};
ghost use Rattle.mb_frames.specs.declared.frame.Frame.TheVariants as x;
ghost use Rattle.mb_frames.specs.declared.frame.Move.TheVariants as move;
ghost use Rattle.mb_frames.specs.declared.task.Answer.TheVariants as a;
ghost use Rattle.mb_frames.specs.declared.task.Outcome.TheVariants as o;
ghost use Rattle.mb_frames.specs.declared.task.Task.TheVariants as task;

use mb_base::{ObjId, Side, Value};
use mb_frames::{Answer, ArrayFrame, Frame, Method, Move, Outcome, Task};

// The row ends with a value.
pub(crate) fn value(x: Value) -> Move
    ensures { result ≡ move.Done (o.Normal (a.Value x)) }
{
    Move::Done(Outcome::Normal(Answer::Value(x)))
}

// A frame waits for a method of an object, as that side sees it.
pub(crate) fn waits(home: Side, frame: ArrayFrame, method: Method, object: ObjId) -> Move
    ensures { result ≡ move.Wait (x.Array frame) (task.Perform method object home true) }
{
    Move::Wait(
        Frame::Array(frame),
        Task::Perform {
            method,
            object,
            viewer: home,
            enters: true,
        },
    )
}

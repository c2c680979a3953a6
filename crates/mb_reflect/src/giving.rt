// Moves that end a row, and methods that are asked.
ghost use Rattle.std.specs.Prelude.{◌≡◌, true};

use mb_base::{ObjId, Side, Value};
use mb_frames::{Answer, Frame, Method, Move, Outcome, ReflectFrame, Task};

// The row ends with a value.
pub(crate) fn value(x: Value) -> Move
    ensures { result ≡ Move.Done (Outcome.Normal (Answer.Value x)) }
{
    Move::Done(Outcome::Normal(Answer::Value(x)))
}

// The row ends with a method of an object.
pub(crate) fn performs(home: Side, method: Method, object: ObjId) -> Move
    ensures { result ≡ Move.Next (Task.Perform method object home true) }
{
    Move::Next(asks(home, method, object))
}

// The row waits for a method of an object.
pub(crate) fn waits(home: Side, frame: ReflectFrame, method: Method, object: ObjId) -> Move
    ensures { result ≡ Move.Wait (Frame.Reflect frame) (Task.Perform method object home true) }
{
    Move::Wait(Frame::Reflect(frame), asks(home, method, object))
}

// A method of an object as that side sees it.
fn asks(home: Side, method: Method, object: ObjId) -> Task
    ensures { result ≡ Task.Perform method object home true }
{
    Task::Perform {
        method,
        object,
        viewer: home,
        enters: true,
    }
}

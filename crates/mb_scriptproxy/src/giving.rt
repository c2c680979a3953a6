// Moves that end the row of a method, and methods that are asked.
ghost use Rattle.std.specs.Prelude.{◌≡◌, ℕ, true};
ghost use Rattle.mb_base.specs.declared.value.Side.{Side as ASide};
ghost use Rattle.mb_frames.specs.Held.{AreIn};
ghost use Rattle.mb_frames.specs.Holding.{answer_held};
ghost use Rattle.mb_frames.specs.Passing.{Part};
ghost use Rattle.mb_frames.specs.Ready.{Holds, KeepsBy, Leaves};
ghost use Rattle.mb_frames.specs.Resolved.{answer_in};
ghost use Rattle.mb_frames.specs.Sorts.{AFlag, IsAnswer, Sort};
ghost use Rattle.mb_frames.specs.Stepping.{Sure};
ghost use Rattle.mb_model.specs.Meaning.{finished};
ghost use Rattle.mb_model.specs.Objects.Proxies.{judge};
ghost use Rattle.mb_model.specs.Writing.{give, yes_or_no};
ghost use Rattle.mb_world.specs.Data.{Data};
ghost use Rattle.mb_world.specs.Image.{names_of};
ghost use Rattle.mb_call.specs.Ours.{Acts};

use crate::errors::type_error;
use mb_base::{ObjId, Side};
use mb_check::Verdict;
use mb_frames::{Answer, Frame, Halt, Method, Move, Outcome, ProxyFrame, Task};
use mb_world::World;

// The row ends with an answer.
pub(crate) fn gives(answer: Answer) -> Move
    ensures sure { (home : ASide) (d : Data) → AreIn d (answer_held answer) →
        Sure home d (give (answer_in (names_of d) answer) finished) result }
    ensures leaves { (home : ASide) (d : Data) (wanted : Sort) → IsAnswer wanted answer →
        Holds d home (answer_held answer) → Leaves d home wanted result }
{
    Move::Done(Outcome::Normal(answer))
}

// The method answers yes or no.
pub(crate) fn yes_or_no(b: bool) -> Move
    ensures sure { (home : ASide) (d : Data) → Sure home d (yes_or_no b finished) result }
    ensures leaves { (home : ASide) (d : Data) → Leaves d home AFlag result }
{
    gives(Answer::Flag(b))
}

// The answer stands, unless a rule is broken.
pub(crate) fn judged(
    w: &mut World,
    home: Side,
    verdict: Verdict,
    answer: Answer,
) -> Result<Move, Halt>
    requires acts { Acts w.old home (answer_held answer) }
    ensures part { (f : ℕ) → Part home result w.old w.new f f
        (judge home.0 verdict (answer_in (names_of w.old) answer) finished) }
    ensures keeps { (wanted : Sort) → (verdict ≡ Verdict.Pass → IsAnswer wanted answer) →
        KeepsBy home wanted result w.old w.new }
{
    match verdict {
        Verdict::Pass => Ok(gives(answer)),
        Verdict::Broken(_) => type_error(w, home),
    }
}

// A method of the target is asked for, and the frame waits for its answer.
pub(crate) fn asks(home: Side, frame: ProxyFrame, method: Method, target: ObjId) -> Move
    ensures { result ≡ Move.Wait (Frame.Proxy frame) (Task.Perform method target home true) }
{
    Move::Wait(
        Frame::Proxy(frame),
        Task::Perform {
            method,
            object: target,
            viewer: home,
            enters: true,
        },
    )
}

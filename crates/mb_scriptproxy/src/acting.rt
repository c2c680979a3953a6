// Who acts in a step.
ghost use Rattle.std.specs.Prelude.{◌≡◌};
ghost use Rattle.mb_frames.specs.Held.{AreIn};
ghost use Rattle.mb_frames.specs.Holding.{done_held, frame_held, task_held};
ghost use Rattle.mb_world.specs.Ids.{ObjIn};
ghost use Rattle.mb_scriptproxy.specs.machine.Acting.{acting_side, handed_side, performing_side, task_side};
ghost use Rattle.mb_scriptproxy.specs.machine.Acting.{waiting_side};

use crate::traps::is_none;
use mb_base::{ObjId, Side};
use mb_call::is_due;
use mb_frames::{Answer, Frame, Outcome, ProxyFrame, Task};
use mb_rules::cut;
use mb_world::World;

// The side at whose home a step goes on.
pub(crate) fn acting_side(w: &World, home: Side, frame: &Frame, done: &Option<Outcome>) -> Side
    requires { AreIn w.now (frame_held frame.now) }
    ensures { result ≡ acting_side w.now home frame.now done.now }
{
    match frame {
        Frame::Begin(task) => {
            if is_due(w, home, task) {
                home
            } else {
                task_side(w, home, task)
            }
        }
        Frame::Begun(task) => task_side(w, home, task),
        Frame::Anew(task) => task_side(w, home, task),
        Frame::Proxy(frame) => waiting_side(home, frame, done),
        _ => home,
    }
}

// The side that acts in a task that begins.
fn task_side(w: &World, home: Side, task: &Task) -> Side
    requires { AreIn w.now (task_held task.now) }
    ensures { result ≡ task_side w.now home task.now }
{
    match task {
        Task::Perform { object, viewer, .. } => performing_side(w, home, *viewer, *object),
        _ => home,
    }
}

// The owner of a Proxy, or the side that asked where that is cut off.
fn performing_side(w: &World, home: Side, viewer: Side, object: ObjId) -> Side
    requires { ObjIn w.now object }
    ensures { result ≡ performing_side w.now home viewer object }
{
    if cut(w, viewer, object) {
        home
    } else {
        w.cell(object).home
    }
}

// The side that goes on with what was looked up or read.
fn waiting_side(home: Side, frame: &ProxyFrame, done: &Option<Outcome>) -> Side
    ensures { result ≡ waiting_side home frame.now done.now }
{
    match frame {
        ProxyFrame::TrapGot { side, .. } => handed_side(home, *side, done),
        _ => home,
    }
}

// The side that asked, where there is no trap.
fn handed_side(home: Side, asked: Side, done: &Option<Outcome>) -> Side
    ensures { result ≡ handed_side home asked done.now }
{
    match done {
        Some(Outcome::Normal(Answer::Value(trap))) => { if is_none(*trap) { asked } else { home } }
        _ => home,
    }
}

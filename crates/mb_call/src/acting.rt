// Who acts in a step, and whether an entry is due.
ghost use Rattle.std.specs.Prelude.{◌≡◌};
ghost use Rattle.mb_world.specs.Data.{cell_at};
ghost use Rattle.mb_world.specs.Ids.{ObjIn};
ghost use Rattle.mb_frames.specs.Held.{AreIn};
ghost use Rattle.mb_frames.specs.Holding.{frame_held, task_held};
ghost use Rattle.mb_call.specs.Owners.{owner_of};
ghost use Rattle.mb_call.specs.machine.Acting.{acting_side, task_side};
ghost use Rattle.mb_call.specs.Due.{is_due, is_of_another};

use mb_base::{ObjId, Side};
use mb_frames::{Frame, Method, Task};
use mb_world::{CellKind, World};

// The side at whose home a step goes on.
pub(crate) fn acting_side(w: &World, home: Side, frame: &Frame) -> Side
    requires { AreIn w.now (frame_held frame.now) }
    ensures { result ≡ acting_side w.now home frame.now }
{
    match frame {
        Frame::Begin(task) => {
            if is_due(w, home, task) {
                home
            } else {
                task_side(w, home, task)
            }
        }
        Frame::Begun(task) => task_side(w, home, task),
        Frame::Anew(task) => task_side(w, home, task),
        _ => home,
    }
}

// The side that acts in a task that begins.
fn task_side(w: &World, home: Side, task: &Task) -> Side
    requires { AreIn w.now (task_held task.now) }
    ensures { result ≡ task_side w.now home task.now }
{
    match task {
        Task::Perform { method, object, .. } => match method {
            Method::Construct { .. } => owner_of(w, home, *object),
            _ => home,
        },
        Task::Enter { function, .. } => owner_of(w, home, *function),
        _ => home,
    }
}

// The owner of a function; of another object the side that acts already.
fn owner_of(w: &World, home: Side, id: ObjId) -> Side
    requires { ObjIn w.now id }
    ensures { result ≡ owner_of home (cell_at w.now id) }
{
    match w.cell(id).kind {
        CellKind::Function(code) => code.side,
        _ => home,
    }
}

/// Whether a task that begins makes an entry: a method of another side's object that is to enter one.
pub fn is_due(w: &World, home: Side, task: &Task) -> bool
    requires { AreIn w.now (task_held task.now) }
    ensures { result ≡ is_due w.now home task.now }
{
    match task {
        Task::Perform { object, enters, .. } => *enters && is_of_another(w, home, *object),
        _ => false,
    }
}

// Whether another side owns an object; a built-in is of every side.
fn is_of_another(w: &World, home: Side, id: ObjId) -> bool
    requires { ObjIn w.now id }
    ensures { result ≡ is_of_another home (cell_at w.now id) }
{
    let cell = w.cell(id);
    match cell.kind {
        CellKind::BuiltIn(_) => false,
        _ => cell.home != home,
    }
}

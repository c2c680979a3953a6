// A machine that begins a job.
ghost use Rattle.std.specs.Prelude.{◌≡◌, ◌<◌, ℕ, [], IfOk, List, None};
ghost use Rattle.mb_engine.specs.Begun.{HasScript, IsBegun};
ghost use Rattle.mb_engine.specs.machine.Advancing.{meant};
ghost use Rattle.mb_engine.specs.machine.Starting.{Begins, script_frame};
ghost use Rattle.mb_frames.specs.Found.{HoldsJob};
ghost use Rattle.mb_frames.specs.Ready.{IsReadyMachine};
ghost use Rattle.mb_frames.specs.Standing.{RestBy};
ghost use Rattle.mb_model.specs.Story.{job_ends};
ghost use Rattle.mb_world.specs.Formed.{IsCallable};
ghost use Rattle.mb_world.specs.Graph.{Item};
ghost use Rattle.mb_world.specs.Image.{Image, job_in, names_of};
ghost use Rattle.mb_world.specs.declared.scope.Job.TheVariants as j;

use mb_base::{NoMemory, NodeId, ScopeId, Side, Value};
use mb_frames::{Context, Frame, Machine, Method, Task, Values, Waiting};
use mb_world::{Job, World};

/// Does a side's script, or calls the function of a job with `this` undefined and no arguments.
pub(crate) fn start(w: &World, side: Side, job: Job) -> Result<Machine, NoMemory>
    requires begun { IsBegun w.now }
    requires side { side.0 < w.now.sides }
    requires job { HoldsJob w.now side job }
    ensures ready { IfOk result (λ m. IsReadyMachine w.now m) }
    ensures rest { IfOk result (λ m. (f : ℕ) (log : List Item) → RestBy meant m w.now f log
        ≡ job_ends side.0 (job_in (names_of w.now) job) (Image w.now log) f) }
{
    let alloc = *w.trace().allocator();
    let frame = begin_job(w, Values::new(alloc), side, job);
    let mut m = Machine {
        stack: Vec::new(alloc),
        now: side,
        done: None,
    };
    m.push(Waiting { home: side, frame })?;
    Ok(m)
}

// A script's node costs nothing, so its row starts with no charge.
fn begin_job(w: &World, arguments: Values, side: Side, job: Job) -> Frame
    requires begun { IsBegun w.now }
    requires side { side.0 < w.now.sides }
    requires job { HoldsJob w.now side job }
    requires none { arguments ≡ [] }
    ensures { Begins w.now side job result }
{
    match job {
        Job::Script => script(w, side),
        Job::Call(function) => call(w, arguments, side, function),
    }
}

// The last node of a tree is the whole script.
fn script(w: &World, side: Side) -> Frame
    requires side { side.0 < 8 }
    requires script { HasScript w.now side }
    ensures { result ≡ script_frame w.now side }
{
    let nodes = match w.program(side) {
        Some(program) => program.tree.nodes.len(),
        None => unreachable!(),
    };
    Frame::Anew(Task::Evaluate {
        node: NodeId(nodes as u32 - 1),
        at: Context {
            scope: ScopeId(u32::from(side.0)),
            this: Value::Undefined,
        },
    })
}

fn call(w: &World, arguments: Values, side: Side, function: Value) -> Frame
    requires function { IsCallable w.now function }
    requires none { arguments ≡ [] }
    ensures { Begins w.now side (j.Call function) result }
{
    match function {
        Value::Object(object) => Frame::Begin(Task::Perform {
            method: Method::Call {
                this: Value::Undefined,
                arguments,
            },
            object,
            viewer: side,
            enters: true,
        }),
        _ => unreachable!(),
    }
}

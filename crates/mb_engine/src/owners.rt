// Which crate does the step of the top frame.
ghost use Rattle.mb_base.specs.declared.value.Side.{Side as ASide};
ghost use Rattle.mb_tree.specs.Seen.{seen};
ghost use Rattle.mb_world.specs.Data.{Data};
ghost use Rattle.mb_engine.specs.machine.Owning.{BegunBelongs, Belongs, IsTopOf, OwnsEntry, OwnsForm, TaskBelongs};
ghost use Rattle.mb_engine.specs.machine.Owning.{array_place, basic_place, is_within, proxy_place, reflect_place};
ghost use Rattle.mb_frames.specs.Held.{AreIn};
ghost use Rattle.mb_frames.specs.Holding.{frame_held, task_held};
ghost use Rattle.mb_frames.specs.Ready.{IsReadyMachine};
ghost use Rattle.mb_frames.specs.Running.{CanRun};
ghost use Rattle.mb_frames.specs.Standing.{at_home};
ghost use Rattle.mb_frames.specs.declared.task.Task.TheVariants as t;
ghost use Rattle.mb_world.specs.Ids.{ObjIn};
ghost use Rattle.mb_base.specs.declared.value.Value.{Value};
ghost use Rattle.mb_frames.specs.declared.task.Context.{Context};
ghost use Rattle.mb_frames.specs.declared.task.Method.{Method};
ghost use Rattle.std.specs.Prelude.{◌≡◌, Bool, List, Some};
ghost use Rattle.mb_frames.specs.Told.{told_at};

use mb_base::{NodeId, ObjId, Side};
use mb_frames::{Frame, Machine, Task, form_at};
use mb_intrinsics::places::{
    ARRAY, ARRAY_IS_ARRAY, ARRAY_PROTOTYPE, ERROR, ERROR_PROTOTYPE, FUNCTION_PROTOTYPE_APPLY,
    LABELLED, LATER, OBJECT, OBJECT_GET_OWN_PROPERTY_DESCRIPTOR, OBJECT_GET_OWN_PROPERTY_SYMBOLS,
    PRINT, PROXY, PROXY_REVOCABLE, REFLECT, REFLECT_APPLY, REFLECT_SET_PROTOTYPE_OF, STRING,
    SYMBOL,
};
use mb_tree::Form;
use mb_world::{CellKind, World};

/// Which step crate does the step of a frame. Nobody does those of collections yet, nor those of the membrane, which a
/// joined world hasn't.
#[derive(Clone, Copy, Debug, PartialEq, Eq)]
pub(crate) enum Owner {
    Expressions,
    Statements,
    Calls,
    Intrinsics,
    Reflecting,
    Arrays,
    Proxies,
    Nobody,
}

/// Who does the next step of a machine.
pub(crate) fn owner_of_top(w: &World, m: &Machine) -> Owner
    requires { IsReadyMachine w.now m.now }
    ensures { IsTopOf w.now result m.entry.now.stack.items }
{
    match m.stack.last() {
        Some(top) => owner_of_frame(w, top.home, &top.frame),
        None => Owner::Nobody,
    }
}

// An entry is made here in a joined world alone.
fn owner_of_frame(w: &World, home: Side, frame: &Frame) -> Owner
    requires runs { CanRun w.now home }
    requires ids { AreIn w.now (frame_held frame.now) }
    ensures { Belongs w.now result (at_home home frame.now) }
{
    match frame {
        Frame::Begin(task) => owner_of_task(w, home, task),
        Frame::Begun(task) => owner_of_begun(w, home, task),
        Frame::Anew(task) => owner_of_task(w, home, task),
        Frame::Expr(_) => Owner::Expressions,
        Frame::Stmt(_) => Owner::Statements,
        Frame::Call(_) => Owner::Calls,
        Frame::Reflect(_) => Owner::Reflecting,
        Frame::Array(_) => Owner::Arrays,
        Frame::Proxy(_) => Owner::Proxies,
        Frame::Entry(_) => owner_of_entry(w),
        Frame::Collect(_) => Owner::Nobody,
        Frame::Membrane(_) => Owner::Nobody,
    }
}

fn owner_of_entry(w: &World) -> Owner
    ensures { OwnsEntry w.now result }
{
    if w.joined() {
        Owner::Calls
    } else {
        Owner::Nobody
    }
}

// Only methods begin below an entry.
fn owner_of_begun(w: &World, home: Side, task: &Task) -> Owner
    requires runs { CanRun w.now home }
    requires ids { AreIn w.now (task_held task.now) }
    ensures { BegunBelongs w.now result task.now }
{
    match owner_of_task(w, home, task) {
        Owner::Calls => Owner::Calls,
        Owner::Proxies => Owner::Proxies,
        _ => Owner::Nobody,
    }
}

fn owner_of_task(w: &World, home: Side, task: &Task) -> Owner
    requires runs { CanRun w.now home }
    requires ids { AreIn w.now (task_held task.now) }
    ensures { TaskBelongs w.now result home task.now }
{
    match task {
        Task::Evaluate { node, .. } => owner_of_node(w, home, *node),
        Task::Loop { .. } => Owner::Statements,
        Task::Chain { .. } => Owner::Expressions,
        Task::Walk { .. } => Owner::Calls,
        Task::Perform { object, .. } => owner_of_method(w, *object),
        Task::Enter { function, .. } => owner_of_entering(w, *function),
        Task::Run { place, .. } => owner_of_built_in(*place),
        Task::Access { .. } => Owner::Nobody,
        Task::Visit { .. } => Owner::Nobody,
    }
}

fn owner_of_node(w: &World, home: Side, node: NodeId) -> Owner
    requires { CanRun w.now home }
    ensures { (at : Context) → TaskBelongs w.now result home (t.Evaluate node at) }
{
    match form_at(w, home, node) {
        Some(form) => owner_of_form(form),
        None => Owner::Nobody,
    }
}

fn owner_of_form(form: Form<'_>) -> Owner
    ensures { (home : ASide) (d : Data) → OwnsForm result (Some (told_at d home (seen form.entry))) }
{
    match form {
        Form::Script { .. } => Owner::Statements,
        Form::Let { .. } => Owner::Statements,
        Form::Const { .. } => Owner::Statements,
        Form::FunctionDecl { .. } => Owner::Statements,
        Form::Block { .. } => Owner::Statements,
        Form::Empty => Owner::Statements,
        Form::ExprStmt { .. } => Owner::Statements,
        Form::If { .. } => Owner::Statements,
        Form::While { .. } => Owner::Statements,
        Form::DoWhile { .. } => Owner::Statements,
        Form::For { .. } => Owner::Statements,
        Form::Return { .. } => Owner::Statements,
        Form::Throw { .. } => Owner::Statements,
        Form::Break => Owner::Statements,
        Form::Continue => Owner::Statements,
        Form::Try { .. } => Owner::Statements,
        Form::Decl { .. } => Owner::Statements,
        Form::Param { .. } => Owner::Statements,
        Form::Value { .. } => Owner::Nobody,
        Form::Method { .. } => Owner::Nobody,
        Form::Getter { .. } => Owner::Nobody,
        Form::Setter { .. } => Owner::Nobody,
        _ => Owner::Expressions,
    }
}

// A method of a membrane proxy has no steps yet.
fn owner_of_method(w: &World, object: ObjId) -> Owner
    requires { ObjIn w.now object }
    ensures { (method : Method) (viewer : ASide) (enters : Bool) (home : ASide) →
        TaskBelongs w.now result home (t.Perform method object viewer enters) }
{
    match w.cell(object).kind {
        CellKind::Proxy { .. } => Owner::Proxies,
        CellKind::Membrane { .. } => Owner::Nobody,
        _ => Owner::Calls,
    }
}

fn owner_of_entering(w: &World, function: ObjId) -> Owner
    requires { ObjIn w.now function }
    ensures { (this : Value) (arguments : List Value) (home : ASide) →
        TaskBelongs w.now result home (t.Enter function this arguments) }
{
    match w.cell(function).kind {
        CellKind::Revoker(_) => Owner::Proxies,
        CellKind::Membrane { .. } => Owner::Nobody,
        _ => Owner::Calls,
    }
}

// No scope binds the names of collections, whose built-ins have no steps yet.
fn owner_of_built_in(place: u16) -> Owner
    ensures { (this target : Value) (arguments : List Value) (d : Data) (home : ASide) →
        TaskBelongs d result home (t.Run place this arguments target) }
{
    if is_basic(place) {
        Owner::Intrinsics
    } else if is_reflecting(place) {
        Owner::Reflecting
    } else if is_of_arrays(place) {
        Owner::Arrays
    } else if makes_proxies(place) {
        Owner::Proxies
    } else {
        Owner::Nobody
    }
}

fn is_basic(place: u16) -> bool
    ensures { result ≡ basic_place place }
{
    place == PRINT || place == LATER || place == LABELLED || place == STRING || place == SYMBOL
}

fn is_reflecting(place: u16) -> bool
    ensures { result ≡ reflect_place place }
{
    place == OBJECT
        || place == REFLECT
        || place == OBJECT_GET_OWN_PROPERTY_SYMBOLS
        || is_within(ERROR, OBJECT_GET_OWN_PROPERTY_DESCRIPTOR, place)
        || is_within(REFLECT_APPLY, REFLECT_SET_PROTOTYPE_OF, place)
        || is_within(ERROR_PROTOTYPE, FUNCTION_PROTOTYPE_APPLY, place)
}

fn is_of_arrays(place: u16) -> bool
    ensures { result ≡ array_place place }
{
    place == ARRAY || is_within(ARRAY_PROTOTYPE, ARRAY_IS_ARRAY, place)
}

fn makes_proxies(place: u16) -> bool
    ensures { result ≡ proxy_place place }
{
    place == PROXY || place == PROXY_REVOCABLE
}

fn is_within(first: u16, last: u16, place: u16) -> bool
    ensures { result ≡ is_within first last place }
{
    first <= place && place <= last
}

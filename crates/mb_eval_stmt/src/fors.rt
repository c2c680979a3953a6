// `for` (ECMA-262, 14.7.4).
ghost use Rattle.std.specs.Prelude.{◌≡◌, ℕ, Bool, None, Ok, Option, Some, slice_get, true, IfOk, IfSome, ◌++◌, ◌∷◌, []};
ghost use Rattle.mb_base.specs.declared.value.Side.{Side as ASide};
ghost use Rattle.mb_frames.specs.Resolved.{context_in, node_in, outcome_in, task_in};
ghost use Rattle.mb_frames.specs.Rest.Statements.{for_by, for_first_done, for_tested, for_body_ended};
ghost use Rattle.mb_frames.specs.Standing.{forms_at};
ghost use Rattle.mb_frames.specs.Stepping.{Step, Sure, Written};
ghost use Rattle.mb_frames.specs.declared.task.Task.TheVariants as t;
ghost use Rattle.mb_model.specs.Meaning.{finished, row};
ghost use Rattle.mb_model.specs.Nodes.Statements.{for_row, enter_if, copy_if, for_begun, for_turn, for_body, for_next, for_last, for_again};
ghost use Rattle.mb_model.specs.Task.{Answer as AnAnswer};
ghost use Rattle.mb_model.specs.Writing.{Does, give};
ghost use Rattle.mb_model.specs.Task.{Nothing};
ghost use Rattle.mb_world.specs.Data.{Data};
ghost use Rattle.mb_world.specs.Form.{ForForm};
ghost use Rattle.mb_world.specs.Ids.{HasItsIds, ScopeIn};
ghost use Rattle.mb_world.specs.Image.{names_of};
ghost use Rattle.mb_world.specs.Value.{Val};
ghost use Rattle.mb_frames.specs.Running.{CanRun};
ghost use Rattle.mb_frames.specs.Going.{Enters};
ghost use Rattle.mb_eval_stmt.specs.machine.Plain.{IsFor, OutcomeIn};
ghost use Rattle.mb_parts.specs.Standing.{ContextIn};
ghost use Rattle.mb_frames.specs.Held.{HeldNodeIf};
ghost use Rattle.mb_frames.specs.Holding.{outcome_held, task_held};
ghost use Rattle.mb_frames.specs.Kinds.{Statement};
ghost use Rattle.mb_frames.specs.Told.{IsNodeOf};
ghost use Rattle.mb_frames.specs.Ready.{Holds, Keeps, Leaves};
ghost use Rattle.mb_frames.specs.Sorts.{ACompletion};
ghost use Rattle.mb_frames.specs.Keeping.{KeepsOn, scope_held};
ghost use Rattle.mb_eval_stmt.specs.machine.Keeping.{context_held};

use crate::loops::{goes_round, leaves};
use crate::scopes::{copy_scope, enter_scope};
use mb_base::{Fuel, NodeId, ScopeId, Side};
use mb_frames::{Answer, Context, Frame, Halt, Move, Outcome, StmtFrame, Task, declares, form_at};
use mb_tree::Form;
use mb_world::World;

// The parts of a `for` behind its first one, and whether that one is a `let`.
#[derive(Clone, Copy)]
pub(crate) struct ForParts {
    lets: bool,
    test: Option<NodeId>,
    last: Option<NodeId>,
    body: NodeId,
}

// The parts of a node that is a `for`.
fn for_parts(w: &World, home: Side, node: NodeId) -> Option<ForParts>
    requires { CanRun w.now home }
    ensures parts { IfSome result (IsFor w.now home node) }
    ensures none { result ≡ None →
        (p : Bool → Option ℕ → Option ℕ → ℕ → Does AnAnswer) →
        for_by (forms_at w.now home) p (slice_get (forms_at w.now home) node.0) ≡ give Nothing }
{
    match form_at(w, home, node) {
        Some(
            Form::For {
                first,
                test,
                last,
                body,
            },
        ) => Some(ForParts {
            lets: declares(w, home, first),
            test,
            last,
            body,
        }),
        _ => None,
    }
}

// A `for` begins.
pub(crate) fn for_row(
    w: &mut World,
    fuel: &mut Fuel,
    home: Side,
    at: Context,
    node: NodeId,
    first: Option<NodeId>,
) -> Result<Move, Halt>
    requires world { CanRun w.old home }
    requires context { ContextIn w.old at }
    ensures row { (test last : Option ℕ) (body : ℕ) →
        slice_get (forms_at w.old home) node.0 ≡ Some (ForForm (node_in first) test last body) →
        (begun : Bool) (l : Written) → Step home begun result w.old w.new fuel.old fuel.new l l
        (for_row (context_in (names_of w.old) home.0 at) node.0 (node_in first) test last body finished) }
    ensures keeps { Keeps home ACompletion (task_held (t.Loop node at) ++ HeldNodeIf first ∷ []) result w.old w.new }
{
    let lets = declares(w, home, first);
    let scope = enter_if(w, fuel, home, lets, at.scope, node)?;
    let at = Context { scope, ..at };
    match first {
        Some(first) => Ok(Move::Wait(
            Frame::Stmt(StmtFrame::ForFirst { at, node }),
            Task::Evaluate { node: first, at },
        )),
        None => for_first_done(w, fuel, home, at, node),
    }
}

// A `for` with `let` has a scope of its own.
fn enter_if(
    w: &mut World,
    fuel: &mut Fuel,
    home: Side,
    lets: bool,
    scope: ScopeId,
    node: NodeId,
) -> Result<ScopeId, Halt>
    requires world { CanRun w.old home }
    requires scope { ScopeIn w.old scope }
    ensures enters { (this : Val) → Enters result w.old w.new fuel.old fuel.new
        (enter_if (record { side = home.0; scope = scope.0; this = this }) lets node.0) }
    ensures keeps { IsNodeOf w.old home Statement node →
        KeepsOn home (scope_held scope) scope_held result w.old w.new }
    ensures scope { IfOk result (ScopeIn w.new) }
    ensures ids { HasItsIds w.new }
{
    if lets {
        enter_scope(w, fuel, home, scope, node)
    } else {
        let _texts = w.texts();
        Ok(scope)
    }
}

// It is copied for each turn.
fn copy_if(w: &mut World, fuel: &mut Fuel, lets: bool, scope: ScopeId) -> Result<ScopeId, Halt>
    requires scope { ScopeIn w.old scope }
    ensures enters { Enters result w.old w.new fuel.old fuel.new (copy_if lets scope.0) }
    ensures keeps { (home : ASide) → KeepsOn home (scope_held scope) scope_held result w.old w.new }
    ensures scope { IfOk result (ScopeIn w.new) }
    ensures ids { HasItsIds w.new }
{
    if lets {
        copy_scope(w, fuel, scope)
    } else {
        let _texts = w.texts();
        Ok(scope)
    }
}

// The first part of a `for` is done.
pub(crate) fn for_first_done(
    w: &mut World,
    fuel: &mut Fuel,
    home: Side,
    at: Context,
    node: NodeId,
) -> Result<Move, Halt>
    requires world { CanRun w.old home }
    requires context { ContextIn w.old at }
    ensures row { (begun : Bool) (l : Written) → Step home begun result w.old w.new fuel.old fuel.new l l
        (for_first_done (forms_at w.old home) (context_in (names_of w.old) home.0 at) node.0 finished) }
    ensures keeps { Keeps home ACompletion (context_held at) result w.old w.new }
{
    match for_parts(w, home, node) {
        Some(parts) => {
            let scope = copy_if(w, fuel, parts.lets, at.scope)?;
            Ok(for_turn(Context { scope, ..at }, node, parts))
        }
        None => Ok(Move::Done(Outcome::Normal(Answer::Nothing))),
    }
}

// A turn of a `for`.
fn for_turn(at: Context, node: NodeId, parts: ForParts) -> Move
    ensures row { (home : ASide) (d : Data) → ContextIn d at → IsFor d home node parts →
        Sure home d (for_turn (context_in (names_of d) home.0 at) node.0 parts.lets (node_in parts.test)
        (node_in parts.last) parts.body.0 finished) result }
    ensures leaves { (home : ASide) (d : Data) → Holds d home (context_held at) → IsFor d home node parts →
        Leaves d home ACompletion result }
{
    match parts.test {
        Some(test) => Move::Wait(
            Frame::Stmt(StmtFrame::ForTest { at, node }),
            Task::Evaluate { node: test, at },
        ),
        None => for_body(at, node, parts, true),
    }
}

// The test of a `for` gave its value, or there is none.
fn for_body(at: Context, node: NodeId, parts: ForParts, test: bool) -> Move
    ensures row { (home : ASide) (d : Data) → ContextIn d at → IsFor d home node parts →
        Sure home d (for_body (context_in (names_of d) home.0 at) node.0 parts.lets (node_in parts.last)
        parts.body.0 test finished) result }
    ensures leaves { (home : ASide) (d : Data) → Holds d home (context_held at) → IsFor d home node parts →
        Leaves d home ACompletion result }
{
    if test {
        Move::Wait(
            Frame::Stmt(StmtFrame::ForBody { at, node }),
            Task::Evaluate {
                node: parts.body,
                at,
            },
        )
    } else {
        Move::Done(Outcome::Normal(Answer::Nothing))
    }
}

// The next turn of a `for`.
pub(crate) fn loop_row(w: &World, home: Side, at: Context, node: NodeId) -> Move
    requires world { CanRun w.now home }
    requires context { ContextIn w.now at }
    ensures row { Sure home w.now (row (task_in (names_of w.now) home.0 (t.Loop node at))) result }
    ensures leaves { Holds w.now home (context_held at) → Leaves w.now home ACompletion result }
{
    match for_parts(w, home, node) {
        Some(parts) => for_turn(at, node, parts),
        None => Move::Done(Outcome::Normal(Answer::Nothing)),
    }
}

// The test of a `for` gave its value.
pub(crate) fn for_tested(w: &World, home: Side, at: Context, node: NodeId, test: bool) -> Move
    requires world { CanRun w.now home }
    requires context { ContextIn w.now at }
    ensures row { Sure home w.now
        (for_tested (forms_at w.now home) (context_in (names_of w.now) home.0 at) node.0 test finished) result }
    ensures leaves { Holds w.now home (context_held at) → Leaves w.now home ACompletion result }
{
    match for_parts(w, home, node) {
        Some(parts) => for_body(at, node, parts, test),
        None => Move::Done(Outcome::Normal(Answer::Nothing)),
    }
}

// The body of a `for` ended.
pub(crate) fn for_body_ended(
    w: &mut World,
    fuel: &mut Fuel,
    home: Side,
    at: Context,
    node: NodeId,
    outcome: Outcome,
) -> Result<Move, Halt>
    requires world { CanRun w.old home }
    requires context { ContextIn w.old at }
    requires outcome { OutcomeIn w.old outcome }
    ensures row { (l : Written) → Step home true result w.old w.new fuel.old fuel.new l l
        (for_body_ended (forms_at w.old home) (context_in (names_of w.old) home.0 at) node.0
        (outcome_in (names_of w.old) outcome) finished) }
    ensures keeps { Keeps home ACompletion (context_held at ++ outcome_held outcome) result w.old w.new }
{
    match for_parts(w, home, node) {
        Some(parts) => {
            if goes_round(&outcome) {
                for_next(w, fuel, at, node, parts)
            } else {
                Ok(leaves(outcome))
            }
        }
        None => Ok(Move::Done(Outcome::Normal(Answer::Nothing))),
    }
}

// A `for` goes on behind its body.
fn for_next(
    w: &mut World,
    fuel: &mut Fuel,
    at: Context,
    node: NodeId,
    parts: ForParts,
) -> Result<Move, Halt>
    requires context { ContextIn w.old at }
    ensures row { (home : ASide) → IsFor w.old home node parts → CanRun w.old home →
        (l : Written) → Step home true result w.old w.new fuel.old fuel.new l l
        (for_next (context_in (names_of w.old) home.0 at) node.0 parts.lets (node_in parts.last) finished) }
    ensures keeps { (home : ASide) → IsFor w.old home node parts →
        Keeps home ACompletion (context_held at) result w.old w.new }
{
    let copy = copy_if(w, fuel, parts.lets, at.scope)?;
    let at = Context { scope: copy, ..at };
    match parts.last {
        Some(last) => Ok(Move::Wait(
            Frame::Stmt(StmtFrame::ForLast { at, node }),
            Task::Evaluate { node: last, at },
        )),
        None => Ok(for_again(at, node)),
    }
}

// A `for` goes round.
pub(crate) fn for_again(at: Context, node: NodeId) -> Move
    ensures row { (home : ASide) (d : Data) (f : ℕ) (l : Written) → ContextIn d at →
        Step home true (Ok result) d d f f l l (for_again (context_in (names_of d) home.0 at) node.0 finished) }
    ensures leaves { (home : ASide) (d : Data) → Holds d home (task_held (t.Loop node at)) →
        Leaves d home ACompletion result }
{
    Move::Anew(Task::Loop { node, at })
}

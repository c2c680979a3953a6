// `try`, `catch` and `finally` (ECMA-262, 14.15.3).
ghost use Rattle.std.specs.Prelude.{◌≡◌, Bool, None, Some, slice_get, IfOk, IfSome, ◌++◌, ◌∷◌, []};
ghost use Rattle.mb_base.specs.declared.value.Side.{Side as ASide};
ghost use Rattle.mb_frames.specs.Resolved.{context_in, node_in, outcome_in, label_in};
ghost use Rattle.mb_frames.specs.Rest.Statements.{try_ended};
ghost use Rattle.mb_frames.specs.Standing.{forms_at};
ghost use Rattle.mb_frames.specs.Stepping.{Step, Sure, Written};
ghost use Rattle.mb_model.specs.Meaning.{finished};
ghost use Rattle.mb_model.specs.Nodes.Evaluation.{Context as AContext};
ghost use Rattle.mb_model.specs.Nodes.Statements.{catch, catch_scope, finally, finally_ended};
ghost use Rattle.mb_model.specs.Task.{Outcome as AnOutcome};
ghost use Rattle.mb_model.specs.Writing.{pass};
ghost use Rattle.mb_world.specs.Data.{Data, program_of};
ghost use Rattle.mb_world.specs.FormOf.{name_at};
ghost use Rattle.mb_world.specs.Ids.{Maybe, ScopeIn, ValueIn};
ghost use Rattle.mb_world.specs.Value.{Val};
ghost use Rattle.mb_world.specs.Image.{Resolve, names_of, nodes_in, text_in};
ghost use Rattle.mb_frames.specs.Running.{CanRun};
ghost use Rattle.mb_frames.specs.Told.{IsNamed};
ghost use Rattle.mb_frames.specs.Told.{shapes_of};
ghost use Rattle.mb_frames.specs.Going.{Enters};
ghost use Rattle.mb_eval_stmt.specs.machine.Plain.{OutcomeIn};
ghost use Rattle.mb_parts.specs.Standing.{ContextIn};
ghost use Rattle.mb_eval_stmt.specs.machine.Tries.{IsTry, caught_in};
ghost use Rattle.mb_frames.specs.Held.{HeldScope, HeldValue};
ghost use Rattle.mb_frames.specs.Holding.{outcome_held, stmt_held};
ghost use Rattle.mb_frames.specs.Ready.{Holds, Keeps, Leaves};
ghost use Rattle.mb_frames.specs.Sorts.{ACompletion};
ghost use Rattle.mb_frames.specs.declared.statements.StmtFrame.TheVariants as stmt;
ghost use Rattle.mb_frames.specs.Keeping.{KeepsOn, scope_held};
ghost use Rattle.mb_eval_stmt.specs.machine.Keeping.{context_held};

use crate::scopes::enter_scope;
use mb_base::{Fuel, NodeId, ScopeId, Side, StrId, Value};
use mb_frames::{Context, Frame, Halt, Move, Outcome, StmtFrame, Task, form_at, name_of};
use mb_parts::initialize;
use mb_tree::Form;
use mb_world::World;

// The parts of a `try` behind its block.
#[derive(Clone, Copy)]
pub(crate) struct TryParts {
    caught: Option<NodeId>,
    handler: Option<NodeId>,
    ending: Option<NodeId>,
}

// The parts of a node that is a `try`.
fn try_parts(w: &World, home: Side, node: NodeId) -> Option<TryParts>
    requires { CanRun w.now home }
    ensures parts { IfSome result (IsTry w.now home node) }
    ensures none { result ≡ None → (c : AContext) (y : AnOutcome) →
        try_ended (forms_at w.now home) c node.0 y ≡ pass y }
{
    match form_at(w, home, node) {
        Some(
            Form::Try {
                caught,
                handler,
                ending,
                ..
            },
        ) => Some(TryParts {
            caught,
            handler,
            ending,
        }),
        _ => None,
    }
}

// The block of a `try` ended.
pub(crate) fn try_ended(
    w: &mut World,
    fuel: &mut Fuel,
    home: Side,
    at: Context,
    node: NodeId,
    outcome: Outcome,
) -> Result<Move, Halt>
    requires world { CanRun w.old home }
    requires context { ContextIn w.old at }
    requires outcome { OutcomeIn w.old outcome }
    ensures row { (begun : Bool) (l : Written) → Step home begun result w.old w.new fuel.old fuel.new l l
        (try_ended (forms_at w.old home) (context_in (names_of w.old) home.0 at) node.0
        (outcome_in (names_of w.old) outcome) finished) }
    ensures keeps { Keeps home ACompletion (context_held at ++ outcome_held outcome) result w.old w.new }
{
    match try_parts(w, home, node) {
        Some(parts) => match outcome {
            Outcome::Throw(x) => catch(w, fuel, home, at, node, parts, x),
            Outcome::Normal(answer) => Ok(finally(at, parts.ending, Outcome::Normal(answer))),
            Outcome::Return(x) => Ok(finally(at, parts.ending, Outcome::Return(x))),
            Outcome::Break => Ok(finally(at, parts.ending, Outcome::Break)),
            Outcome::Continue => Ok(finally(at, parts.ending, Outcome::Continue)),
        },
        None => Ok(Move::Done(outcome)),
    }
}

// What was thrown is caught, where there is a handler.
fn catch(
    w: &mut World,
    fuel: &mut Fuel,
    home: Side,
    at: Context,
    node: NodeId,
    parts: TryParts,
    x: Value,
) -> Result<Move, Halt>
    requires world { CanRun w.old home }
    requires context { ContextIn w.old at }
    requires value { ValueIn w.old x }
    requires parts { IsTry w.old home node parts }
    ensures row { (begun : Bool) (l : Written) → Step home begun result w.old w.new fuel.old fuel.new l l
        (catch (context_in (names_of w.old) home.0 at) node.0 (caught_in w.old home parts) (node_in parts.handler)
        (node_in parts.ending) (Resolve (names_of w.old) x) finished) }
    ensures keeps { Keeps home ACompletion (context_held at ++ HeldValue x ∷ []) result w.old w.new }
{
    match parts.handler {
        Some(handler) => {
            let scope = catch_scope(w, fuel, home, at.scope, node, parts, x)?;
            Ok(Move::Wait(
                Frame::Stmt(StmtFrame::Handler {
                    at,
                    ending: parts.ending,
                }),
                Task::Evaluate {
                    node: handler,
                    at: Context { scope, ..at },
                },
            ))
        }
        None => Ok(finally(at, parts.ending, Outcome::Throw(x))),
    }
}

// The scope of the name of a `catch`, which is given; where it has none, that of the `try`.
fn catch_scope(
    w: &mut World,
    fuel: &mut Fuel,
    home: Side,
    scope: ScopeId,
    node: NodeId,
    parts: TryParts,
    x: Value,
) -> Result<ScopeId, Halt>
    requires world { CanRun w.old home }
    requires scope { ScopeIn w.old scope }
    requires value { ValueIn w.old x }
    requires parts { IsTry w.old home node parts }
    ensures enters { (this : Val) → Enters result w.old w.new fuel.old fuel.new
        (catch_scope (record { side = home.0; scope = scope.0; this = this }) node.0 (caught_in w.old home parts)
        (Resolve (names_of w.old) x)) }
    ensures keeps { KeepsOn home (HeldScope scope ∷ HeldValue x ∷ []) scope_held result w.old w.new }
    ensures scope { IfOk result (ScopeIn w.new) }
{
    match parts.caught {
        Some(param) => {
            let name = name_of(w, home, param);
            let inner = enter_scope(w, fuel, home, scope, node)?;
            initialize(w, inner, name, x)?;
            Ok(inner)
        }
        None => Ok(scope),
    }
}

// The `finally` of a `try` follows, where it has one.
pub(crate) fn finally(at: Context, ending: Option<NodeId>, outcome: Outcome) -> Move
    ensures row { (home : ASide) (d : Data) → ContextIn d at → OutcomeIn d outcome →
        Sure home d
        (finally (context_in (names_of d) home.0 at) (node_in ending) (outcome_in (names_of d) outcome) finished)
        result }
    ensures leaves { (home : ASide) (d : Data) → Holds d home (stmt_held (stmt.Handler at ending)) →
        Holds d home (outcome_held outcome) → Leaves d home ACompletion result }
{
    match ending {
        Some(ending) => Move::Wait(
            Frame::Stmt(StmtFrame::Ending { outcome }),
            Task::Evaluate { node: ending, at },
        ),
        None => Move::Done(outcome),
    }
}

// The `finally` of a `try` ended; `outcome` is how the rest had ended.
pub(crate) fn finally_ended(outcome: Outcome, ending: Outcome) -> Move
    ensures row { (home : ASide) (d : Data) → OutcomeIn d outcome → OutcomeIn d ending →
        Sure home d (finally_ended (outcome_in (names_of d) outcome) (outcome_in (names_of d) ending) finished) result }
    ensures leaves { (home : ASide) (d : Data) → Holds d home (outcome_held outcome) →
        Holds d home (outcome_held ending) → Leaves d home ACompletion result }
{
    match ending {
        Outcome::Normal(_) => Move::Done(outcome),
        ending => Move::Done(ending),
    }
}

// Expressions that begin.
ghost use Rattle.std.specs.Prelude.{◌≡◌, ℕ, slice_get, true, ◌∷◌};
ghost use Rattle.mb_frames.specs.Resolved.{context_in, task_in};
ghost use Rattle.mb_frames.specs.Rest.Parts.{parts_at};
ghost use Rattle.mb_frames.specs.Standing.{forms_at};
ghost use Rattle.mb_frames.specs.declared.task.Task.TheVariants as TheTask;
ghost use Rattle.mb_model.specs.Meaning.{finished, row};
ghost use Rattle.mb_model.specs.Nodes.Invocations.{call_row};
ghost use Rattle.mb_model.specs.Nodes.References.{innermost};
ghost use Rattle.mb_model.specs.Nodes.Scopes.{find_binding};
ghost use Rattle.mb_model.specs.Nodes.UnaryOperators.{typeof_bound, typeof_of, unary};
ghost use Rattle.mb_model.specs.Writing.{◌>>=◌ as after_that, look};
ghost use Rattle.mb_world.specs.Ids.{TextIn};
ghost use Rattle.mb_world.specs.Image.{names_of, text_in};
ghost use Rattle.mb_frames.specs.Passing.{Part};
ghost use Rattle.mb_parts.specs.Standing.{Acts, ContextIn};
ghost use Rattle.mb_frames.specs.Real.{HasRealNames};
ghost use Rattle.mb_eval_expr.specs.machine.Targets.{layers_at};
ghost use Rattle.mb_frames.specs.Ready.{Holds, IsReady, Keeps};
ghost use Rattle.mb_frames.specs.Sorts.{AValue};
ghost use Rattle.mb_frames.specs.Held.{HeldText, HeldNode};
ghost use Rattle.mb_frames.specs.Kinds.{is_expression, is_call_form};
ghost use Rattle.mb_eval_expr.specs.machine.Keeping.{context_held};

use crate::choices::seq_got;
use crate::elements::array_row;
use crate::first::first;
use crate::functions::{arrow_row, function_row};
use crate::giving::value;
use crate::names::binding;
use crate::operators::{UNDEFINED, typeof_value};
use crate::props::object_row;
use crate::targets::{Target, charge_each, refer, strip};
use crate::using::follow;
use mb_base::{Fuel, NodeId, Side, StrId, Value};
use mb_frames::{After, Context, ExprFrame, Frame, Halt, Move, Reference, Task, form_at};
use mb_parts::{throws, type_error, word};
use mb_tree::{Form, Sign};
use mb_world::{ErrorKind, World};
use std::alloc::Global;

// A call begins with its function: a place gives `this` too (ECMA-262, 13.3.6).
fn call_row(
    w: &mut World,
    fuel: &mut Fuel,
    alloc: Global,
    home: Side,
    at: Context,
    node: NodeId,
    callee: NodeId,
) -> Result<Move, Halt>
    requires acts { Acts w.old home }
    requires at { ContextIn w.old at }
    requires real { HasRealNames w.old }
    ensures row { Part home result w.old w.new fuel.old fuel.new (call_row (context_in (names_of w.old) home.0 at)
        callee.0 (parts_at (forms_at w.old home) node.0) (innermost (layers_at w.old home callee.0)) finished) }
    ensures keeps { Keeps home AValue (HeldNode is_call_form node.0 ∷ HeldNode is_expression callee.0 ∷ context_held at)
        result w.old w.new }
{
    let found = strip(w, home, callee);
    match found.target {
        Target::Member { .. } => refer(w, fuel, alloc, home, at, callee, After::Call { node }),
        Target::Index { .. } => refer(w, fuel, alloc, home, at, callee, After::Call { node }),
        _ => Ok(Move::Wait(
            Frame::Expr(ExprFrame::Callee {
                at,
                node,
                this: Value::Undefined,
            }),
            Task::Evaluate { node: callee, at },
        )),
    }
}

// `typeof` of a name that no scope binds is no error (ECMA-262, 13.5.3).
fn typeof_name(w: &mut World, home: Side, at: Context, name: StrId) -> Result<Move, Halt>
    requires acts { Acts w.old home }
    requires at { ContextIn w.old at }
    requires real { HasRealNames w.old }
    requires name { TextIn w.old name }
    ensures row { (f : ℕ) → Part home result w.old w.new f f (after_that
        (look (λ g. find_binding g at.scope.0 (text_in (names_of w.old) name))) (typeof_bound home.0) finished) }
    ensures keeps { Keeps home AValue (HeldText name ∷ context_held at) result w.old w.new }
{
    match binding(w, at.scope, name) {
        Some(bound) => match bound.value {
            Some(x) => typeof_value(w, home, x),
            None => throws(w, home, ErrorKind::ReferenceError),
        },
        None => {
            let text = word(w, &UNDEFINED)?;
            Ok(value(Value::Text(text)))
        }
    }
}

// `typeof` begins: a name is read without an error.
fn typeof_row(
    w: &mut World,
    fuel: &mut Fuel,
    home: Side,
    at: Context,
    operand: NodeId,
) -> Result<Move, Halt>
    requires acts { Acts w.old home }
    requires at { ContextIn w.old at }
    requires real { HasRealNames w.old }
    ensures row { Part home result w.old w.new fuel.old fuel.new (typeof_of (context_in (names_of w.old) home.0 at)
        operand.0 (innermost (layers_at w.old home operand.0)) finished) }
    ensures keeps { Keeps home AValue (HeldNode is_expression operand.0 ∷ context_held at) result w.old w.new }
{
    let found = strip(w, home, operand);
    match found.target {
        Target::Name(name) => match charge_each(fuel, found.nodes) {
            Ok(()) => typeof_name(w, home, at, name),
            Err(_) => Err(Halt::Spent),
        },
        _ => Ok(Move::Wait(
            Frame::Expr(ExprFrame::Typeof),
            Task::Evaluate { node: operand, at },
        )),
    }
}

// An operator with one operand begins.
fn unary_row(
    w: &mut World,
    fuel: &mut Fuel,
    alloc: Global,
    home: Side,
    at: Context,
    sign: Sign,
    operand: NodeId,
) -> Result<Move, Halt>
    requires acts { Acts w.old home }
    requires at { ContextIn w.old at }
    requires real { HasRealNames w.old }
    ensures row { Part home result w.old w.new fuel.old fuel.new
        (unary (context_in (names_of w.old) home.0 at) sign operand.0 finished) }
    ensures keeps { Keeps home AValue (HeldNode is_expression operand.0 ∷ context_held at) result w.old w.new }
{
    match sign {
        Sign::Typeof => typeof_row(w, fuel, home, at, operand),
        Sign::Delete => refer(w, fuel, alloc, home, at, operand, After::Delete),
        Sign::Not => Ok(Move::Wait(
            Frame::Expr(ExprFrame::Not),
            Task::Evaluate { node: operand, at },
        )),
        Sign::Minus => Ok(Move::Wait(
            Frame::Expr(ExprFrame::Negate),
            Task::Evaluate { node: operand, at },
        )),
        _ => type_error(w, home),
    }
}

// An expression begins, its unit being paid.
pub(crate) fn begin(
    w: &mut World,
    fuel: &mut Fuel,
    alloc: Global,
    home: Side,
    node: NodeId,
    at: Context,
) -> Result<Move, Halt>
    requires acts { Acts w.old home }
    requires at { ContextIn w.old at }
    requires real { HasRealNames w.old }
    requires ready { IsReady w.old }
    requires holds { Holds w.old home (context_held at) }
    requires begun { is_expression (slice_get (forms_at w.old home) node.0) ≡ true }
    ensures row { Part home result w.old w.new fuel.old fuel.new
        (row (task_in (names_of w.old) home.0 (TheTask.Evaluate node at))) }
    ensures keeps { Keeps home AValue (context_held at) result w.old w.new }
{
    match form_at(w, home, node) {
        Some(form) => match form {
            Form::Name { name } => follow(w, alloc, home, at, After::Get, Reference::Name(name)),
            Form::Assign { target, value } => {
                refer(w, fuel, alloc, home, at, target, After::Assign { value })
            }
            Form::Compound {
                sign,
                target,
                value,
            } => {
                let after = After::Compound { sign, value };
                refer(w, fuel, alloc, home, at, target, after)
            }
            Form::Update {
                plus,
                prefix,
                target,
            } => {
                let after = After::Update { plus, prefix };
                refer(w, fuel, alloc, home, at, target, after)
            }
            Form::Call { callee, .. } => call_row(w, fuel, alloc, home, at, node, callee),
            Form::Seq { .. } => seq_got(w, home, at, node, 0, Value::Undefined),
            Form::Unary { sign, operand } => unary_row(w, fuel, alloc, home, at, sign, operand),
            Form::ArrayLit { .. } => array_row(w, home, at, node),
            Form::ObjectLit { .. } => object_row(w, fuel, home, at, node),
            Form::Function { name, parts } => {
                let params = parts.params.len();
                function_row(w, fuel, alloc, home, at, node, name, params)
            }
            Form::Arrow { parts, .. } => {
                let params = parts.params.len();
                arrow_row(w, home, at, node, params)
            }
            form => Ok(first(form, node, at)),
        },
        None => unreachable!(),
    }
}

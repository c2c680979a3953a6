// What is inside the Groups around an operand (ECMA-262, 13.2.9), and references (6.2.5).
ghost use Rattle.std.specs.Prelude.{◌≡◌, ◌+◌, ◌<◌, ◌↔◌, ℕ, IsErr, OnErr, OnOk, Option, Some, length, ◌++◌};
ghost use Rattle.mb_frames.specs.Held.{AreIn};
ghost use Rattle.mb_frames.specs.Holding.{after_held};
ghost use Rattle.mb_frames.specs.Resolved.{context_in};
ghost use Rattle.mb_frames.specs.Rest.Expressions.{after_rest};
ghost use Rattle.mb_frames.specs.Standing.{forms_at};
ghost use Rattle.mb_model.specs.Meaning.{finished};
ghost use Rattle.mb_model.specs.Nodes.References.{innermost, refer, reference};
ghost use Rattle.mb_model.specs.Writing.{◌>>=◌ as after_that};
ghost use Rattle.mb_base.specs.declared.value.Side.{Side as ASide};
ghost use Rattle.mb_tree.specs.Seen.{seen};
ghost use Rattle.mb_world.specs.Data.{Data};
ghost use Rattle.mb_world.specs.Form.{Form as FormOfNode};
ghost use Rattle.mb_world.specs.Image.{names_of};
ghost use Rattle.mb_frames.specs.Told.{FormIn, told_at, IsNodeOf};
ghost use Rattle.mb_frames.specs.Running.{CanRun};
ghost use Rattle.mb_frames.specs.Passing.{Part};
ghost use Rattle.mb_parts.specs.Standing.{Acts, ContextIn};
ghost use Rattle.mb_frames.specs.Real.{HasRealNames};
ghost use Rattle.mb_eval_expr.specs.machine.Targets.{TargetIn, layers_at, targeted};
ghost use Rattle.mb_frames.specs.Ready.{Keeps, Holds};
ghost use Rattle.mb_frames.specs.Sorts.{AValue};
ghost use Rattle.mb_frames.specs.Grammatical.{HasItsParts};
ghost use Rattle.mb_eval_expr.specs.machine.Keeping.{context_held, target_held};

use crate::using::follow;
use mb_base::{Fuel, NodeId, Side, Spent, StrId};
use mb_frames::{After, Context, ExprFrame, Frame, Halt, Move, Reference, Task, form_at};
use mb_parts::type_error;
use mb_tree::Form;
use mb_world::World;
use std::alloc::Global;

// What an operand is, inside its Groups.
#[derive(Clone, Copy)]
pub(crate) enum Target {
    Name(StrId),
    Member { base: NodeId, name: StrId },
    Index { base: NodeId, key: NodeId },
    Other,
}

// What is inside the Groups around a node, and how many nodes that are with it.
#[derive(Clone, Copy)]
pub(crate) struct Inside {
    pub target: Target,
    pub nodes: usize,
}

// How many nodes the script of a side has.
fn count(w: &World, home: Side) -> usize
    requires { CanRun w.now home }
    ensures { result ≡ length (forms_at w.now home) }
{
    match w.program(home) {
        Some(program) => program.tree.nodes.len(),
        None => 0,
    }
}

// What a node is as an operand without Groups.
fn target_of(form: Form<'_>) -> Target
    ensures target { (home : ASide) (d : Data) →
        targeted d result (Some (told_at d home (seen form.entry))) }
    ensures within { (d : Data) → FormIn d (seen form.entry) → TargetIn d result }
    ensures nodes { (home : ASide) (d : Data) → HasItsParts (IsNodeOf d home) (seen form.entry) →
        FormIn d (seen form.entry) → Holds d home (target_held result) }
{
    match form {
        Form::Name { name } => Target::Name(name),
        Form::Member { base, name } => Target::Member { base, name },
        Form::Index { base, key } => Target::Index { base, key },
        _ => Target::Other,
    }
}

// Goes through the Groups around a node.
pub(crate) fn strip(w: &World, home: Side, node: NodeId) -> Inside
    requires { CanRun w.now home }
    ensures target { targeted w.now result.target (innermost (layers_at w.now home node.0)) }
    ensures nodes { result.nodes ≡ length (layers_at w.now home node.0) }
    ensures within { TargetIn w.now result.target }
    ensures held { Holds w.now home (target_held result.target) }
{
    let mut at = node;
    for step in 0..count(w, home) {
        match form_at(w, home, at) {
            Some(form) => match form {
                Form::Group { inner } => at = inner,
                _ => {
                    return Inside {
                        target: target_of(form),
                        nodes: step + 1,
                    };
                }
            },
            None => {
                return Inside {
                    target: Target::Other,
                    nodes: step,
                };
            }
        }
    }
    Inside {
        target: Target::Other,
        nodes: count(w, home),
    }
}

// Takes so many charges of 1, one after the other.
pub(crate) fn charge_each(fuel: &mut Fuel, charges: usize) -> Result<(), Spent>
    ensures spent { IsErr result ↔ (fuel.old < charges) }
    ensures paid { OnOk result (fuel.new + charges ≡ fuel.old) }
    ensures left { OnErr result (fuel.new ≡ 0) }
{
    for paid in 0..charges {
        fuel.charge(1)?;
    }
    Ok(())
}

// What follows where the Groups around a reference are paid.
fn referred(
    w: &mut World,
    alloc: Global,
    home: Side,
    at: Context,
    after: After,
    target: Target,
) -> Result<Move, Halt>
    requires acts { Acts w.old home }
    requires at { ContextIn w.old at }
    requires real { HasRealNames w.old }
    requires after { AreIn w.old (after_held after) }
    requires target { TargetIn w.old target }
    ensures row { (f : ℕ) (form : Option FormOfNode) → targeted w.old target form →
        Part home result w.old w.new f f (after_that (reference (context_in (names_of w.old) home.0 at) form)
        (after_rest (forms_at w.old home) (context_in (names_of w.old) home.0 at) after) finished) }
    ensures keeps { Keeps home AValue (context_held at ++ target_held target ++ after_held after) result w.old w.new }
{
    match target {
        Target::Name(name) => follow(w, alloc, home, at, after, Reference::Name(name)),
        Target::Member { base, name } => Ok(Move::Wait(
            Frame::Expr(ExprFrame::MemberBase { at, name, after }),
            Task::Evaluate { node: base, at },
        )),
        Target::Index { base, key } => Ok(Move::Wait(
            Frame::Expr(ExprFrame::IndexBase { at, key, after }),
            Task::Evaluate { node: base, at },
        )),
        Target::Other => type_error(w, home),
    }
}

// A node that is evaluated as a reference, and what follows.
pub(crate) fn refer(
    w: &mut World,
    fuel: &mut Fuel,
    alloc: Global,
    home: Side,
    at: Context,
    node: NodeId,
    after: After,
) -> Result<Move, Halt>
    requires acts { Acts w.old home }
    requires at { ContextIn w.old at }
    requires real { HasRealNames w.old }
    requires after { AreIn w.old (after_held after) }
    ensures row { Part home result w.old w.new fuel.old fuel.new (after_that
        (refer (context_in (names_of w.old) home.0 at) node.0)
        (after_rest (forms_at w.old home) (context_in (names_of w.old) home.0 at) after) finished) }
    ensures keeps { Keeps home AValue (context_held at ++ after_held after) result w.old w.new }
{
    let found = strip(w, home, node);
    match charge_each(fuel, found.nodes) {
        Ok(()) => referred(w, alloc, home, at, after, found.target),
        Err(_) => Err(Halt::Spent),
    }
}

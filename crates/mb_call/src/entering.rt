// Functions are entered (ECMA-262, 10.2.1, 10.2.11).
ghost use Rattle.std.specs.Prelude.{◌≡◌, ◌∷◌, ◌<◌, [], IfOk, drop, is_some, length, map, slice_get, true, unwrap_or};
ghost use Rattle.std.specs.Prelude.{IsSomeAnd};
ghost use Rattle.mb_frames.specs.Going.{Changes, Charged, Enters};
ghost use Rattle.mb_frames.specs.Held.{HeldNode, HeldScope, HeldValue, HeldValues};
ghost use Rattle.mb_frames.specs.Holding.{task_held};
ghost use Rattle.mb_frames.specs.Kinds.{is_function_form};
ghost use Rattle.mb_frames.specs.Passing.{Part};
ghost use Rattle.mb_frames.specs.Ready.{KeepsBy};
ghost use Rattle.mb_frames.specs.Resolved.{values_in};
ghost use Rattle.mb_frames.specs.Rest.Parts.{body_at};
ghost use Rattle.mb_frames.specs.Running.{CanRun};
ghost use Rattle.mb_frames.specs.Sorts.{AValue};
ghost use Rattle.mb_frames.specs.Standing.{forms_at};
ghost use Rattle.mb_frames.specs.declared.task.Task.TheVariants as TheTask;
ghost use Rattle.mb_model.specs.Meaning.{finished};
ghost use Rattle.mb_model.specs.Nodes.Functions.{bind_params, enter_form, enter_row};
ghost use Rattle.mb_model.specs.Nodes.Scopes.{declare};
ghost use Rattle.mb_world.specs.Data.{cell_at, program_of};
ghost use Rattle.mb_world.specs.Image.{Resolve, code_in, names_of, object_in};
ghost use Rattle.mb_call.specs.Ours.{Acts, is_entered};
ghost use Rattle.mb_call.specs.Owners.{owner_of};
ghost use Rattle.mb_call.specs.machine.Functions.{entering, own_count, own_name, params_at, this_in};
ghost use Rattle.mb_frames.specs.Keeping.{KeepsAnswer, none_held, scope_held};
ghost use Rattle.mb_parts.specs.Scopes.{bound_by, unbound};

use crate::bodies::{run_body, run_value};
use crate::parts::{body_count, body_part, param_count, param_name};
use crate::shapes::shape_of;
use mb_base::{Fuel, NodeId, ObjId, ScopeId, Side, StrId, Value};
use mb_frames::{Context, Halt, Move, Values};
use mb_parts::{declare_one, initialize, unbound_names};
use mb_world::{CellKind, Code, Names, Scope, World};

// The row of entering a function, at its owner's home.
pub(crate) fn enter_row(
    w: &mut World,
    fuel: &mut Fuel,
    home: Side,
    function: ObjId,
    this: Value,
    arguments: Values,
) -> Result<Move, Halt>
    requires acts { Acts w.old home (task_held (TheTask.Enter function this arguments)) }
    requires entered { IsSomeAnd (cell_at w.old function) (λ c. is_entered c.kind ≡ true) }
    requires home { home ≡ owner_of home (cell_at w.old function) }
    ensures part { Part home result w.old w.new fuel.old fuel.new (enter_row (object_in (names_of w.old) function)
        (Resolve (names_of w.old) this) (values_in (names_of w.old) arguments) finished) }
    ensures keeps { KeepsBy home AValue result w.old w.new }
{
    match w.cell(function).kind {
        CellKind::Function(code) => enter_form(w, fuel, code, this, arguments),
        _ => unreachable!(),
    }
}

// The code of a function is entered: its names are bound in a scope of its own, its parameters get the arguments, the
// functions of its declarations are made, and its body begins.
fn enter_form(
    w: &mut World,
    fuel: &mut Fuel,
    code: Code,
    this: Value,
    arguments: Values,
) -> Result<Move, Halt>
    requires acts { Acts w.old code.side (HeldScope code.scope ∷ HeldNode is_function_form code.node.0
        ∷ HeldValue (this_in code this) ∷ HeldValues arguments ∷ []) }
    ensures part { Part code.side result w.old w.new fuel.old fuel.new (enter_form (code_in (names_of w.old) code)
        (Resolve (names_of w.old) this) (values_in (names_of w.old) arguments)
        (slice_get (forms_at w.old code.side) code.node.0) finished) }
    ensures keeps { KeepsBy code.side AValue result w.old w.new }
{
    match shape_of(w, code.side, code.node) {
        Some(shape) => {
            let scope = enter_names(w, fuel, code, shape.named)?;
            bind_params(w, code.side, code.node, scope, &arguments)?;
            let at = Context {
                scope,
                this: this_of(code, this),
            };
            if shape.block {
                declare(w, code.side, code.node, scope)?;
                run_body(w, code.side, at, code.node, 0)
            } else {
                Ok(run_value(w, code.side, at, code.node))
            }
        }
        None => unreachable!(),
    }
}

// An arrow function keeps the `this` of where it was made.
fn this_of(code: Code, this: Value) -> Value
    ensures { result ≡ this_in code this }
{
    match code.bound_this {
        Some(bound) => bound,
        None => this,
    }
}

// The scope of a function is entered: a unit for each name, none of which is given. Its own name stands in a scope of
// its own already.
fn enter_names(w: &mut World, fuel: &mut Fuel, code: Code, named: bool) -> Result<ScopeId, Halt>
    requires acts { Acts w.old code.side (HeldScope code.scope ∷ HeldNode is_function_form code.node.0 ∷ []) }
    requires named { named ≡ is_some (own_name (slice_get (forms_at w.old code.side) code.node.0)) }
    ensures enters { Enters result w.old w.new fuel.old fuel.new (entering w.old code) }
    ensures keeps { KeepsAnswer code.side scope_held result w.old w.new }
{
    let names = entered_names(w, fuel, code, named)?;
    let scope = w.add_scope(Scope {
        home: code.side,
        parent: Some(code.scope),
        names,
    })?;
    let _texts = w.texts();
    Ok(scope)
}

// The names that entering a function binds.
fn entered_names(w: &World, fuel: &mut Fuel, code: Code, named: bool) -> Result<Names, Halt>
    requires { CanRun w.now code.side }
    ensures names { IfOk result (λ names.
        names ≡ map unbound (drop (own_count named) (bound_by (program_of w.now code.side) code.node))) }
    ensures charged { Charged result fuel.old fuel.new
        (length (drop (own_count named) (bound_by (program_of w.now code.side) code.node))) }
{
    let alloc = *w.trace().allocator();
    match w.program(code.side) {
        Some(program) => {
            let binds = program.scopes.names_at(code.node);
            unbound_names(alloc, fuel, without_own(binds, named))
        }
        None => Ok(Names::new(alloc)),
    }
}

// A named function expression's own name stands first, in a scope of its own.
fn without_own(binds: &[(NodeId, StrId, bool)], named: bool) -> &[(NodeId, StrId, bool)]
    ensures { result.now ≡ drop (own_count named) binds.now }
{
    if named {
        match binds.split_first() {
            Some((_, rest)) => rest,
            None => binds,
        }
    } else {
        binds
    }
}

// Each parameter gets its argument, or undefined.
fn bind_params(
    w: &mut World,
    home: Side,
    node: NodeId,
    scope: ScopeId,
    arguments: &Values,
) -> Result<(), Halt>
    requires acts { Acts w.old home (HeldScope scope ∷ HeldValues arguments.now ∷ []) }
    ensures changes { Changes result w.old w.new
        (bind_params scope.0 (params_at (forms_at w.old home) node.0) (values_in (names_of w.old) arguments.now)) }
    ensures keeps { KeepsAnswer home none_held result w.old w.new }
{
    for place in 0..param_count(w, home, node) {
        match param_name(w, home, node, place) {
            Some(name) => {
                let given = arguments.at(place).unwrap_or(Value::Undefined);
                initialize(w, scope, name, given)?;
            }
            None => unreachable!(),
        }
    }
    Ok(())
}

// The functions of the declarations among the statements of a body are made, in order.
fn declare(w: &mut World, home: Side, node: NodeId, scope: ScopeId) -> Result<(), Halt>
    requires acts { Acts w.old home (scope_held scope) }
    ensures changes { Changes result w.old w.new
        (declare home.0 scope.0 (body_at (forms_at w.old home) node.0)) }
    ensures keeps { KeepsAnswer home none_held result w.old w.new }
{
    for place in 0..body_count(w, home, node) {
        match body_part(w, home, node, place) {
            Some(statement) => declare_one(w, home, scope, statement)?,
            None => unreachable!(),
        }
    }
    Ok(())
}

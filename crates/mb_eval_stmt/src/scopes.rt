// Scopes are entered and copied (ECMA-262, 9.1).
ghost use Rattle.std.specs.Prelude.{◌≡◌, IfOk, length, map};
ghost use Rattle.mb_base.specs.declared.value.Side.{Side as ASide};
ghost use Rattle.mb_frames.specs.Going.{Charged, Enters};
ghost use Rattle.mb_frames.specs.Keeping.{KeepsOn, scope_held};
ghost use Rattle.mb_frames.specs.Kinds.{Statement};
ghost use Rattle.mb_frames.specs.Running.{CanRun};
ghost use Rattle.mb_frames.specs.Told.{IsNodeOf};
ghost use Rattle.mb_model.specs.Nodes.Scopes.{copy_scope, enter_scope};
ghost use Rattle.mb_parts.specs.Scopes.{bound_by, unbound};
ghost use Rattle.mb_world.specs.Data.{program_of};
ghost use Rattle.mb_world.specs.Ids.{HasItsIds, ScopeIn};

use mb_base::{Fuel, NodeId, ScopeId, Side};
use mb_frames::Halt;
use mb_parts::unbound_names;
use mb_world::{Names, Scope, World};
use std::alloc::Global;

// The scope of a node is entered: a unit for each of its names, none of which is given.
pub(crate) fn enter_scope(
    w: &mut World,
    fuel: &mut Fuel,
    home: Side,
    parent: ScopeId,
    node: NodeId,
) -> Result<ScopeId, Halt>
    requires world { CanRun w.old home }
    requires parent { ScopeIn w.old parent }
    ensures enters { Enters result w.old w.new fuel.old fuel.new (enter_scope home.0 parent.0 node.0) }
    ensures keeps { IsNodeOf w.old home Statement node →
        KeepsOn home (scope_held parent) scope_held result w.old w.new }
    ensures scope { IfOk result (ScopeIn w.new) }
    ensures ids { HasItsIds w.new }
    ensures cells { w.new.cells ≡ w.old.cells }
    ensures joined { w.new.joined ≡ w.old.joined }
{
    let names = bound_names(w, fuel, home, node)?;
    let scope = w.add_scope(Scope {
        home,
        parent: Some(parent),
        names,
    })?;
    let _texts = w.texts();
    Ok(scope)
}

// The names that the scope of a node binds.
fn bound_names(w: &World, fuel: &mut Fuel, home: Side, node: NodeId) -> Result<Names, Halt>
    requires { CanRun w.now home }
    ensures names { IfOk result (λ names. names ≡ map unbound (bound_by (program_of w.now home) node)) }
    ensures charged { Charged result fuel.old fuel.new (length (bound_by (program_of w.now home) node)) }
{
    let alloc = *w.trace().allocator();
    match w.program(home) {
        Some(program) => unbound_names(alloc, fuel, program.scopes.names_at(node)),
        None => Ok(Names::new(alloc)),
    }
}

// A copy of a scope: a unit for each of its names.
pub(crate) fn copy_scope(w: &mut World, fuel: &mut Fuel, scope: ScopeId) -> Result<ScopeId, Halt>
    requires { ScopeIn w.old scope }
    ensures enters { Enters result w.old w.new fuel.old fuel.new (copy_scope scope.0) }
    ensures keeps { (home : ASide) → KeepsOn home (scope_held scope) scope_held result w.old w.new }
    ensures scope { IfOk result (ScopeIn w.new) }
    ensures ids { HasItsIds w.new }
{
    let alloc = *w.trace().allocator();
    let old = w.scope(scope);
    let (home, parent) = (old.home, old.parent);
    let names = copied_names(alloc, fuel, &old.names)?;
    let copy = w.add_scope(Scope {
        home,
        parent,
        names,
    })?;
    let _texts = w.texts();
    Ok(copy)
}

// The same names, with their values.
fn copied_names(alloc: Global, fuel: &mut Fuel, old: &Names) -> Result<Names, Halt>
    ensures names { IfOk result (λ names. names ≡ old.now) }
    ensures charged { Charged result fuel.old fuel.new (length old.now) }
{
    let mut names = Names::new(alloc);
    for place in 0..old.len() {
        match old.at(place) {
            Some(bound) => {
                fuel.charge(1)?;
                names.push(bound)?;
            }
            None => unreachable!(),
        }
    }
    Ok(names)
}

// The names of scopes, and how they are given (ECMA-262, 9.1.1.1).
ghost use Rattle.std.specs.Prelude.{◌≡◌, ◌∷◌, [], IfOk, length, map};
ghost use Rattle.mb_base.specs.declared.value.Side.{Side as ASide};
ghost use Rattle.mb_frames.specs.Going.{Changes, Charged};
ghost use Rattle.mb_frames.specs.Held.{HeldScope, HeldText, HeldValue};
ghost use Rattle.mb_frames.specs.Keeping.{KeepsOn, none_held};
ghost use Rattle.mb_model.specs.Nodes.Scopes.{initialize};
ghost use Rattle.mb_parts.specs.Scopes.{is_bound, unbound};
ghost use Rattle.mb_world.specs.Ids.{HasItsIds, ScopeIn, TextIn, ValueIn};
ghost use Rattle.mb_world.specs.Image.{Resolve, names_of, text_in};

use mb_base::{Fuel, NodeId, ScopeId, StrId, Value};
use mb_frames::Halt;
use mb_world::{Bound, Names, World};
use std::alloc::Global;

/// These names, none of which is given; a unit of fuel for each.
pub fn unbound_names(
    alloc: Global,
    fuel: &mut Fuel,
    binds: &[(NodeId, StrId, bool)],
) -> Result<Names, Halt>
    ensures names { IfOk result (λ names. names ≡ map unbound binds.now) }
    ensures charged { Charged result fuel.old fuel.new (length binds.now) }
{
    let mut names = Names::new(alloc);
    for bind in binds {
        fuel.charge(1)?;
        names.push(Bound {
            name: bind.1,
            value: None,
            fixed: bind.2,
        })?;
    }
    Ok(names)
}

/// Gives a name that the scope itself binds its value (InitializeBinding, ECMA-262, 9.1.1.1.4); where the scope doesn't
/// bind it, or it has its value already, nothing changes.
pub fn initialize(w: &mut World, scope: ScopeId, name: StrId, x: Value) -> Result<(), Halt>
    requires scope { ScopeIn w.old scope }
    requires name { TextIn w.old name }
    requires value { ValueIn w.old x }
    ensures changes { Changes result w.old w.new
        (initialize scope.0 (text_in (names_of w.old) name) (Resolve (names_of w.old) x)) }
    ensures keeps { (home : ASide) →
        KeepsOn home (HeldScope scope ∷ HeldText name ∷ HeldValue x ∷ []) none_held result w.old w.new }
    ensures ids { HasItsIds w.new }
    ensures cells { w.new.cells ≡ w.old.cells }
    ensures joined { w.new.joined ≡ w.old.joined }
{
    let _before = w.texts();
    match w.scope(scope).names.place_of(name) {
        Some(place) => {
            if place > u32::MAX as usize {
                return Err(Halt::NoMemory);
            }
            if is_bound(w.scope(scope).names.at(place)) {
                return Ok(());
            }
            w.give(scope, place as u32, x);
            let _after = w.texts();
            Ok(())
        }
        None => Ok(()),
    }
}

// Whether a name has its value.
fn is_bound(bound: Option<Bound>) -> bool
    ensures { result ≡ is_bound bound }
{
    match bound {
        Some(bound) => bound.value.is_some(),
        None => false,
    }
}

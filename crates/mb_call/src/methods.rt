// The internal methods of ordinary objects, arrays and functions (ECMA-262, 10.1 to 10.4), as the policy admits them.
ghost use Rattle.std.specs.Prelude.{◌≡◌, ◌<◌, ◌+◌, ◌↔◌, ◌∷◌, All, IsErr, IfOk, OnErr, OnOk, Some};
ghost use Rattle.mb_base.specs.declared.value.Side.{Side as ASide};
ghost use Rattle.mb_frames.specs.Held.{HeldObject};
ghost use Rattle.mb_frames.specs.Holding.{method_held};
ghost use Rattle.mb_frames.specs.Passing.{Part};
ghost use Rattle.mb_frames.specs.Ready.{KeepsBy, LeavesBy};
ghost use Rattle.mb_frames.specs.Resolved.{keys_of, method_in};
ghost use Rattle.mb_frames.specs.Sorts.{SomeKeys, method_gives};
ghost use Rattle.mb_model.specs.Meaning.{finished, perform_row};
ghost use Rattle.mb_ordinary.specs.Objects.{IsOrdinary};
ghost use Rattle.mb_rules.specs.Seen.{graph_of};
ghost use Rattle.mb_world.specs.Data.{cell_at};
ghost use Rattle.mb_world.specs.Graph.{Thing};
ghost use Rattle.mb_world.specs.Ids.{KeyIn};
ghost use Rattle.mb_world.specs.Image.{names_of, object_at, object_in};
ghost use Rattle.mb_world.specs.View.{shown_keys};
ghost use Rattle.mb_call.specs.Ours.{Acts};
ghost use Rattle.mb_call.specs.machine.Acting.{method_side};
ghost use Rattle.mb_call.specs.Methods.{DoesMethod, IsFree};

use crate::calls::call;
use crate::changing::{define, delete_key, prevent_extensions};
use crate::constructions::construct;
use crate::errors::type_error;
use crate::giving::{keys, property, value, yes_or_no};
use crate::reading::{get, has};
use crate::rulings::{change_of, ruling};
use crate::walk::set_prototype;
use crate::writing::set;
use mb_base::{Fuel, Key, NoMemory, ObjId, Side, Spent};
use mb_frames::{Halt, Method, Move};
use mb_ordinary::{extensible, proto};
use mb_rules::{Ruling, cut, listed, shown};
use mb_world::World;

// The row of a method of an object that is neither a script-made Proxy nor a membrane proxy. Where that is cut off for
// the viewing side it answers with a TypeError; else the policy answers, or the object.
pub(crate) fn perform(
    w: &mut World,
    fuel: &mut Fuel,
    home: Side,
    side: Side,
    viewer: Side,
    object: ObjId,
    method: Method,
) -> Result<Move, Halt>
    requires acts { Acts w.old home (HeldObject object ∷ method_held object method) }
    requires ordinary { IsOrdinary (cell_at w.old object) }
    requires side { side ≡ method_side home method (cell_at w.old object) }
    ensures part { Part side result w.old w.new fuel.old fuel.new (perform_row home.0 viewer.0
        (object_in (names_of w.old) object) (method_in (names_of w.old) method) finished) }
    ensures keeps { KeepsBy side (method_gives method) result w.old w.new }
{
    if cut(w, viewer, object) {
        return type_error(w, home);
    }
    match ruling(w, viewer, object, change_of(&method)) {
        Ruling::Decided(answer) => Ok(yes_or_no(answer)),
        Ruling::Free => ordinary(w, fuel, home, side, viewer, object, method),
    }
}

// The policy leaves the method to the object.
fn ordinary(
    w: &mut World,
    fuel: &mut Fuel,
    home: Side,
    side: Side,
    viewer: Side,
    object: ObjId,
    method: Method,
) -> Result<Move, Halt>
    requires acts { Acts w.old home (HeldObject object ∷ method_held object method) }
    requires ordinary { IsOrdinary (cell_at w.old object) }
    requires side { side ≡ method_side home method (cell_at w.old object) }
    requires free { IsFree w.old viewer object method }
    ensures part { DoesMethod home side viewer object method result w.old w.new fuel.old fuel.new }
    ensures keeps { KeepsBy side (method_gives method) result w.old w.new }
{
    match method {
        Method::GetPrototypeOf => Ok(value(proto(w, object))),
        Method::SetPrototypeOf(given) => set_prototype(w, fuel, object, given),
        Method::IsExtensible => Ok(yes_or_no(extensible(w, object))),
        Method::PreventExtensions => Ok(prevent_extensions(w, object)),
        Method::GetOwnProperty(key) => Ok(property(shown(w, viewer, object, key))),
        Method::DefineOwnProperty(key, given) => define(w, home, object, key, given),
        Method::HasProperty(key) => Ok(has(w, home, viewer, object, key)),
        Method::Get { key, receiver } => Ok(get(w, home, viewer, object, key, receiver)),
        Method::Set {
            key,
            value,
            receiver,
        } => set(w, home, viewer, object, key, value, receiver),
        Method::Delete(key) => Ok(delete_key(w, object, key)),
        Method::OwnPropertyKeys => own_keys(w, fuel, viewer, object),
        Method::Call { this, arguments } => call(w, home, object, this, arguments),
        Method::Construct { arguments, target } => construct(
            w, home, side, object, arguments, target,
        ),
    }
}

/// [[OwnPropertyKeys]] (ECMA-262, 10.1.11) of what a side sees of an object: a unit for each key, and `Spent` where
/// these are not there.
pub fn own_keys(w: &World, fuel: &mut Fuel, viewer: Side, object: ObjId) -> Result<Move, Halt>
    requires object { IsOrdinary (cell_at w.now object) }
    ensures part { (home : ASide) → DoesMethod home home viewer object Method.OwnPropertyKeys result w.now w.now
        fuel.old fuel.new }
    ensures leaves { (home : ASide) → LeavesBy w.now home SomeKeys result }
{
    let found = shown_keys(w, viewer, object)?;
    match charge_each(fuel, found.len()) {
        Ok(()) => Ok(keys(found)),
        Err(_) => Err(Halt::Spent),
    }
}

// The keys of the view.
fn shown_keys(w: &World, viewer: Side, object: ObjId) -> Result<Vec<Key>, NoMemory>
    requires { IsOrdinary (cell_at w.now object) }
    ensures keys { IfOk result (λ ks. (t : Thing) → object_at w.now object ≡ Some t →
        keys_of (names_of w.now) ks.items ≡ shown_keys (graph_of w.now) viewer.0 t) }
    ensures within { IfOk result (λ ks. All (KeyIn w.now) ks.items) }
{
    let all = mb_ordinary::keys(w, object)?;
    let mut found = Vec::new(*all.allocator());
    for key in &all {
        if listed(w, viewer, object, *key) {
            found.push(*key)?;
        }
    }
    Ok(found)
}

// Takes so many charges of 1, one after the other.
fn charge_each(fuel: &mut Fuel, charges: usize) -> Result<(), Spent>
    ensures spent { IsErr result ↔ (fuel.old < charges) }
    ensures paid { OnOk result (fuel.new + charges ≡ fuel.old) }
    ensures left { OnErr result (fuel.new ≡ 0) }
{
    for paid in 0..charges {
        fuel.charge(1)?;
    }
    Ok(())
}

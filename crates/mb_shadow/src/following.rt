// Shadows follow what is seen.
ghost use Rattle.std.specs.Prelude.{◌≡◌, ◌∷◌, [], None, Some, Ok, true, false, map, All, IfSome, IfOk, OnOk, OnErr};
ghost use Rattle.mb_world.specs.Data.{cell_at};
ghost use Rattle.mb_world.specs.Ids.{KeyIn};
ghost use Rattle.mb_world.specs.Image.{names_of, Resolve, key_in, full_in};
ghost use Rattle.mb_world.specs.Key.{PropertyKey};
ghost use Rattle.mb_world.specs.Contained.{PairedFrom};
ghost use Rattle.mb_world.specs.Formed.{IsNullOrObject};
ghost use Rattle.mb_maps.specs.Crossing.{halted};
ghost use Rattle.mb_shadow.specs.Seeing.{CanSee, IsProxy, IsPropertyOf, home_at, shadow_at, view_through};
ghost use Rattle.mb_shadow.specs.Following.{PartIn, IsFollowed, Followed};
ghost use Rattle.mb_shadow.specs.Shadows.{Shadowed, Lean};
ghost use Rattle.mb_shadow.specs.machine.Sights.{IsSight, IsShadow, IsValueOf, is_fixed, held_at, flags_at, Held, Replaced, ReplacedAll, FollowedFrom};

use crate::part::Part;
use crate::seeing::{keys_seen, property_seen, proto_seen};
use crate::sight::{Sight, sight_of};
use mb_base::{Key, NoMemory, ObjId, Value};
use mb_desc::Full;
use mb_rules::shown;
use mb_world::World;

/// The shadow of a proxy follows a part of what its home sees through the proxy. Where the target of a script-made
/// Proxy is gone, nothing changes. After `NoMemory` the world is halted, and the shadow may have followed in part.
pub fn follow(w: &mut World, proxy: ObjId, part: Part) -> Result<(), NoMemory>
    requires proxy { IsProxy (cell_at w.old proxy) }
    requires part { PartIn w.old part }
    requires world { CanSee w.old }

    // what the shadow has
    ensures followed { OnOk result (IsFollowed w.old w.new proxy part) }
    ensures gone { view_through w.old proxy ≡ None → (result ≡ Ok tt) × (w.new ≡ w.old) }
    ensures faithful { Shadowed w.old → OnOk result (Shadowed w.new) }
    ensures lean { Shadowed w.old → Lean w.old → OnOk result (Lean w.new) }

    // what stays, after a refusal too
    ensures stays { Followed w.old w.new (shadow_at w.old proxy) }
    ensures paired { PairedFrom w.old w.new }
    ensures runs { OnOk result (w.new.halted ≡ w.old.halted) }
    ensures halts { OnErr result (w.new.halted ≡ true) }
{
    match sight_of(w, proxy) {
        Some(sight) => match part {
            Part::Key(key) => follow_key(w, sight, key),
            Part::Whole => follow_whole(w, sight),
        },
        None => Ok(()),
    }
}

// An extensible shadow takes what is fixed alone.
fn follow_key(w: &mut World, sight: Sight, key: Key) -> Result<(), NoMemory>
    requires sight { IsSight w.old sight }
    requires key { KeyIn w.old key }
    requires world { CanSee w.old }
    ensures followed { OnOk result (FollowedFrom w.old w.new sight (Part.Key key)) }
    ensures stays { Followed w.old w.new sight.shadow }
    ensures runs { OnOk result (w.new.halted ≡ w.old.halted) }
    ensures halts { OnErr result (w.new.halted ≡ true) }
{
    if w.cell(sight.shadow).extensible && !is_fixed(shown(w, sight.viewer, sight.object, key)) {
        return Ok(());
    }
    replace(w, sight, key)
}

// Only what isn't extensible is kept whole.
fn follow_whole(w: &mut World, sight: Sight) -> Result<(), NoMemory>
    requires sight { IsSight w.old sight }
    requires world { CanSee w.old }
    ensures followed { OnOk result (FollowedFrom w.old w.new sight Part.Whole) }
    ensures stays { Followed w.old w.new sight.shadow }
    ensures runs { OnOk result (w.new.halted ≡ w.old.halted) }
    ensures halts { OnErr result (w.new.halted ≡ true) }
{
    if w.cell(sight.object).extensible {
        return Ok(());
    }
    replace_all(w, sight)?;
    let proto = proto_seen(w, sight)?;
    close(w, sight.shadow, proto);
    Ok(())
}

// A shadow has the prototype, and isn't extensible.
fn close(w: &mut World, shadow: ObjId, proto: Value)
    requires shadow { IsShadow (cell_at w.old shadow) }
    requires proto { IsValueOf w.old (home_at w.old shadow) proto }
    requires kind { IsNullOrObject proto }
    requires world { CanSee w.old }
    ensures closed { flags_at w.new shadow ≡ Some (Resolve (names_of w.old) proto, false) }
    ensures properties { (key : PropertyKey) → held_at w.new shadow key ≡ held_at w.old shadow key }
    ensures stays { Followed w.old w.new shadow }
    ensures runs { w.new.halted ≡ w.old.halted }
{
    w.set_proto(shadow, proto);
    w.close(shadow);
}

// The shadow has what is seen of every key, its own and those that are seen.
fn replace_all(w: &mut World, sight: Sight) -> Result<(), NoMemory>
    requires sight { IsSight w.old sight }
    requires world { CanSee w.old }
    ensures replaced { OnOk result (ReplacedAll w.old w.new sight) }
    ensures stays { Followed w.old w.new sight.shadow }
    ensures runs { OnOk result (w.new.halted ≡ w.old.halted) }
    ensures halts { OnErr result (w.new.halted ≡ true) }
{
    let own = mb_ordinary::keys(w, sight.shadow);
    let own = or_halt(w, own)?;
    let seen = keys_seen(w, sight);
    let seen = or_halt(w, seen)?;
    replace_each(w, sight, &own)?;
    replace_each(w, sight, &seen)
}

// The shadow has what is seen of these keys.
fn replace_each(w: &mut World, sight: Sight, keys: &[Key]) -> Result<(), NoMemory>
    requires sight { IsSight w.old sight }
    requires keys { All (KeyIn w.old) keys.now }
    requires world { CanSee w.old }
    ensures replaced { OnOk result (Replaced w.old w.new sight (map (key_in (names_of w.old)) keys.now)) }
    ensures stays { Followed w.old w.new sight.shadow }
    ensures runs { OnOk result (w.new.halted ≡ w.old.halted) }
    ensures halts { OnErr result (w.new.halted ≡ true) }
{
    for key in keys {
        replace(w, sight, *key)?;
    }
    Ok(())
}

// The shadow has what is seen of the key.
fn replace(w: &mut World, sight: Sight, key: Key) -> Result<(), NoMemory>
    requires sight { IsSight w.old sight }
    requires key { KeyIn w.old key }
    requires world { CanSee w.old }
    ensures replaced { OnOk result (Replaced w.old w.new sight (key_in (names_of w.old) key ∷ [])) }
    ensures stays { Followed w.old w.new sight.shadow }
    ensures runs { OnOk result (w.new.halted ≡ w.old.halted) }
    ensures halts { OnErr result (w.new.halted ≡ true) }
{
    let seen = property_seen(w, sight, key)?;
    match seen {
        Some(property) => put(w, sight.shadow, key, property),
        None => {
            remove(w, sight.shadow, key);
            Ok(())
        }
    }
}

// A shadow has the property.
fn put(w: &mut World, shadow: ObjId, key: Key, property: Full<Value>) -> Result<(), NoMemory>
    requires shadow { IsShadow (cell_at w.old shadow) }
    requires key { KeyIn w.old key }
    requires property { IsPropertyOf w.old (home_at w.old shadow) property }
    requires world { CanSee w.old }
    ensures put { OnOk result (Held w.old w.new shadow (key_in (names_of w.old) key)
        (Some (full_in (names_of w.old) property))) }
    ensures stays { Followed w.old w.new shadow }
    ensures runs { OnOk result (w.new.halted ≡ w.old.halted) }
    ensures halts { OnErr result (w.new.halted ≡ true) }
{
    let put = w.put(shadow, key, property);
    or_halt(w, put)
}

// A shadow lacks the key.
fn remove(w: &mut World, shadow: ObjId, key: Key)
    requires shadow { IsShadow (cell_at w.old shadow) }
    requires key { KeyIn w.old key }
    requires world { CanSee w.old }
    ensures removed { Held w.old w.new shadow (key_in (names_of w.old) key) None }
    ensures stays { Followed w.old w.new shadow }
    ensures runs { w.new.halted ≡ w.old.halted }
{
    if w.cell(shadow).props.get(key).is_some() {
        w.remove(shadow, key);
    }
}

// A refusal halts the world.
fn or_halt<T: Drop>(w: &mut World, got: Result<T, NoMemory>) -> Result<T, NoMemory>
    ensures same { result ≡ got }
    ensures runs { OnOk result (w.new ≡ w.old) }
    ensures halts { OnErr result (w.new ≡ halted w.old) }
{
    if got.is_err() {
        w.halt();
    }
    got
}

// A property that is there and isn't configurable.
fn is_fixed(property: Option<Full<Value>>) -> bool
    ensures { result ≡ is_fixed property }
{
    match property {
        Some(Full::Datum { configurable, .. } | Full::Accessor { configurable, .. }) => {
            !configurable
        }
        None => false,
    }
}

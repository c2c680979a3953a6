// What a side sees through a proxy.
ghost use Rattle.std.specs.Prelude.{◌≡◌, ◌<◌, true, is_some, map, All, IfOk, IfSome, OnOk, OnErr, option_map};
ghost use Rattle.std.specs.Map.{keys_of};
ghost use Rattle.mb_view.specs.Views.{property_of};
ghost use Rattle.mb_world.specs.Key.{same_key};
ghost use Rattle.mb_world.specs.Data.{cell_at};
ghost use Rattle.mb_world.specs.Ids.{KeyIn, ValueIn};
ghost use Rattle.mb_world.specs.Image.{names_of, Resolve, key_in, full_in};
ghost use Rattle.mb_world.specs.Contained.{IsOwn, PairedFrom, in_value};
ghost use Rattle.mb_world.specs.Formed.{IsNullOrObject};
ghost use Rattle.mb_maps.specs.Crossed.{Crossed};
ghost use Rattle.mb_shadow.specs.Seeing.{CanSee, IsProxy, IsPropertyOf, home_at, view_through};
ghost use Rattle.mb_shadow.specs.machine.Sights.{IsSight, IsValueOf, seen_at, view_of};

use crate::bringing::{bring, bring_property};
use crate::sight::{Sight, sight_of};
use mb_base::{Key, NoMemory, ObjId, Value};
use mb_desc::Full;
use mb_rules::{listed, shown};
use mb_world::World;
use std::alloc::Global;

/// The property that the home of a proxy sees of a key, with what it has for the values, or `None` where it sees none.
/// After `NoMemory` the world is halted.
pub fn seen(w: &mut World, proxy: ObjId, key: Key) -> Result<Option<Full<Value>>, NoMemory>
    requires proxy { IsProxy (cell_at w.old proxy) }
    requires there { is_some (view_through w.old proxy) ≡ true }
    requires key { KeyIn w.old key }
    requires world { CanSee w.old }

    // what it gives
    ensures meaning { IfOk result (λ own. IfSome (view_through w.old proxy) (λ view.
        option_map (full_in (names_of w.new)) own ≡ property_of same_key view (key_in (names_of w.old) key))) }
    ensures own { IfOk result (λ own. IfSome own (IsPropertyOf w.new (home_at w.old proxy))) }

    // what stays, after a refusal too
    ensures stays { Crossed w.old w.new }
    ensures paired { PairedFrom w.old w.new }
    ensures world { CanSee w.new }
    ensures runs { OnOk result (w.new.halted ≡ w.old.halted) }
    ensures halts { OnErr result (w.new.halted ≡ true) }
{
    match sight_of(w, proxy) {
        Some(sight) => property_seen(w, sight, key),
        None => unreachable!(),
    }
}

/// The prototype that the home of a proxy sees. After `NoMemory` the world is halted.
pub fn seen_proto(w: &mut World, proxy: ObjId) -> Result<Value, NoMemory>
    requires proxy { IsProxy (cell_at w.old proxy) }
    requires there { is_some (view_through w.old proxy) ≡ true }
    requires world { CanSee w.old }

    // what it gives
    ensures meaning { IfOk result (λ own. IfSome (view_through w.old proxy) (λ view.
        Resolve (names_of w.new) own ≡ view.prototype)) }
    ensures within { IfOk result (ValueIn w.new) }
    ensures own { IfOk result (λ own. All (IsOwn w.new (home_at w.old proxy)) (in_value own)) }
    ensures kind { IfOk result IsNullOrObject }

    // what stays, after a refusal too
    ensures stays { Crossed w.old w.new }
    ensures paired { PairedFrom w.old w.new }
    ensures world { CanSee w.new }
    ensures runs { OnOk result (w.new.halted ≡ w.old.halted) }
    ensures halts { OnErr result (w.new.halted ≡ true) }
{
    match sight_of(w, proxy) {
        Some(sight) => proto_seen(w, sight),
        None => unreachable!(),
    }
}

/// Whether what is seen through a proxy is extensible.
pub fn seen_extensible(w: &World, proxy: ObjId) -> bool
    requires proxy { IsProxy (cell_at w.now proxy) }
    requires there { is_some (view_through w.now proxy) ≡ true }
    requires world { CanSee w.now }
    ensures { IfSome (view_through w.now proxy) (λ view. result ≡ view.extensible) }
{
    match sight_of(w, proxy) {
        Some(sight) => w.cell(sight.object).extensible,
        None => unreachable!(),
    }
}

/// The keys that are seen through a proxy, in the order of ownKeys (ECMA-262, 10.1.11.1).
pub fn seen_keys(w: &World, proxy: ObjId) -> Result<Vec<Key>, NoMemory>
    requires proxy { IsProxy (cell_at w.now proxy) }
    requires there { is_some (view_through w.now proxy) ≡ true }
    requires world { CanSee w.now }
    ensures keys { IfOk result (λ keys. IfSome (view_through w.now proxy) (λ view.
        map (key_in (names_of w.now)) keys.items ≡ keys_of view.properties)) }
    ensures within { IfOk result (λ keys. All (KeyIn w.now) keys.items) }
{
    match sight_of(w, proxy) {
        Some(sight) => keys_seen(w, sight),
        None => unreachable!(),
    }
}

// The property that is seen of a key.
pub fn property_seen(w: &mut World, sight: Sight, key: Key) -> Result<Option<Full<Value>>, NoMemory>
    requires sight { IsSight w.old sight }
    requires key { KeyIn w.old key }
    requires world { CanSee w.old }
    ensures meaning { IfOk result (λ own.
        option_map (full_in (names_of w.new)) own ≡ seen_at w.old sight (key_in (names_of w.old) key)) }
    ensures own { IfOk result (λ own. IfSome own (IsPropertyOf w.new sight.home)) }
    ensures stays { Crossed w.old w.new }
    ensures world { CanSee w.new }
    ensures runs { OnOk result (w.new.halted ≡ w.old.halted) }
    ensures halts { OnErr result (w.new.halted ≡ true) }
{
    let from = w.home(sight.object);
    match shown(w, sight.viewer, sight.object, key) {
        Some(property) => {
            let own = bring_property(w, property, from, sight.home)?;
            Ok(Some(own))
        }
        None => Ok(None),
    }
}

// The prototype that is seen.
pub fn proto_seen(w: &mut World, sight: Sight) -> Result<Value, NoMemory>
    requires sight { IsSight w.old sight }
    requires world { CanSee w.old }
    ensures meaning { IfOk result (λ own. IfSome (view_of w.old sight) (λ view.
        Resolve (names_of w.new) own ≡ view.prototype)) }
    ensures own { IfOk result (IsValueOf w.new sight.home) }
    ensures kind { IfOk result IsNullOrObject }
    ensures stays { Crossed w.old w.new }
    ensures world { CanSee w.new }
    ensures runs { OnOk result (w.new.halted ≡ w.old.halted) }
    ensures halts { OnErr result (w.new.halted ≡ true) }
{
    let cell = w.cell(sight.object);
    let (from, proto) = (cell.home, cell.proto);
    bring(w, proto, from, sight.home)
}

// The keys that are seen, in order.
pub fn keys_seen(w: &World, sight: Sight) -> Result<Vec<Key>, NoMemory>
    requires sight { IsSight w.now sight }
    requires world { CanSee w.now }
    ensures keys { IfOk result (λ keys. IfSome (view_of w.now sight) (λ view.
        map (key_in (names_of w.now)) keys.items ≡ keys_of view.properties)) }
    ensures within { IfOk result (λ keys. All (KeyIn w.now) keys.items) }
{
    let own = mb_ordinary::keys(w, sight.object)?;
    let alloc = *own.allocator();
    let mut keys = Vec::new(alloc);
    for key in &own {
        if listed(w, sight.viewer, sight.object, *key) {
            keys.push(*key)?;
        }
    }
    Ok(keys)
}

// Lists of keys, and the values that stand for them.
ghost use Rattle.std.specs.Prelude.{◌≡◌, ◌<◌, ◌≤◌, ◌+◌, ◌^◌, ◌↔◌, IfOk, IsErr, OnErr, OnOk, length, map, not};
ghost use Rattle.std.specs.Prelude.{slice_get};
ghost use Rattle.mb_frames.specs.Passing.{TextsGrew};
ghost use Rattle.mb_world.specs.Ids.{KeyIn};
ghost use Rattle.mb_world.specs.Image.{key_in, names_of};
ghost use Rattle.mb_world.specs.Key.{Named};
ghost use Rattle.std.specs.List.{filter};
ghost use Rattle.mb_props.specs.KeyOrder.{is_symbol};
ghost use Rattle.mb_reflect.specs.machine.Listing.{value_for};

use mb_base::{Fuel, Key, NoMemory, Spent, Value};
use mb_parts::word;
use mb_world::{KeyList, World};
use std::alloc::Global;

// The key at that place, or `None` past the end.
pub(crate) fn key_at(keys: &KeyList, place: u32) -> Option<Key>
    ensures { result ≡ slice_get keys.now place }
{
    keys.items().get(place as usize).copied()
}

// The place after this one; no list in memory reaches past the last.
pub(crate) fn after(place: u32) -> Result<u32, NoMemory>
    ensures { IfOk result (λ next. next ≡ place + 1) }
{
    if place == u32::MAX {
        return Err(NoMemory);
    }
    Ok(place + 1)
}

fn is_symbol(key: Key) -> bool
    ensures { result ≡ is_symbol key }
{
    matches!(key, Key::Symbol(_))
}

// Those of the keys that are texts.
pub(crate) fn texts_only(alloc: Global, keys: &[Key]) -> Result<Vec<Key>, NoMemory>
    ensures { IfOk result (λ texts. texts.items ≡ filter (λ key. not (is_symbol key)) keys.now) }
{
    let texts = keys
        .iter()
        .copied()
        .filter(|key| !is_symbol(*key))
        .collect(alloc)?;
    Ok(texts)
}

// Those of the keys that are symbols.
pub(crate) fn symbols_only(alloc: Global, keys: &[Key]) -> Result<Vec<Key>, NoMemory>
    ensures { IfOk result (λ symbols. symbols.items ≡ filter is_symbol keys.now) }
{
    let symbols = keys
        .iter()
        .copied()
        .filter(|key| is_symbol(*key))
        .collect(alloc)?;
    Ok(symbols)
}

// The value that stands for a key.
pub(crate) fn value_of_key(key: Key) -> Value
    ensures { result ≡ value_for key }
{
    match key {
        Key::Text { text, .. } => Value::Text(text),
        Key::Symbol(symbol) => Value::Symbol(symbol),
    }
}

// The values that stand for keys.
pub(crate) fn values_of_keys(alloc: Global, keys: &[Key]) -> Result<Vec<Value>, NoMemory>
    ensures { IfOk result (λ values. values.items ≡ map value_for keys.now) }
{
    let values = keys.iter().map(|key| value_of_key(*key)).collect(alloc)?;
    Ok(values)
}

// Takes so many charges of 1, one after the other.
pub(crate) fn charge_each(fuel: &mut Fuel, charges: usize) -> Result<(), Spent>
    ensures spent { IsErr result ↔ (fuel.old < charges) }
    ensures paid { OnOk result (fuel.new + charges ≡ fuel.old) }
    ensures left { OnErr result (fuel.new ≡ 0) }
{
    for paid in 0..charges {
        fuel.charge(1)?;
    }
    Ok(())
}

// A key that is a word, which is added to the texts where it isn't there yet.
pub(crate) fn key_of_word(w: &mut World, units: &[u16]) -> Result<Key, NoMemory>
    requires { length units.now ≤ 2 ^ 20 }
    ensures key { IfOk result (λ k. key_in (names_of w.new) k ≡ Named units.now) }
    ensures within { IfOk result (KeyIn w.new) }
    ensures grew { OnOk result (TextsGrew w.old w.new) }
    ensures kept { OnErr result (w.new ≡ w.old) }
{
    let text = word(w, units)?;
    Ok(w.texts().key(text))
}

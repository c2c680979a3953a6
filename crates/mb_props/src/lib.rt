//! The table of an object's own properties.
#![tactic(auto)]

ghost use Rattle.std.specs.Prelude.{◌≡◌, ◌≢◌, [], None, IsOk, IfOk, OnOk, OnErr, slice_get, is_some};
ghost use Rattle.std.specs.Map.{keys_of};
ghost use Rattle.mb_props.specs.Table.{HasDistinctKeys, found, insert_entry, without};
ghost use Rattle.mb_props.specs.KeyOrder.{index_of, is_array_index, is_name, is_symbol, array_indices, names, symbols, IsInKeyOrder, KeyOrderIsOne};

mod pairs;

use mb_base::{Key, NoMemory};
use pairs::Pairs;
use std::alloc::{AllocError, Global};
use std::marker::Model;

/// An object's own properties. The table is seen as a list of pairs, each a key with its property, the
/// earliest made at the head.
#[derive(Drop)]
pub struct Props<P: Copy> {
    pairs: Pairs<P>,
}

impl<P: Copy> Model for Props<P> {
    ghost use Rattle.std.specs.Prelude.{List};
    ghost use Rattle.mb_base.specs.declared.value.Key.{Key};
    ghost use Rattle.mb_props.specs.Table.{HasDistinctKeys};
    ghost use Rattle.mb_props.specs.machine.Pairs.{pairs_of};

    ghost Value = { List (Key × P) };

    ghost view = { λ table. pairs_of table.pairs };

    ghost invariant = { λ table. HasDistinctKeys (pairs_of table.pairs) };
}

impl<P: Copy> Props<P> {
    /// A table without properties.
    pub fn new(alloc: Global) -> Props<P>
        ensures { result ≡ [] }
    {
        Props {
            pairs: Pairs::new(alloc),
        }
    }

    /// The key's property, if it has one; in constant time on average.
    pub fn get(&self, key: Key) -> Option<P>
        ensures value { result ≡ found self.now key }
        ensures distinct { HasDistinctKeys self.now }
    {
        self.pairs.get(key)
    }

    /// Sets the key's property, in constant time on average. Only for a new key, which goes to the
    /// end, may it want memory.
    pub fn put(&mut self, key: Key, property: P) -> Result<(), NoMemory>
        ensures put { OnOk result (self.new ≡ insert_entry self.old key property) }
        ensures unchanged { OnErr result (self.new ≡ self.old) }
        ensures there { found self.old key ≢ None → IsOk result }
        ensures distinct { HasDistinctKeys self.new }
    {
        self.pairs.put(key, property)
    }

    /// Takes the key's pair out, if there is one, and tells whether there was. The pairs behind it move
    /// up by one, so this takes time by their number.
    pub fn remove(&mut self, key: Key) -> bool
        ensures removed { self.new ≡ without self.old key }
        ensures was { result ≡ is_some (found self.old key) }
        ensures distinct { HasDistinctKeys self.new }
    {
        self.pairs.remove(key)
    }

    /// The pair that has this many before it, if the table is that long; in constant time.
    pub fn at(&self, place: u32) -> Option<(Key, P)>
        ensures value { result ≡ slice_get self.now place }
        ensures distinct { HasDistinctKeys self.now }
    {
        self.pairs.at(place as usize)
    }

    /// The keys as OrdinaryOwnPropertyKeys lists them (ECMA-262, 10.1.11.1): ascending array indices,
    /// then the texts that are none, then the symbols, the last two as they were made.
    pub fn keys_in_order(&self) -> Result<Vec<Key>, NoMemory>
        ensures order { IfOk result (λ keys. IsInKeyOrder (keys_of self.now) keys.items) }
        ensures distinct { HasDistinctKeys self.now }
    {
        let made = self.pairs.keys()?;
        Ok(ordered_keys(*made.allocator(), &made)?)
    }
}

// The index that the key spells, or `u32::MAX` where it spells none.
fn index_of(key: Key) -> u32
    ensures { result ≡ index_of key }
{
    match key {
        Key::Text { index, .. } => index,
        Key::Symbol(_) => u32::MAX,
    }
}

fn is_symbol(key: Key) -> bool
    ensures { result ≡ is_symbol key }
{
    matches!(key, Key::Symbol(_))
}

fn is_array_index(key: Key) -> bool
    ensures { result ≡ is_array_index key }
{
    index_of(key) != u32::MAX
}

// Whether the key is a text and no array index.
fn is_name(key: Key) -> bool
    ensures { result ≡ is_name key }
{
    !is_symbol(key) && !is_array_index(key)
}

fn indices_of(alloc: Global, keys: &[Key]) -> Result<Vec<Key>, AllocError>
    ensures { IfOk result (λ indices. indices.items ≡ array_indices keys.now) }
{
    keys.iter()
        .copied()
        .filter(|key| is_array_index(*key))
        .collect(alloc)
}

fn names_of(alloc: Global, keys: &[Key]) -> Result<Vec<Key>, AllocError>
    ensures { IfOk result (λ texts. texts.items ≡ names keys.now) }
{
    keys.iter()
        .copied()
        .filter(|key| is_name(*key))
        .collect(alloc)
}

fn symbols_of(alloc: Global, keys: &[Key]) -> Result<Vec<Key>, AllocError>
    ensures { IfOk result (λ own. own.items ≡ symbols keys.now) }
{
    keys.iter()
        .copied()
        .filter(|key| is_symbol(*key))
        .collect(alloc)
}

// The array indices sorted, then the names, then the symbols.
fn ordered_keys(alloc: Global, made: &[Key]) -> Result<Vec<Key>, AllocError>
    ensures { IfOk result (λ keys. IsInKeyOrder made.now keys.items) }
{
    let mut keys = indices_of(alloc, made)?;
    let names = names_of(alloc, made)?;
    let symbols = symbols_of(alloc, made)?;
    keys.sort_by_key(|key| index_of(*key))?;
    keys.extend_from_slice(&names)?;
    keys.extend_from_slice(&symbols)?;
    Ok(keys)
}

/// Only one list of keys is in the order of `keys_in_order`.
pub fn key_order_is_one()
    ensures { KeyOrderIsOne }
{}

#[cfg(test)]
mod tests;

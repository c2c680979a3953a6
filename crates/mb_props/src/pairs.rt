// The two forms in which a table keeps its pairs.
ghost use Rattle.std.specs.Prelude.{◌≡◌, ◌≢◌, [], ◌∷◌, ◌++◌, None, IsOk, IfOk, OnOk, OnErr, true, false, is_some, slice_get, position};
ghost use Rattle.std.specs.Map.{keys_of};
ghost use Rattle.mb_props.specs.Table.{HasDistinctKeys, found, insert_entry, same_key, without};
ghost use Rattle.mb_props.specs.machine.Pairs.{pairs_of};

use indexmap::IndexMap;
use mb_base::{Key, NoMemory};
use std::alloc::{AllocError, Global};

// The most pairs that a list holds. A map makes room for nine with its first, and most objects have
// fewer.
const FEW: usize = 8;

// A list is as long as its pairs need. A map, once made, stays one however short it becomes.
#[derive(Drop)]
pub enum Pairs<P: Copy> {
    Few(Vec<(Key, P)>),
    Many(Box<IndexMap<Key, P>>),
}

impl<P: Copy> Pairs<P> {
    pub fn new(alloc: Global) -> Pairs<P>
        ensures { pairs_of result ≡ [] }
    {
        Pairs::Few(Vec::new(alloc))
    }

    pub fn get(&self, key: Key) -> Option<P>
        ensures { result ≡ found (pairs_of self.now) key }
    {
        match self {
            Pairs::Few(list) => get_in_list(list, key),
            Pairs::Many(map) => get_in_map(map, key),
        }
    }

    pub fn at(&self, place: usize) -> Option<(Key, P)>
        ensures { result ≡ slice_get (pairs_of self.now) place }
    {
        match self {
            Pairs::Few(list) => list.get(place).copied(),
            Pairs::Many(map) => at_in_map(map, place),
        }
    }

    pub fn put(&mut self, key: Key, property: P) -> Result<(), NoMemory>
        requires distinct { HasDistinctKeys (pairs_of self.old) }
        ensures put { OnOk result (pairs_of self.new ≡ insert_entry (pairs_of self.old) key property) }
        ensures unchanged { OnErr result (pairs_of self.new ≡ pairs_of self.old) }
        ensures there { found (pairs_of self.old) key ≢ None → IsOk result }
        ensures distinct { HasDistinctKeys (pairs_of self.new) }
    {
        match self {
            Pairs::Few(list) => {
                if replace_in_list(list, key, property) {
                    return Ok(());
                }
                if list.len() < FEW {
                    return add_to_list(list, key, property);
                }
                *self = Pairs::Many(map_with(list, key, property)?);
                Ok(())
            }
            Pairs::Many(map) => put_in_map(map, key, property),
        }
    }

    pub fn remove(&mut self, key: Key) -> bool
        requires distinct { HasDistinctKeys (pairs_of self.old) }
        ensures removed { pairs_of self.new ≡ without (pairs_of self.old) key }
        ensures was { result ≡ is_some (found (pairs_of self.old) key) }
        ensures distinct { HasDistinctKeys (pairs_of self.new) }
    {
        match self {
            Pairs::Few(list) => remove_in_list(list, key),
            Pairs::Many(map) => remove_in_map(map, key),
        }
    }

    // The keys, the earliest made first.
    pub fn keys(&self) -> Result<Vec<Key>, AllocError>
        ensures { IfOk result (λ keys. keys.items ≡ keys_of (pairs_of self.now)) }
    {
        match self {
            Pairs::Few(list) => keys_in_list(*list.allocator(), list),
            Pairs::Many(map) => keys_in_map(map),
        }
    }
}

fn is_same(one: Key, other: Key) -> bool
    ensures { result ≡ same_key one other }
{
    one == other
}

// Where the key stands in the list, if it does.
fn place_of<P: Copy>(list: &[(Key, P)], key: Key) -> Option<usize>
    ensures { result ≡ position (same_key key) (keys_of list.now) }
{
    list.iter()
        .map(|pair| pair.0)
        .position(|own| is_same(key, own))
}

fn get_in_list<P: Copy>(list: &[(Key, P)], key: Key) -> Option<P>
    ensures { result ≡ found list.now key }
{
    let place = place_of(list, key)?;
    Some(list[place].1)
}

// Sets the property of a key that is there, and tells whether it is.
fn replace_in_list<P: Copy>(list: &mut Vec<(Key, P)>, key: Key, property: P) -> bool
    requires distinct { HasDistinctKeys list.old.items }
    ensures replaced { result ≡ true → list.new.items ≡ insert_entry list.old.items key property }
    ensures unchanged { result ≡ false → list.new.items ≡ list.old.items }
    ensures absent { result ≡ false → found list.old.items key ≡ None }
    ensures distinct { HasDistinctKeys list.new.items }
{
    match place_of(list, key) {
        Some(place) => {
            list[place].1 = property;
            true
        }
        None => false,
    }
}

// Takes memory for one more pair and not for twice as many.
fn add_to_list<P: Copy>(list: &mut Vec<(Key, P)>, key: Key, property: P) -> Result<(), NoMemory>
    requires distinct { HasDistinctKeys list.old.items }
    requires absent { found list.old.items key ≡ None }
    ensures put { OnOk result (list.new.items ≡ insert_entry list.old.items key property) }
    ensures unchanged { OnErr result (list.new.items ≡ list.old.items) }
    ensures distinct { HasDistinctKeys list.new.items }
{
    list.reserve_exact(1)?;
    match list.push((key, property)) {
        Ok(()) => Ok(()),
        Err(_) => Err(NoMemory),
    }
}

fn remove_in_list<P: Copy>(list: &mut Vec<(Key, P)>, key: Key) -> bool
    requires distinct { HasDistinctKeys list.old.items }
    ensures removed { list.new.items ≡ without list.old.items key }
    ensures was { result ≡ is_some (found list.old.items key) }
    ensures distinct { HasDistinctKeys list.new.items }
{
    match place_of(list, key) {
        Some(place) => {
            list.remove(place);
            true
        }
        None => false,
    }
}

fn keys_in_list<P: Copy>(alloc: Global, list: &[(Key, P)]) -> Result<Vec<Key>, AllocError>
    ensures { IfOk result (λ keys. keys.items ≡ keys_of list.now) }
{
    list.iter().map(|pair| pair.0).collect(alloc)
}

// A map of the list's pairs, with one more.
fn map_with<P: Copy>(
    list: &Vec<(Key, P)>,
    key: Key,
    property: P,
) -> Result<Box<IndexMap<Key, P>>, NoMemory>
    requires distinct { HasDistinctKeys list.now.items }
    ensures put { IfOk result (λ map. map.value.entries ≡ insert_entry list.now.items key property) }
    ensures distinct { IfOk result (λ map. HasDistinctKeys map.value.entries) }
{
    let alloc = *list.allocator();
    let mut map = map_of(alloc, list)?;
    put_in_map(&mut map, key, property)?;
    match Box::new(alloc, map) {
        Ok(map) => Ok(map),
        Err(_) => Err(NoMemory),
    }
}

fn map_of<P: Copy>(alloc: Global, list: &[(Key, P)]) -> Result<IndexMap<Key, P>, NoMemory>
    requires distinct { HasDistinctKeys list.now }
    ensures { IfOk result (λ map. map.entries ≡ list.now) }
{
    let mut map = IndexMap::new(alloc);
    for (key, property) in list {
        put_in_map(&mut map, *key, *property)?;
    }
    Ok(map)
}

fn get_in_map<P: Copy>(map: &IndexMap<Key, P>, key: Key) -> Option<P>
    ensures { result ≡ found map.now.entries key }
{
    match map.get(&key) {
        Some(property) => Some(*property),
        None => None,
    }
}

fn at_in_map<P: Copy>(map: &IndexMap<Key, P>, place: usize) -> Option<(Key, P)>
    ensures { result ≡ slice_get map.now.entries place }
{
    match map.get_index(place) {
        Some((key, property)) => Some((*key, *property)),
        None => None,
    }
}

fn put_in_map<P: Copy>(map: &mut IndexMap<Key, P>, key: Key, property: P) -> Result<(), NoMemory>
    ensures put { OnOk result (map.new.entries ≡ insert_entry map.old.entries key property) }
    ensures unchanged { OnErr result (map.new.entries ≡ map.old.entries) }
    ensures there { found map.old.entries key ≢ None → IsOk result }
    ensures distinct { HasDistinctKeys map.new.entries }
{
    match map.insert(key, property) {
        Ok(_) => Ok(()),
        Err(_) => Err(NoMemory),
    }
}

fn remove_in_map<P: Copy>(map: &mut IndexMap<Key, P>, key: Key) -> bool
    ensures removed { map.new.entries ≡ without map.old.entries key }
    ensures was { result ≡ is_some (found map.old.entries key) }
    ensures distinct { HasDistinctKeys map.new.entries }
{
    map.shift_remove(&key).is_some()
}

fn keys_in_map<P: Copy>(map: &IndexMap<Key, P>) -> Result<Vec<Key>, AllocError>
    ensures { IfOk result (λ keys. keys.items ≡ keys_of map.now.entries) }
{
    map.keys().copied().collect(*map.allocator())
}

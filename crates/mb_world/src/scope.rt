// Scopes and jobs.
ghost use Rattle.std.specs.Prelude.{◌≡◌, ◌<◌, ◌+◌, [], ◌∷◌, ◌++◌, length, position, slice_get, IfOk, OnOk, OnErr};
ghost use Rattle.mb_world.specs.Data.{give_at, has_name};
ghost use Rattle.mb_world.specs.Long.{same_id};
ghost use Rattle.mb_world.specs.machine.Firsts.{or_if};
ghost use Rattle.mb_world.specs.machine.Places.{placed, ArePlaces, IsPlaced};

use indexmap::IndexMap;
use mb_base::{NoMemory, ScopeId, Side, StrId, Value};
use std::alloc::Global;
use std::marker::Model;

/// A name of a scope, its value once it is given, and whether it is fixed.
#[derive(Clone, Copy, Debug, PartialEq, Eq)]
pub struct Bound {
    pub name: StrId,
    pub value: Option<Value>,
    pub fixed: bool,
}

// A scope with more names has an index of their places.
const FEW: usize = 8;

/// The names of a scope. A name is found in constant time on average.
#[derive(Drop)]
pub struct Names {
    items: Vec<Bound>,
    // of more than `FEW` names, the first place of each
    places: IndexMap<StrId, usize>,
}

impl Model for Names {
    ghost use Rattle.std.specs.Prelude.{List};
    ghost use Rattle.mb_world.specs.declared.scope.Bound.{Bound};

    ghost Value = { List Bound };

    ghost use Rattle.mb_world.specs.machine.Places.{IsPlaced};

    ghost view = { λ names. names.items.items };

    ghost invariant = { λ names. IsPlaced names.items.items names.places.entries };
}

impl Names {
    /// No names.
    pub fn new(alloc: Global) -> Names
        ensures { result ≡ [] }
    {
        Names {
            items: Vec::new(alloc),
            places: IndexMap::new(alloc),
        }
    }

    /// The number of names.
    pub fn len(&self) -> usize
        ensures { result ≡ length self.now }
    {
        self.items.len()
    }

    /// The name at that place, or `None` past the end.
    pub fn at(&self, place: usize) -> Option<Bound>
        ensures { result ≡ slice_get self.now place }
    {
        self.items.get(place).copied()
    }

    /// The first place of a name, or `None` where the scope lacks it.
    pub fn place_of(&self, name: StrId) -> Option<usize>
        ensures { result ≡ position (has_name name) self.now }
    {
        if self.items.len() > FEW {
            placed(&self.places, name)
        } else {
            first_place(&self.items, name)
        }
    }

    /// One more name, last.
    pub fn push(&mut self, bound: Bound) -> Result<(), NoMemory>
        ensures pushed { OnOk result (self.new ≡ self.old ++ bound ∷ []) }
        ensures kept { OnErr result (self.new ≡ self.old) }
    {
        let alloc = *self.items.allocator();
        self.items.reserve(1)?;
        add_place(alloc, &mut self.places, &self.items, bound.name)?;
        self.items.push_reserved(bound);
        Ok(())
    }

    /// Gives a value to the name in that place.
    pub(crate) fn give(&mut self, place: usize, value: Value)
        requires { place < length self.old }
        ensures { self.new ≡ give_at place value self.old }
    {
        let bound = &mut self.items[place];
        bound.value = Some(value);
    }
}

fn first_place(names: &[Bound], name: StrId) -> Option<usize>
    ensures { result ≡ position (has_name name) names.now }
{
    names.iter().position(|bound| name == bound.name)
}

// What the index has for a name.
fn placed(places: &IndexMap<StrId, usize>, name: StrId) -> Option<usize>
    ensures { result ≡ placed places.now.entries name }
{
    match places.get(&name) {
        Some(place) => Some(*place),
        None => None,
    }
}

// Notes the place of a name, unless another was noted before.
fn note_place(
    places: &mut IndexMap<StrId, usize>,
    name: StrId,
    place: usize,
) -> Result<(), NoMemory>
    ensures noted { OnOk result ((n : StrId)
        → placed places.new.entries n ≡ or_if (same_id n name) place (placed places.old.entries n)) }
    ensures kept { OnErr result (places.new.entries ≡ places.old.entries) }
{
    if places.contains_key(&name) {
        return Ok(());
    }
    places.insert(name, place)?;
    Ok(())
}

// The index of these names.
fn places_of(alloc: Global, names: &[Bound]) -> Result<IndexMap<StrId, usize>, NoMemory>
    ensures { IfOk result (λ places. ArePlaces names.now places.entries) }
{
    let mut places = IndexMap::new(alloc);
    for (place, bound) in names.iter().enumerate() {
        note_place(&mut places, bound.name, place)?;
    }
    Ok(places)
}

// Makes the index that of one more name.
fn add_place(
    alloc: Global,
    places: &mut IndexMap<StrId, usize>,
    names: &[Bound],
    name: StrId,
) -> Result<(), NoMemory>
    requires { IsPlaced names.now places.old.entries }
    ensures placed { OnOk result (8 < length names.now + 1 → (n : StrId) → placed places.new.entries n
        ≡ or_if (same_id n name) (length names.now) (position (has_name n) names.now)) }
    ensures kept { OnErr result (IsPlaced names.now places.new.entries) }
{
    if names.len() < FEW {
        return Ok(());
    }
    if names.len() == FEW {
        let mut all = places_of(alloc, names)?;
        note_place(&mut all, name, FEW)?;
        *places = all;
        return Ok(());
    }
    note_place(places, name, names.len())
}

/// A scope: its names, and the scope above it.
#[derive(Drop)]
pub struct Scope {
    pub home: Side,
    pub parent: Option<ScopeId>,
    pub names: Names,
}

/// A job of a queue (ECMA-262, 9.5): a side's script, or a call of a function.
#[derive(Clone, Copy, Debug, PartialEq, Eq)]
pub enum Job {
    Script,
    Call(Value),
}

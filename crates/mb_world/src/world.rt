// The world.
ghost use Rattle.std.specs.Prelude.{◌≡◌, ◌<◌, ◌∷◌, [], None, map, length, slice_get, drop, IfOk, IfSome, IsOk, OnOk, OnErr, Ok, Err, Some, option_map, true, is_some};
ghost use Rattle.std.specs.Fmt.{signed_decimal};
ghost use Rattle.mb_text.specs.Texts.{with_text, text_at, AreDistinct};
ghost use Rattle.mb_world.specs.Data.{is_counted, kind_stand, fresh, script_of, cell_at, scope_at, property_at, slots_at, names_at, serial_of, objects_of, proxy_in, built_in_of, same_on_side, queue_of, program_of, description_of};
ghost use Rattle.mb_world.specs.Long.{long_of};
ghost use Rattle.mb_world.specs.Ids.{HasItsIds, CellIn, ScopeOf, TextIn, SymbolIn, ObjIn, ScopeIn, IsCollection};

mod changes;
mod making;

use crate::cell::{Cell, CellKind};
use crate::entry::Entry;
use crate::roles::Role;
use crate::rule::Rules;
use crate::scope::{Job, Scope};
use indexmap::{IndexMap, IndexSet};
use mb_base::{NoMemory, ObjId, ScopeId, Side, StrId, SymId, Value};
use mb_text::Texts;
use mb_tree::Program;
use std::alloc::Global;
use std::collections::VecDeque;
use std::marker::Model;

/// The world of a run: what both sides have, in one arena. Contracts see its lists and flags.
#[derive(Drop)]
pub struct World {
    alloc: Global,
    texts: Texts,
    symbols: Vec<Option<StrId>>,
    sides: u8,
    programs: Vec<Option<Program>>,
    cells: Vec<Cell>,
    scopes: Vec<Scope>,
    queues: Vec<VecDeque<Job>>,
    entries: Vec<Entry>,
    rules: Rules,
    revoked: bool,
    joined: bool,
    halted: bool,
    // for each cell, how many cells before it have a number
    numbers: Vec<u32>,
    // the cells that have a number, in its order
    serials: Vec<ObjId>,
    // the first cell of each role
    roles: IndexMap<Role, ObjId>,
    // the long texts of the trace, in the order of their numbers
    long: IndexSet<StrId>,
}

impl Model for World {
    ghost use Rattle.mb_world.specs.Data.{Data};

    ghost Value = { Data };

    ghost use Rattle.mb_world.specs.machine.Inside.{data_of, IsWorld};

    ghost view = { data_of };

    ghost invariant = { IsWorld };
}

impl World {
    ghost use Rattle.mb_world.specs.declared.cell.Cell.{Cell};
    ghost use Rattle.mb_world.specs.declared.scope.Scope.{Scope};

    /// A fresh world: nothing in it, and no side that takes part.
    pub fn new(alloc: Global) -> Result<World, NoMemory>
        ensures { IfOk result (λ w. w ≡ fresh) }
    {
        let programs = no_programs(alloc)?;
        let queues = empty_queues(alloc)?;
        Ok(World {
            alloc,
            texts: Texts::new(alloc),
            symbols: Vec::new(alloc),
            sides: 0,
            programs,
            cells: Vec::new(alloc),
            scopes: Vec::new(alloc),
            queues,
            entries: Vec::new(alloc),
            rules: Rules::none(alloc),
            revoked: false,
            joined: false,
            halted: false,
            numbers: Vec::new(alloc),
            serials: Vec::new(alloc),
            roles: IndexMap::new(alloc),
            long: IndexSet::new(alloc),
        })
    }

    /// The cell of an id.
    pub fn cell(&self, id: ObjId) -> &Cell
        requires { ObjIn self.now id }
        ensures value { cell_at self.now id ≡ Some result.now }
        ensures within { CellIn self.now result.now }
        ensures ids { HasItsIds self.now }
        ensures distinct { AreDistinct self.now.texts }
    {
        &self.cells[id.0 as usize]
    }

    /// The side that owns a cell.
    pub fn home(&self, id: ObjId) -> Side
        requires { ObjIn self.now id }
        ensures value { option_map (λ c. c.home) (cell_at self.now id) ≡ Some result }
        ensures side { result.0 < 8 }
    {
        self.cells[id.0 as usize].home
    }

    /// The number of a cell, or `None` where it has none.
    pub fn serial(&self, id: ObjId) -> Option<u32>
        requires { ObjIn self.now id }
        ensures { result ≡ serial_of self.now.cells id }
    {
        if has_number(&self.cells[id.0 as usize].kind) {
            Some(self.numbers[id.0 as usize])
        } else {
            None
        }
    }

    /// How many cells there are. Each lower number is the id of one.
    pub fn cells(&self) -> u32
        ensures { result ≡ length self.now.cells }
    {
        self.cells.len() as u32
    }

    /// How many scopes there are. Each lower number is the id of one.
    pub fn scopes(&self) -> u32
        ensures { result ≡ length self.now.scopes }
    {
        self.scopes.len() as u32
    }

    /// The number that the next symbol gets.
    pub fn symbols(&self) -> u32
        ensures { result ≡ length self.now.symbols }
    {
        self.symbols.len() as u32
    }

    /// The number that the next object gets.
    pub fn objects(&self) -> u32
        ensures { result ≡ length (objects_of self.now.cells) }
    {
        self.serials.len() as u32
    }

    /// The cell of a number, or `None` where no cell has it.
    pub fn object(&self, serial: u32) -> Option<ObjId>
        ensures value { result ≡ slice_get (objects_of self.now.cells) serial }
        ensures within { IfSome result (ObjIn self.now) }
    {
        nth(&self.serials, serial as usize)
    }

    /// The description of a symbol, or `None` where it has none.
    pub fn description(&self, id: SymId) -> Option<StrId>
        requires { SymbolIn self.now id }
        ensures { result ≡ description_of self.now id }
    {
        self.symbols[id.0 as usize]
    }

    /// A side's built-in at a place of the table, the earliest of several, or `None` where there is none.
    /// In a joined world it serves all sides.
    pub fn built_in(&self, side: Side, place: u16) -> Option<ObjId>
        ensures value { result ≡ built_in_of self.now.joined self.now.cells side place }
        ensures within { IfSome result (ObjIn self.now) }
    {
        if self.joined {
            crate::roles::first(&self.roles, Role::BuiltIn(place))
        } else {
            crate::roles::first(&self.roles, Role::BuiltInOf(side, place))
        }
    }

    /// The first membrane proxy of that side with `id` behind it, or `None` where there is none.
    pub fn proxy_of(&self, side: Side, id: ObjId) -> Option<ObjId>
        ensures value { result ≡ proxy_in self.now.cells side id }
        ensures within { IfSome result (ObjIn self.now) }
    {
        crate::roles::first(&self.roles, Role::ProxyOf(side, id))
    }

    /// A side's own cell for the place of the table for which a built-in stands; in a joined world the built-in itself.
    pub fn same_on(&self, side: Side, id: ObjId) -> ObjId
        requires { is_some (same_on_side self.now side id) ≡ true }
        ensures value { same_on_side self.now side id ≡ Some result }
        ensures within { ObjIn self.now id → ObjIn self.now result }
    {
        if self.joined {
            return id;
        }
        match self.cells[id.0 as usize].kind {
            CellKind::BuiltIn(place) => match self.built_in(side, place) {
                Some(own) => own,
                None => id,
            },
            _ => id,
        }
    }

    /// The scope of an id.
    pub fn scope(&self, id: ScopeId) -> &Scope
        requires { ScopeIn self.now id }
        ensures value { scope_at self.now id ≡ Some result.now }
        ensures within { ScopeOf self.now result.now }
        ensures ids { HasItsIds self.now }
    {
        &self.scopes[id.0 as usize]
    }

    /// The slots of a collection.
    pub fn slots(&self, id: ObjId) -> &[Option<(Value, Value)>]
        requires { IsCollection (cell_at self.now id) }
        ensures { result.now ≡ slots_at self.now id }
    {
        self.cells[id.0 as usize].slots.items()
    }

    /// The jobs of a side.
    pub fn jobs(&self, side: Side) -> &VecDeque<Job>
        requires { side.0 < 8 }
        ensures { result.now.items ≡ queue_of self.now side }
    {
        &self.queues[side.0 as usize]
    }

    /// The trace.
    pub fn trace(&self) -> &Vec<Entry>
        ensures { result.now.items ≡ self.now.entries }
    {
        &self.entries
    }

    /// The texts.
    pub fn texts(&self) -> &Texts
        ensures value { result.now ≡ self.now.texts }
        ensures distinct { AreDistinct self.now.texts }
        ensures ids { HasItsIds self.now }
    {
        &self.texts
    }

    /// The rules of the policy.
    pub fn rules(&self) -> &Rules
        ensures { result.now ≡ self.now.rules }
    {
        &self.rules
    }

    /// The script of a side, or `None` where none was set.
    pub fn program(&self, side: Side) -> Option<&Program>
        requires { side.0 < 8 }
        ensures { option_map (λ p. script_of p.now) result ≡ program_of self.now side }
    {
        self.programs[side.0 as usize].as_ref()
    }

    /// The number of a text of more than 64 units that is in the trace, from 1 by first appearance, where an entry's
    /// key comes first, then what it gives, then what it answers. It is `None` for every other text.
    pub fn long(&self, text: StrId) -> Option<u32>
        ensures { result ≡ long_of self.now text }
    {
        match self.long.get_index_of(&text) {
            Some(place) => Some(place as u32 + 1),
            None => None,
        }
    }

    /// How many sides take part.
    pub fn sides(&self) -> u8
        ensures { result ≡ self.now.sides }
    {
        self.sides
    }

    pub fn revoked(&self) -> bool
        ensures { result ≡ self.now.revoked }
    {
        self.revoked
    }

    pub fn joined(&self) -> bool
        ensures { result ≡ self.now.joined }
    {
        self.joined
    }

    pub fn halted(&self) -> bool
        ensures { result ≡ self.now.halted }
    {
        self.halted
    }
}

// The id at that place.
fn nth(ids: &[ObjId], place: usize) -> Option<ObjId>
    ensures { result ≡ slice_get ids.now place }
{
    ids.get(place).copied()
}

// Whether a cell of that kind has a number.
fn has_number(kind: &CellKind) -> bool
    ensures { result ≡ is_counted (kind_stand kind.now) }
{
    !matches!(
        kind,
        CellKind::BuiltIn(_) | CellKind::Membrane { .. } | CellKind::Shadow(_)
    )
}

// No script for any side.
fn no_programs(alloc: Global) -> Result<Vec<Option<Program>>, NoMemory>
    ensures { IfOk result (λ v. v.items ≡ None ∷ None ∷ None ∷ None ∷ None ∷ None ∷ None ∷ None ∷ []) }
{
    let none = [None, None, None, None, None, None, None, None];
    Ok(Vec::from_array(alloc, none)?)
}

// No job for any side.
fn empty_queues(alloc: Global) -> Result<Vec<VecDeque<Job>>, NoMemory>
    ensures { IfOk result (λ v. map (λ q. q.items) v.items ≡ [] ∷ [] ∷ [] ∷ [] ∷ [] ∷ [] ∷ [] ∷ [] ∷ []) }
{
    let none = [
        VecDeque::new(alloc),
        VecDeque::new(alloc),
        VecDeque::new(alloc),
        VecDeque::new(alloc),
        VecDeque::new(alloc),
        VecDeque::new(alloc),
        VecDeque::new(alloc),
        VecDeque::new(alloc),
    ];
    Ok(Vec::from_array(alloc, none)?)
}

// New symbols, cells, scopes and entries.
ghost use Rattle.std.specs.Prelude.{◌≡◌, ◌<◌, ◌≤◌, ◌+◌, ◌∷◌, ◌++◌, [], length, map, IfOk, OnOk, OnErr};
ghost use Rattle.std.specs.Vec.{vec_len, vec_capacity};
ghost use Rattle.mb_text.specs.Texts.{with_text, AreDistinct};
ghost use Rattle.mb_world.specs.declared.cell.CellKind.TheVariants.{Array};
ghost use Rattle.mb_world.specs.Data.{is_array, length_units, length_id, made, with_symbol, with_cell, with_scope, with_entry, place_if, obj_id};
ghost use Rattle.mb_world.specs.machine.Arrays.{array_by};
ghost use Rattle.mb_world.specs.Ids.{TextIn, ValueIn, KindIn, CellIn, ScopeOf, EntryIn, Maybe};

use super::{World, has_number};
use crate::cell::{Cell, CellKind, Slots};
use crate::entry::Entry;
use crate::long::{long_of, number_all};
use crate::roles::note_all;
use crate::scope::Scope;
use mb_base::{Key, NoMemory, ObjId, ScopeId, Side, StrId, SymId, Value};
use mb_desc::Full;
use mb_props::Props;
use mb_text::Texts;
use std::alloc::Global;

// The most members of a list whose places are told as `u32`.
const MOST: usize = 0xFFFF_FFFF;

impl World {
    /// A new symbol, with the next number.
    pub fn make_symbol(&mut self, description: Option<StrId>) -> Result<SymId, NoMemory>
        requires { Maybe (TextIn self.old) description }
        ensures made { OnOk result (self.new ≡ with_symbol self.old description) }
        ensures id { IfOk result (λ id. id.0 ≡ length self.old.symbols) }
        ensures kept { OnErr result (self.new ≡ self.old) }
    {
        let at = self.symbols.len();
        if at >= MOST {
            return Err(NoMemory);
        }
        self.symbols.push(description)?;
        Ok(SymId(at as u32))
    }

    /// A new scope.
    pub fn add_scope(&mut self, scope: Scope) -> Result<ScopeId, NoMemory>
        requires { ScopeOf self.old scope }
        ensures added { OnOk result (self.new ≡ with_scope self.old scope) }
        ensures id { IfOk result (λ id. id.0 ≡ length self.old.scopes) }
        ensures kept { OnErr result (self.new ≡ self.old) }
    {
        let at = self.scopes.len();
        if at >= MOST {
            return Err(NoMemory);
        }
        self.scopes.push(scope)?;
        Ok(ScopeId(at as u32))
    }

    /// A new cell, extensible and without properties but for the `length` of an array, which is 0 and can be written.
    /// Where the texts lack the text `length`, an array adds it as the last.
    pub fn make(
        &mut self,
        home: Side,
        kind: CellKind,
        proto: Value,
        label: Option<StrId>,
    ) -> Result<ObjId, NoMemory>
        requires home { home.0 < 8 }
        requires kind { KindIn self.old kind }
        requires proto { ValueIn self.old proto }
        requires label { Maybe (TextIn self.old) label }
        ensures made { OnOk result (self.new ≡ made self.old home kind proto label) }
        ensures id { IfOk result (λ id. id.0 ≡ length self.old.cells) }
        ensures kept { OnErr result (self.new ≡ self.old) }
    {
        if is_array(&kind) {
            return self.make_array(home, proto, label);
        }
        let props = Props::new(self.alloc);
        let slots = Slots::new(self.alloc);
        self.add_cell(Cell {
            home,
            kind,
            proto,
            extensible: true,
            props,
            label,
            slots,
        })
    }

    /// One more entry of the trace, last.
    pub fn add_entry(&mut self, entry: Entry) -> Result<(), NoMemory>
        requires { EntryIn self.old entry }
        ensures added { OnOk result (self.new ≡ with_entry self.old entry) }
        ensures kept { OnErr result (self.new ≡ self.old) }
    {
        let found = long_of(self.alloc, &self.texts, &entry)?;
        if found.len() > MOST - self.long.len() {
            return Err(NoMemory);
        }
        self.entries.reserve(1)?;
        self.long.reserve(found.len())?;
        number_all(&mut self.long, &found);
        self.entries.push_reserved(entry);
        Ok(())
    }

    // A new array, last. It plays no role of the index.
    fn make_array(
        &mut self,
        home: Side,
        proto: Value,
        label: Option<StrId>,
    ) -> Result<ObjId, NoMemory>
        requires home { home.0 < 8 }
        requires proto { ValueIn self.old proto }
        requires label { Maybe (TextIn self.old) label }
        ensures made { OnOk result (self.new ≡ made self.old home Array proto label) }
        ensures id { IfOk result (λ id. id.0 ≡ length self.old.cells) }
        ensures kept { OnErr result (self.new ≡ self.old) }
    {
        let at = self.cells.len();
        if at >= MOST {
            return Err(NoMemory);
        }
        let text = length_text(&self.texts)?;
        let cell = array_cell(self.alloc, home, proto, label, text)?;
        self.cells.reserve(1)?;
        self.numbers.reserve(1)?;
        self.serials.reserve(1)?;
        let id = ObjId(at as u32);
        let number = self.serials.len() as u32;
        add_length(&mut self.texts)?;
        self.numbers.push_reserved(number);
        self.serials.push_reserved(id);
        self.cells.push_reserved(cell);
        Ok(id)
    }

    // One more cell, last.
    fn add_cell(&mut self, cell: Cell) -> Result<ObjId, NoMemory>
        requires { CellIn self.old cell }
        ensures added { OnOk result (self.new ≡ with_cell self.old cell) }
        ensures id { IfOk result (λ id. id.0 ≡ length self.old.cells) }
        ensures kept { OnErr result (self.new ≡ self.old) }
    {
        let at = self.cells.len();
        if at >= MOST {
            return Err(NoMemory);
        }
        self.cells.reserve(1)?;
        self.numbers.reserve(1)?;
        self.serials.reserve(1)?;
        let id = ObjId(at as u32);
        let number = self.serials.len() as u32;
        let counted = has_number(&cell.kind);
        note_all(&mut self.roles, cell.home, &cell.kind, id)?;
        self.numbers.push_reserved(number);
        push_if(&mut self.serials, counted, id);
        self.cells.push_reserved(cell);
        Ok(id)
    }
}

// The units of the text `length`.
const LENGTH: [u16; 6] = [108, 101, 110, 103, 116, 104];

fn is_array(kind: &CellKind) -> bool
    ensures { result ≡ is_array kind.now }
{
    matches!(kind, CellKind::Array)
}

// The id that the text `length` has or will get.
fn length_text(texts: &Texts) -> Result<StrId, NoMemory>
    ensures { IfOk result (λ id. id ≡ length_id texts.now) }
{
    match texts.find(&LENGTH) {
        Some(id) => Ok(id),
        None => {
            let len = texts.len();
            if len > MOST {
                return Err(NoMemory);
            }
            Ok(StrId(len as u32))
        }
    }
}

// The text `length` is there from now on.
fn add_length(texts: &mut Texts) -> Result<(), NoMemory>
    ensures added { OnOk result (texts.new ≡ with_text texts.old length_units) }
    ensures kept { OnErr result (texts.new ≡ texts.old) }
    ensures distinct { AreDistinct texts.new }
{
    match texts.intern(&LENGTH) {
        Ok(_) => Ok(()),
        Err(_) => Err(NoMemory),
    }
}

// An array whose `length` has that text as its key.
fn array_cell(
    alloc: Global,
    home: Side,
    proto: Value,
    label: Option<StrId>,
    text: StrId,
) -> Result<Cell, NoMemory>
    ensures { IfOk result (λ cell. cell ≡ array_by text home proto label) }
{
    let key = Key::Text {
        text,
        index: u32::MAX,
    };
    let length = Full::Datum {
        value: Value::Whole(0),
        writable: true,
        enumerable: false,
        configurable: false,
    };
    let mut props = Props::new(alloc);
    props.put(key, length)?;
    Ok(Cell {
        home,
        kind: CellKind::Array,
        proto,
        extensible: true,
        props,
        label,
        slots: Slots::new(alloc),
    })
}

// One more id, last, where it counts.
fn push_if(ids: &mut Vec<ObjId>, counted: bool, id: ObjId)
    requires { vec_len ids.old < vec_capacity ids.old }
    ensures { ids.new.items ≡ ids.old.items ++ map obj_id (place_if counted id.0 []) }
{
    if counted {
        ids.push_reserved(id);
    }
}

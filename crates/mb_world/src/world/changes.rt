// Changes of what is there.
ghost use Rattle.std.specs.Prelude.{◌≡◌, ◌≢◌, ◌<◌, ◌≤◌, ◌↔◌, ◌^◌, ◌∷◌, ◌++◌, [], None, length, drop, slice_get, is_some, true, All, IfOk, IfSome, IsOk, OnOk, OnErr, Err, Some};
ghost use Rattle.std.specs.Fmt.{signed_decimal};
ghost use Rattle.mb_text.specs.declared.texts.TextFault.TheVariants as TextFault;
ghost use Rattle.mb_text.specs.Texts.{with_text, text_at};
ghost use Rattle.mb_world.specs.Data.{fresh, script_of, cell_at, scope_at, property_at, slots_at, names_at, kind_stand, stand, with_texts, change_cell, put_in, remove_in, with_proto, closed, with_kind, with_slot, change_scope, giving, queue_of, with_queue, with_program};
ghost use Rattle.mb_world.specs.Ids.{TextIn, ObjIn, ScopeIn, KeyIn, ValueIn, FullIn, PairIn, KindIn, JobIn, RuleIn, ScriptIn, Maybe, IsCollection};

use super::World;
use crate::cell::CellKind;
use crate::rule::Rules;
use crate::scope::Job;
use mb_base::{Key, NoMemory, ObjId, ScopeId, Side, StrId, Value};
use mb_desc::Full;
use mb_text::{TextFault, Texts};
use mb_tree::Program;

impl World {
    ghost use Rattle.mb_world.specs.declared.cell.Cell.{Cell};

    /// Takes these texts, in a fresh world.
    pub fn set_texts(&mut self, texts: Texts)
        requires { self.old ≡ fresh }
        ensures { self.new ≡ with_texts self.old texts }
    {
        self.texts = texts;
    }

    /// The id of the text of these units, which is added as the last where it isn't there yet.
    pub fn intern(&mut self, units: &[u16]) -> Result<StrId, TextFault>
        ensures texts { OnOk result (self.new ≡ with_texts self.old (with_text self.old.texts units.now)) }
        ensures text { IfOk result (λ id. slice_get self.new.texts id.0 ≡ Some units.now) }
        ensures long { (result ≡ Err TextFault.Long) ↔ (2 ^ 20 < length units.now) }
        ensures kept { OnErr result (self.new ≡ self.old) }
    {
        let id = self.texts.intern(units)?;
        Ok(id)
    }

    /// The id of the text of one text and another behind it.
    pub fn join(&mut self, a: StrId, b: StrId) -> Result<StrId, TextFault>
        requires first { TextIn self.old a }
        requires second { TextIn self.old b }
        ensures texts { OnOk result (self.new ≡ with_texts self.old
            (with_text self.old.texts (text_at self.old.texts a ++ text_at self.old.texts b))) }
        ensures text { IfOk result (λ id. slice_get self.new.texts id.0
            ≡ Some (text_at self.old.texts a ++ text_at self.old.texts b)) }
        ensures long { (result ≡ Err TextFault.Long)
            ↔ (2 ^ 20 < length (text_at self.old.texts a ++ text_at self.old.texts b)) }
        ensures kept { OnErr result (self.new ≡ self.old) }
    {
        let id = self.texts.join(a, b)?;
        Ok(id)
    }

    /// The id of the decimal text of a whole number.
    pub fn of_whole(&mut self, n: i64) -> Result<StrId, NoMemory>
        ensures texts { OnOk result (self.new ≡ with_texts self.old (with_text self.old.texts (signed_decimal n))) }
        ensures text { IfOk result (λ id. slice_get self.new.texts id.0 ≡ Some (signed_decimal n)) }
        ensures kept { OnErr result (self.new ≡ self.old) }
    {
        let id = self.texts.of_whole(n)?;
        Ok(id)
    }

    /// Sets how many sides take part, in a world without cells.
    pub fn set_sides(&mut self, sides: u8)
        requires { self.old.cells ≡ [] }
        ensures { self.new ≡ record self.old { sides = sides } }
    {
        self.sides = sides;
    }

    /// Sets the script of a side.
    pub fn set_program(&mut self, side: Side, program: Program)
        requires side { side.0 < 8 }
        requires program { ScriptIn self.old (script_of program) }
        ensures { self.new ≡ with_program self.old side (script_of program) }
    {
        self.programs[side.0 as usize] = Some(program);
    }

    /// Sets the rules of the policy.
    pub fn set_rules(&mut self, rules: Rules)
        requires { All (RuleIn self.old) rules }
        ensures { self.new ≡ record self.old { rules = rules } }
    {
        self.rules = rules;
    }

    pub fn set_joined(&mut self)
        ensures { self.new ≡ record self.old { joined = true } }
    {
        self.joined = true;
    }

    pub fn set_revoked(&mut self)
        ensures { self.new ≡ record self.old { revoked = true } }
    {
        self.revoked = true;
    }

    pub fn halt(&mut self)
        ensures { self.new ≡ record self.old { halted = true } }
    {
        self.halted = true;
    }

    /// Gives the cell another kind of the same variant. A membrane proxy keeps what is behind it, and a built-in its
    /// place.
    pub fn set_kind(&mut self, id: ObjId, kind: CellKind)
        requires object { ObjIn self.old id }
        requires kind { KindIn self.old kind }
        requires same { (c : Cell) → cell_at self.old id ≡ Some c → kind_stand kind ≡ stand c }
        ensures { self.new ≡ change_cell self.old id (with_kind kind) }
    {
        let cell = &mut self.cells[id.0 as usize];
        cell.kind = kind;
    }

    pub fn set_proto(&mut self, id: ObjId, proto: Value)
        requires object { ObjIn self.old id }
        requires proto { ValueIn self.old proto }
        ensures { self.new ≡ change_cell self.old id (with_proto proto) }
    {
        let cell = &mut self.cells[id.0 as usize];
        cell.proto = proto;
    }

    /// Makes the cell not extensible.
    pub fn close(&mut self, id: ObjId)
        requires { ObjIn self.old id }
        ensures { self.new ≡ change_cell self.old id closed }
    {
        let cell = &mut self.cells[id.0 as usize];
        cell.extensible = false;
    }

    /// Sets a property of a cell, which moves none that is there; only a new key may want memory.
    pub fn put(&mut self, id: ObjId, key: Key, full: Full<Value>) -> Result<(), NoMemory>
        requires object { ObjIn self.old id }
        requires key { KeyIn self.old key }
        requires full { FullIn self.old full }
        ensures put { OnOk result (self.new ≡ change_cell self.old id (put_in key full)) }
        ensures there { property_at self.old id key ≢ None → IsOk result }
        ensures kept { OnErr result (self.new ≡ self.old) }
    {
        let cell = &mut self.cells[id.0 as usize];
        cell.props.put(key, full)?;
        Ok(())
    }

    /// Takes the key of a cell out, and tells whether it was there.
    pub fn remove(&mut self, id: ObjId, key: Key) -> bool
        requires { ObjIn self.old id }
        ensures removed { self.new ≡ change_cell self.old id (remove_in key) }
        ensures was { result ≡ is_some (property_at self.old id key) }
    {
        let cell = &mut self.cells[id.0 as usize];
        cell.props.remove(key)
    }

    /// Writes a slot of a collection, or a new last one. Only that takes memory.
    pub fn set_slot(
        &mut self,
        id: ObjId,
        at: u32,
        pair: Option<(Value, Value)>,
    ) -> Result<(), NoMemory>
        requires object { ObjIn self.old id }
        requires collection { IsCollection (cell_at self.old id) }
        requires place { at ≤ length (slots_at self.old id) }
        requires pair { Maybe (PairIn self.old) pair }
        ensures set { OnOk result (self.new ≡ change_cell self.old id (with_slot at pair)) }
        ensures there { at < length (slots_at self.old id) → IsOk result }
        ensures kept { OnErr result (self.new ≡ self.old) }
    {
        let cell = &mut self.cells[id.0 as usize];
        cell.slots.set(at as usize, pair)?;
        Ok(())
    }

    /// Gives a value to a name of a scope, by its place.
    pub fn give(&mut self, scope: ScopeId, place: u32, value: Value)
        requires scope { ScopeIn self.old scope }
        requires place { place < length (names_at self.old scope) }
        requires value { ValueIn self.old value }
        ensures { self.new ≡ change_scope self.old scope (giving place value) }
    {
        let scope = &mut self.scopes[scope.0 as usize];
        scope.names.give(place as usize, value);
    }

    /// One more job of a side, last.
    pub fn add_job(&mut self, side: Side, job: Job) -> Result<(), NoMemory>
        requires side { side.0 < 8 }
        requires job { JobIn self.old job }
        ensures added { OnOk result (self.new ≡ with_queue self.old side (queue_of self.old side ++ job ∷ [])) }
        ensures kept { OnErr result (self.new ≡ self.old) }
    {
        let queue = &mut self.queues[side.0 as usize];
        queue.push_back(job)?;
        Ok(())
    }

    /// Takes the first job of a side, or `None` where its queue is empty.
    pub fn take_job(&mut self, side: Side) -> Option<Job>
        requires { side.0 < 8 }
        ensures job { result ≡ slice_get (queue_of self.old side) 0 }
        ensures taken { self.new ≡ with_queue self.old side (drop 1 (queue_of self.old side)) }
        ensures within { IfSome result (JobIn self.old) }
    {
        let queue = &mut self.queues[side.0 as usize];
        queue.pop_front()
    }
}

// The table of texts.
ghost use Rattle.std.specs.Prelude.{◌≡◌, ◌^◌, ℕ, List, [], ◌∷◌, ◌++◌, ◌<◌, ◌≤◌, ◌↔◌, false, length, map, slice_get, is_some, Some, IfSome, IfOk, OnOk, OnErr};
ghost use Rattle.std.specs.Fmt.{signed_decimal};
ghost use Rattle.mb_base.specs.declared.value.Key.TheVariants.{Text};
ghost use Rattle.mb_text.specs.Index.{index_of};
ghost use Rattle.mb_text.specs.Texts.{has_text, text_at, with_text, AreDistinct};

use crate::index::array_index;
use mb_base::{Key, NoMemory, StrId};
use std::alloc::{AllocError, Global};
use std::collections::BTreeMap;
use std::marker::Model;

/// The most units that a text may have.
pub const LONGEST: usize = 1_048_576;

// The most texts that a table may hold: each has its place as a `u32`.
const MOST: usize = 1 << 32;

/// Why a text wasn't taken: it has more than `LONGEST` units, or memory was wanted and wasn't there.
#[derive(Clone, Copy, Debug, PartialEq, Eq)]
pub enum TextFault {
    Long,
    NoMemory,
}

impl From<NoMemory> for TextFault {
    ghost use Rattle.std.specs.Prelude.{◌≡◌};
    ghost use Rattle.mb_text.specs.declared.texts.TextFault.{TextFault};

    ghost from_gives = { λ _ fault. fault ≡ TextFault.NoMemory };

    fn from(_: NoMemory) -> TextFault {
        TextFault::NoMemory
    }
}

/// Texts of UTF-16 code units (ECMA-262, 6.1.4), each once. Contracts see the list of the texts, in the order in
/// which they came, and the id of a text is its place in that list. A text is found by its place in an ordered
/// index, so no choice of texts makes the others slow.
#[derive(Drop)]
pub struct Texts {
    list: Vec<Vec<u16>>,
    ids: BTreeMap<Vec<u16>, StrId>,
}

impl Model for Texts {
    ghost use Rattle.std.specs.Prelude.{List, ℕ, ◌^◌, ◌≤◌, length};

    ghost Value = { List (List ℕ) };

    ghost use Rattle.mb_text.specs.Texts.{AreDistinct, texts_of};
    ghost use Rattle.mb_text.specs.machine.Ordered.{IsIndexOf};

    ghost view = { λ s. texts_of s.list.items };

    ghost invariant = { λ s. (length s.list.items ≤ 2 ^ 32) × AreDistinct (texts_of s.list.items)
        × IsIndexOf s.ids.entries (texts_of s.list.items) };
}

impl Texts {
    pub fn new(alloc: Global) -> Texts
        ensures { result ≡ [] }
    {
        Texts {
            list: Vec::new(alloc),
            ids: BTreeMap::new(alloc),
        }
    }

    /// The number of texts, which is the id that the next new text gets.
    pub fn len(&self) -> usize
        ensures len { result ≡ length self.now }
        ensures bound { result ≤ 2 ^ 32 }
    {
        self.list.len()
    }

    /// The id of a text that is there.
    pub fn find(&self, units: &[u16]) -> Option<StrId>
        ensures text { IfSome result (λ id. slice_get self.now id.0 ≡ Some units.now) }
        ensures found { is_some result ≡ has_text self.now units.now }
        ensures distinct { AreDistinct self.now }
    {
        self.ids.get(units).copied()
    }

    /// The id of the text of these units, which is added as the last where it isn't there yet.
    /// The time is linear in the units but for a factor that grows as the logarithm of the number of texts.
    pub fn intern(&mut self, units: &[u16]) -> Result<StrId, TextFault>
        ensures text { IfOk result (λ id. slice_get self.new id.0 ≡ Some units.now) }
        ensures texts { OnOk result (self.new ≡ with_text self.old units.now) }
        ensures long { (result ≡ Err TextFault.Long) ↔ (2 ^ 20 < length units.now) }
        ensures kept { OnErr result (self.new ≡ self.old) }
        ensures distinct { AreDistinct self.new }
    {
        let alloc = *self.list.allocator();
        if units.len() > LONGEST {
            return Err(TextFault::Long);
        }
        if let Some(id) = self.find(units) {
            return Ok(id);
        }
        let text = copied(alloc, units)?;
        Ok(self.append(text)?)
    }

    /// The id of the text of one text and another behind it.
    pub fn join(&mut self, a: StrId, b: StrId) -> Result<StrId, TextFault>
        requires first { a.0 < length self.old }
        requires second { b.0 < length self.old }
        ensures text { IfOk result (λ id. slice_get self.new id.0 ≡ Some (text_at self.old a ++ text_at self.old b)) }
        ensures texts { OnOk result (self.new ≡ with_text self.old (text_at self.old a ++ text_at self.old b)) }
        ensures long { (result ≡ Err TextFault.Long) ↔ (2 ^ 20 < length (text_at self.old a ++ text_at self.old b)) }
        ensures kept { OnErr result (self.new ≡ self.old) }
        ensures distinct { AreDistinct self.new }
    {
        let alloc = *self.list.allocator();
        let first = self.units(a);
        let second = self.units(b);
        if first.len() + second.len() > LONGEST {
            return Err(TextFault::Long);
        }
        let text = joined(alloc, first, second)?;
        Ok(self.add(text)?)
    }

    /// The id of the decimal text of a whole number.
    pub fn of_whole(&mut self, n: i64) -> Result<StrId, NoMemory>
        ensures text { IfOk result (λ id. slice_get self.new id.0 ≡ Some (signed_decimal n)) }
        ensures texts { OnOk result (self.new ≡ with_text self.old (signed_decimal n)) }
        ensures kept { OnErr result (self.new ≡ self.old) }
        ensures distinct { AreDistinct self.new }
    {
        let alloc = *self.list.allocator();
        let text = n.to_string(alloc)?;
        let units = widened(alloc, text.as_bytes())?;
        self.add(units)
    }

    /// The units of a text of this table.
    pub fn units(&self, id: StrId) -> &[u16]
        requires { id.0 < length self.now }
        ensures text { slice_get self.now id.0 ≡ Some result.now }
        ensures distinct { AreDistinct self.now }
    {
        self.list[id.0 as usize].as_slice()
    }

    /// The text as a property key, with the array index that it spells (ECMA-262, 6.1.7), or `u32::MAX` for none.
    pub fn key(&self, id: StrId) -> Key
        requires { id.0 < length self.now }
        ensures { result ≡ Text id (index_of (text_at self.now id)) }
    {
        Key::Text {
            text: id,
            index: array_index(self.units(id)),
        }
    }

    // The id of a text of any length, which is added as the last where it isn't there yet.
    fn add(&mut self, text: Vec<u16>) -> Result<StrId, NoMemory>
        ensures text { IfOk result (λ id. slice_get self.new id.0 ≡ Some text.items) }
        ensures texts { OnOk result (self.new ≡ with_text self.old text.items) }
        ensures kept { OnErr result (self.new ≡ self.old) }
        ensures distinct { AreDistinct self.new }
    {
        match self.find(&text) {
            Some(id) => Ok(id),
            None => self.append(text),
        }
    }

    // The id of a text that isn't there, which is added as the last.
    fn append(&mut self, text: Vec<u16>) -> Result<StrId, NoMemory>
        requires { has_text self.old text.items ≡ false }
        ensures text { IfOk result (λ id. slice_get self.new id.0 ≡ Some text.items) }
        ensures texts { OnOk result (self.new ≡ self.old ++ text.items ∷ []) }
        ensures kept { OnErr result (self.new ≡ self.old) }
        ensures distinct { AreDistinct self.new }
    {
        if self.list.len() == MOST {
            return Err(NoMemory);
        }
        let id = StrId(self.list.len() as u32);
        let key = copied(*self.list.allocator(), &text)?;
        self.list.push(text)?;
        match self.ids.insert(key, id) {
            Ok(_) => Ok(id),
            Err(_) => {
                let _ = self.list.pop();
                Err(NoMemory)
            }
        }
    }
}

/// The law of ids: in a table where no text stands twice, equal texts have equal ids.
pub fn equal_texts_have_equal_ids()
    ensures { (texts : List (List ℕ)) (i j : ℕ) (text : List ℕ) → AreDistinct texts →
        slice_get texts i ≡ Some text → slice_get texts j ≡ Some text → i ≡ j }
{}

fn copied(alloc: Global, units: &[u16]) -> Result<Vec<u16>, NoMemory>
    ensures { IfOk result (λ text. text.items ≡ units.now) }
{
    Ok(units.to_vec(alloc)?)
}

// One text and another behind it.
fn joined(alloc: Global, first: &[u16], second: &[u16]) -> Result<Vec<u16>, NoMemory>
    ensures { IfOk result (λ text. text.items ≡ first.now ++ second.now) }
{
    let mut text = first.to_vec(alloc)?;
    text.extend_from_slice(second)?;
    Ok(text)
}

// The units of a text of ASCII.
fn widened(alloc: Global, bytes: &[u8]) -> Result<Vec<u16>, AllocError>
    ensures { IfOk result (λ units. units.items ≡ map (λ byte. byte) bytes.now) }
{
    bytes.iter().map(|byte| u16::from(*byte)).collect(alloc)
}

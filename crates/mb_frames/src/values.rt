// Lists that frames hold.
ghost use Rattle.std.specs.Prelude.{◌≡◌, [], ◌∷◌, ◌++◌, length, slice_get, OnOk, OnErr};

use mb_base::{NoMemory, Value};
use std::alloc::Global;
use std::marker::Model;

/// A list of values.
#[derive(Debug, Drop)]
pub struct Values {
    items: Vec<Value>,
}

impl Model for Values {
    ghost use Rattle.std.specs.Prelude.{List};
    ghost use Rattle.mb_base.specs.declared.value.Value.{Value as AValue};

    ghost Value = { List AValue };

    ghost view = { λ values. values.items.items };
}

impl From<Vec<Value>> for Values {
    ghost use Rattle.std.specs.Prelude.{◌≡◌};

    ghost from_gives = { λ items values. values ≡ items.items };

    fn from(items: Vec<Value>) -> Values {
        Values { items }
    }
}

impl Values {
    /// No values.
    pub fn new(alloc: Global) -> Values
        ensures { result ≡ [] }
    {
        Values {
            items: Vec::new(alloc),
        }
    }

    /// The values.
    pub fn items(&self) -> &[Value]
        ensures { result.now ≡ self.now }
    {
        &self.items
    }

    /// The number of values.
    pub fn len(&self) -> usize
        ensures { result ≡ length self.now }
    {
        self.items.len()
    }

    /// The value at that place, or `None` past the end.
    pub fn at(&self, place: usize) -> Option<Value>
        ensures { result ≡ slice_get self.now place }
    {
        self.items.get(place).copied()
    }

    /// One more value, last.
    pub fn push(&mut self, value: Value) -> Result<(), NoMemory>
        ensures pushed { OnOk result (self.new ≡ self.old ++ value ∷ []) }
        ensures kept { OnErr result (self.new ≡ self.old) }
    {
        self.items.push(value)?;
        Ok(())
    }
}

/// The units of a text that isn't in the table of texts.
#[derive(Debug, Drop)]
pub struct Units {
    items: Vec<u16>,
}

impl Model for Units {
    ghost use Rattle.std.specs.Prelude.{List, ℕ};

    ghost Value = { List ℕ };

    ghost view = { λ units. units.items.items };
}

impl Units {
    /// No units.
    pub fn new(alloc: Global) -> Units
        ensures { result ≡ [] }
    {
        Units {
            items: Vec::new(alloc),
        }
    }

    /// The units.
    pub fn items(&self) -> &[u16]
        ensures { result.now ≡ self.now }
    {
        &self.items
    }

    /// More units, last.
    pub fn extend(&mut self, units: &[u16]) -> Result<(), NoMemory>
        ensures extended { OnOk result (self.new ≡ self.old ++ units.now) }
        ensures kept { OnErr result (self.new ≡ self.old) }
    {
        self.items.extend_from_slice(units)?;
        Ok(())
    }
}

// The trace.
ghost use Rattle.std.specs.Prelude.{◌≡◌, [], ◌∷◌, ◌++◌, OnErr, OnOk};

use mb_base::{Key, NoMemory, Side, StrId};
use mb_desc::Desc;
use std::marker::Model;

/// An internal method, named as in Reflect (ECMA-262, 28.1), or an access of a collection by the built-in at
/// that place of the table.
#[derive(Clone, Copy, Debug, PartialEq, Eq)]
pub enum Op {
    GetPrototypeOf,
    SetPrototypeOf,
    IsExtensible,
    PreventExtensions,
    GetOwnPropertyDescriptor,
    DefineProperty,
    Has,
    Get,
    Set,
    DeleteProperty,
    OwnKeys,
    Apply,
    Construct,
    Collect(u16),
}

/// A value as the trace has it: a symbol and an object by its number, a built-in by its place in the table.
#[derive(Clone, Copy, Debug, PartialEq, Eq)]
pub enum Seen {
    Undefined,
    Null,
    Bool(bool),
    Whole(i64),
    Text(StrId),
    Symbol(u32),
    Object(u32),
    BuiltIn(u16),
}

/// A list of keys.
#[derive(Debug, Drop)]
pub struct KeyList {
    items: Vec<Key>,
}

impl Model for KeyList {
    ghost use Rattle.std.specs.Prelude.{List};
    ghost use Rattle.mb_base.specs.declared.value.Key.{Key};

    ghost Value = { List Key };

    ghost view = { λ keys. keys.items.items };
}

impl From<Vec<Key>> for KeyList {
    ghost use Rattle.std.specs.Prelude.{◌≡◌};

    ghost from_gives = { λ items keys. keys ≡ items.items };

    fn from(items: Vec<Key>) -> KeyList {
        KeyList { items }
    }
}

impl KeyList {
    /// The keys.
    pub fn items(&self) -> &[Key]
        ensures { result.now ≡ self.now }
    {
        &self.items
    }

    /// Adds a key behind the others.
    pub fn push(&mut self, key: Key) -> Result<(), NoMemory>
        ensures pushed { OnOk result (self.new ≡ self.old ++ key ∷ []) }
        ensures kept { OnErr result (self.new ≡ self.old) }
    {
        self.items.push(key)?;
        Ok(())
    }
}

/// What an entry gives or answers. A pair is a key with its value, of an access of a collection.
#[derive(Drop)]
pub enum Said {
    Nothing,
    Flag(bool),
    Plain(Seen),
    Absent,
    Prop(Desc<Seen>),
    Keys(KeyList),
    Thrown(Seen),
    Pair(Seen, Seen),
}

/// An entry of the trace: what a side performed on a foreign object. `began` is how many entries were complete
/// when it began.
#[derive(Drop)]
pub struct Entry {
    pub began: u32,
    pub side: Side,
    pub object: u32,
    pub op: Op,
    pub key: Option<Key>,
    pub given: Said,
    pub answer: Said,
}

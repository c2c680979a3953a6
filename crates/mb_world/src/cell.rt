// Objects as they lie in the arena.
ghost use Rattle.std.specs.Prelude.{◌≡◌, ◌<◌, ◌≤◌, ◌+◌, ◌∷◌, ◌++◌, [], length, take, drop, IsOk, OnOk, OnErr};

use mb_base::{NoMemory, NodeId, ObjId, ScopeId, Side, StrId, Value};
use mb_desc::Full;
use mb_props::Props;
use std::alloc::Global;
use std::marker::Model;

/// The kind of an error object (ECMA-262, 20.5).
#[derive(Clone, Copy, Debug, PartialEq, Eq)]
pub enum ErrorKind {
    Error,
    TypeError,
    RangeError,
    ReferenceError,
}

/// What a function closes over (ECMA-262, 10.2). An arrow function keeps the `this` of where it was made.
#[derive(Clone, Copy, Debug, PartialEq, Eq)]
pub struct Code {
    pub side: Side,
    pub node: NodeId,
    pub scope: ScopeId,
    pub constructs: bool,
    pub bound_this: Option<Value>,
}

/// What an object is for whoever calls it or asks whether it is an array.
#[derive(Clone, Copy, Debug, PartialEq, Eq)]
pub enum Shape {
    Plain,
    Array,
    Calls,
    Constructs,
}

/// Which collection (ECMA-262, 24).
#[derive(Clone, Copy, Debug, PartialEq, Eq)]
pub enum Coll {
    Map,
    Set,
    WeakMap,
}

/// What kind of object a cell is. A script-made Proxy without target and handler is revoked. A membrane
/// proxy names the object of another side that it stands for, and its shadow target.
#[derive(Clone, Copy, Debug, PartialEq, Eq)]
pub enum CellKind {
    Plain,
    Array,
    Function(Code),
    BuiltIn(u16),
    Fault(ErrorKind),
    Proxy {
        target: Option<ObjId>,
        handler: Option<ObjId>,
        shape: Shape,
    },
    Revoker(ObjId),
    Membrane {
        behind: ObjId,
        shadow: ObjId,
    },
    Shadow(Shape),
    Collection(Coll),
}

/// The slots of a collection, in the order of their making: each a key with its value, or empty.
#[derive(Drop)]
pub struct Slots {
    items: Vec<Option<(Value, Value)>>,
}

impl Model for Slots {
    ghost use Rattle.std.specs.Prelude.{List, Option};
    ghost use Rattle.mb_base.specs.declared.value.Value.{Value as AValue};

    ghost Value = { List (Option (AValue × AValue)) };

    ghost view = { λ slots. slots.items.items };
}

impl Slots {
    /// No slots.
    pub fn new(alloc: Global) -> Slots
        ensures { result ≡ [] }
    {
        Slots {
            items: Vec::new(alloc),
        }
    }

    /// The slots.
    pub fn items(&self) -> &[Option<(Value, Value)>]
        ensures { result.now ≡ self.now }
    {
        &self.items
    }

    /// Writes the slot at that place, or a new last one.
    pub(crate) fn set(&mut self, at: usize, pair: Option<(Value, Value)>) -> Result<(), NoMemory>
        requires { at ≤ length self.old }
        ensures set { OnOk result (self.new ≡ take at self.old ++ pair ∷ drop (at + 1) self.old) }
        ensures there { at < length self.old → IsOk result }
        ensures kept { OnErr result (self.new ≡ self.old) }
    {
        if at < self.items.len() {
            self.items[at] = pair;
            Ok(())
        } else {
            self.items.push(pair)?;
            Ok(())
        }
    }
}

/// An object. The slots are those of a collection; no other kind has any.
#[derive(Drop)]
pub struct Cell {
    pub home: Side,
    pub kind: CellKind,
    pub proto: Value,
    pub extensible: bool,
    pub props: Props<Full<Value>>,
    pub label: Option<StrId>,
    pub slots: Slots,
}

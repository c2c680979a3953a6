// Built-ins that wait: Map, Set, WeakMap.
use crate::values::Values;
use mb_base::{ObjId, Value};
use mb_world::Coll;

/// Where forEach stands, which is the built-in at `place` of the table.
#[derive(Clone, Copy, Debug, PartialEq, Eq)]
pub struct Visiting {
    pub place: u16,
    pub collection: ObjId,
    pub function: Value,
    pub this: Value,
    pub position: u32,
}

/// A built-in of a collection that waits (ECMA-262, 24).
#[derive(Drop)]
pub enum CollectFrame {
    /// An access answered yes or no.
    Truth,
    /// An access changed the collection, which is given back.
    Chained { collection: ObjId },
    /// forEach read a slot.
    SlotRead { at: Visiting },
    /// forEach called its function.
    Called { at: Visiting },
    /// A constructor got its new target's `prototype`.
    Prototype { coll: Coll, arguments: Values },
}

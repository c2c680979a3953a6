// Built-ins that wait: Array.
use crate::values::{Units, Values};
use mb_base::{ObjId, Value};

/// A member of Array.prototype that begins with the length of its `this`.
#[derive(Drop)]
pub enum Member {
    Push {
        arguments: Values,
    },
    Pop,
    ForEach {
        function: Value,
        this: Value,
    },
    Map {
        function: Value,
        this: Value,
    },
    Filter {
        function: Value,
        this: Value,
    },
    Reduce {
        function: Value,
        first: Option<Value>,
    },
    IndexOf {
        value: Value,
        from: Value,
    },
    Slice {
        from: Value,
        to: Value,
    },
    Join {
        separator: Value,
    },
}

/// A loop that calls a function for each element that is there. Map and filter fill `array`.
#[derive(Clone, Copy, Debug, PartialEq, Eq)]
pub enum Callback {
    ForEach {
        function: Value,
        this: Value,
    },
    Map {
        function: Value,
        this: Value,
        array: ObjId,
    },
    Filter {
        function: Value,
        this: Value,
        array: ObjId,
        count: u64,
    },
    Reduce {
        function: Value,
        so_far: Option<Value>,
    },
}

/// A loop over the elements of an array. The index of slice's elements is `from` more than their place.
#[derive(Clone, Copy, Debug, PartialEq, Eq)]
pub enum Turn {
    Call(Callback),
    IndexOf { value: Value },
    Slice { array: ObjId, from: u64 },
}

/// Array or a member of Array.prototype that waits (ECMA-262, 23.1). `place` is an index, `left` how many come after
/// it.
#[derive(Drop)]
pub enum ArrayFrame {
    /// Array got its new target's `prototype`.
    Prototype {
        arguments: Values,
    },
    /// The length of a member's `this`.
    Length {
        object: ObjId,
        member: Member,
    },
    /// Whether an element is there.
    There {
        object: ObjId,
        place: u64,
        left: u64,
        turn: Turn,
    },
    /// An element was got.
    Got {
        object: ObjId,
        place: u64,
        left: u64,
        turn: Turn,
    },
    /// The function was called with an element.
    Called {
        object: ObjId,
        place: u64,
        left: u64,
        element: Value,
        callback: Callback,
    },
    /// push set an argument; `next` is the place of the one after it.
    PushSet {
        object: ObjId,
        place: u64,
        arguments: Values,
        next: u32,
    },
    /// push set the length.
    PushLength {
        length: u64,
    },
    /// pop got the last element.
    PopGot {
        object: ObjId,
        place: u64,
    },
    /// pop deleted it.
    PopDeleted {
        object: ObjId,
        place: u64,
        value: Value,
    },
    /// pop set the length.
    PopLength {
        value: Value,
    },
    /// join got an element.
    JoinGot {
        object: ObjId,
        place: u64,
        left: u64,
        separator: Units,
        so_far: Units,
    },
}

// Methods, functions, lists and descriptors that wait.
use crate::task::Context;
use crate::values::Values;
use mb_base::{Key, NodeId, ObjId, StrId, Value};
use mb_desc::Desc;

/// What follows where a list was read.
#[derive(Clone, Copy, Debug, PartialEq, Eq)]
pub enum AfterList {
    Apply { function: Value, this: Value },
    Construct { function: ObjId, target: Value },
    /// The list is what a trap of ownKeys said.
    Keys { target: ObjId },
}

/// A field of a descriptor, in the order in which they are read.
#[derive(Clone, Copy, Debug, PartialEq, Eq)]
pub enum Field {
    Enumerable,
    Configurable,
    Value,
    Writable,
    Get,
    Set,
}

/// What follows where a descriptor was read.
#[derive(Clone, Copy, Debug, PartialEq, Eq)]
pub enum AfterDesc {
    ObjectDefine { object: ObjId, key: Key },
    ReflectDefine { object: ObjId, key: Key },
    /// The descriptor is what a trap of getOwnPropertyDescriptor said.
    Own { target: ObjId, key: Key },
}

/// A method of an object, a function or the reading of a list or of a descriptor, which waits (ECMA-262, 7.3, 10.1,
/// 10.2, 6.2.6).
#[derive(Drop)]
pub enum CallFrame {
    /// A setter was called.
    SetterCalled,
    /// What the receiver of a set has was read.
    ReceiverRead {
        key: Key,
        value: Value,
        receiver: ObjId,
    },
    /// The new target's `prototype` was got.
    ConstructPrototype {
        function: ObjId,
        label: Option<StrId>,
        arguments: Values,
    },
    /// The body of a constructor ended.
    ConstructBody {
        made: ObjId,
    },
    /// A statement of a body ended; `next` is the place of the one after it.
    Statement {
        at: Context,
        node: NodeId,
        next: u32,
    },
    /// The expression of an arrow function.
    ArrowValue,
    /// The length of a list.
    ListLength {
        list: ObjId,
        after: AfterList,
    },
    /// An element of a list, after `done`; `left` come after it.
    ListElement {
        list: ObjId,
        left: u64,
        done: Values,
        after: AfterList,
    },
    /// Whether a descriptor has a field.
    FieldThere {
        object: ObjId,
        field: Field,
        desc: Desc<Value>,
        after: AfterDesc,
    },
    /// A field of a descriptor.
    FieldGot {
        object: ObjId,
        field: Field,
        desc: Desc<Value>,
        after: AfterDesc,
    },
}

// What is to be done, and how it may end.
use crate::values::Values;
use mb_base::{Key, NodeId, ObjId, ScopeId, Side, Value};
use mb_desc::{Desc, Full};
use mb_world::KeyList;

/// Where a node is evaluated (ECMA-262, 9.4): the scope and `this`.
#[derive(Clone, Copy, Debug, PartialEq, Eq)]
pub struct Context {
    pub scope: ScopeId,
    pub this: Value,
}

/// An essential internal method with its arguments (ECMA-262, 6.1.7.2). `Construct` ends with the new target.
#[derive(Drop)]
pub enum Method {
    GetPrototypeOf,
    SetPrototypeOf(Value),
    IsExtensible,
    PreventExtensions,
    GetOwnProperty(Key),
    DefineOwnProperty(Key, Desc<Value>),
    HasProperty(Key),
    Get {
        key: Key,
        receiver: Value,
    },
    Set {
        key: Key,
        value: Value,
        receiver: Value,
    },
    Delete(Key),
    OwnPropertyKeys,
    Call {
        this: Value,
        arguments: Values,
    },
    Construct {
        arguments: Values,
        target: Value,
    },
}

/// What an access asks of a collection (ECMA-262, 24): one of its members, or a slot for forEach.
#[derive(Clone, Copy, Debug, PartialEq, Eq)]
pub enum Request {
    GetAt(Value),
    SetAt { key: Value, value: Value },
    Add(Value),
    Has(Value),
    DeleteAt(Value),
    Clear,
    Size,
    Slot(u32),
}

/// What is to be done, by the side at whose home it is. A place is one of the table of built-ins. The next turn of a
/// `for`, the next object of `instanceof` and of setPrototypeOf, and the next position of a collection's forEach only
/// start anew.
#[derive(Drop)]
pub enum Task {
    Evaluate {
        node: NodeId,
        at: Context,
    },
    Loop {
        node: NodeId,
        at: Context,
    },
    Chain {
        object: ObjId,
        prototype: ObjId,
    },
    Walk {
        object: ObjId,
        given: Value,
        next: Value,
    },
    /// A method of an object, as `viewer` sees it; `enters` tells whether it makes an entry where the object is
    /// foreign.
    Perform {
        method: Method,
        object: ObjId,
        viewer: Side,
        enters: bool,
    },
    Enter {
        function: ObjId,
        this: Value,
        arguments: Values,
    },
    Run {
        place: u16,
        this: Value,
        arguments: Values,
        target: Value,
    },
    Access {
        place: u16,
        collection: ObjId,
        request: Request,
    },
    Visit {
        place: u16,
        collection: ObjId,
        function: Value,
        this: Value,
        position: u32,
    },
}

/// What a task gives where it ends normally. A pair or an empty slot is what forEach reads of a collection.
#[derive(Drop)]
pub enum Answer {
    Nothing,
    Value(Value),
    Flag(bool),
    Prop(Option<Full<Value>>),
    Given(Desc<Value>),
    Keys(KeyList),
    Values(Values),
    Place { base: Value, key: Key },
    Pair { key: Value, value: Value },
    Empty,
}

/// How a task ends: completion records (ECMA-262, 6.2.4).
#[derive(Drop)]
pub enum Outcome {
    Normal(Answer),
    Throw(Value),
    Return(Value),
    Break,
    Continue,
}

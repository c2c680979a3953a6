// What is answered where another object may be asked next.

use mb_base::{ObjId, Value};
use mb_desc::Full;

/// What is found at a key, or the prototype where it is to be looked up.
#[derive(Clone, Copy, Debug, PartialEq, Eq)]
pub enum Look {
    Found(Full<Value>),
    Up(Value),
}

/// What a write at a key does next: it is refused, goes on at the prototype, stores in the receiver, or calls a setter.
#[derive(Clone, Copy, Debug, PartialEq, Eq)]
pub enum SetStep {
    Refuse,
    Up(Value),
    Store,
    Setter(ObjId),
}

/// What the walk over prototypes finds at an object: that its prototype is the one to be set, the walk's end, or what
/// comes next.
#[derive(Clone, Copy, Debug, PartialEq, Eq)]
pub enum Visit {
    Meets,
    Ends,
    Onward(Value),
}

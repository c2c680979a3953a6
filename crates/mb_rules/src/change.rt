// Changes, and what the rules say of them.
use mb_base::{Key, Value};

/// A change that a side asks of an object, by the internal method: setPrototypeOf with the prototype as the object's
/// own side has it, preventExtensions, or defineProperty, set or deleteProperty at a key.
#[derive(Clone, Copy, Debug, PartialEq, Eq)]
pub enum Change {
    Proto(Value),
    Prevent,
    Define(Key),
    Set(Key),
    Delete(Key),
}

/// What the rules say of a change: nothing, or that it has this answer and changes nothing.
#[derive(Clone, Copy, Debug, PartialEq, Eq)]
pub enum Ruling {
    Free,
    Decided(bool),
}

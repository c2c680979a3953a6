// Built-ins that wait: Object, Reflect, errors.
use crate::values::Values;
use mb_base::{Key, ObjId, Value};
use mb_world::{ErrorKind, KeyList};

/// A member of Object or Reflect or an error constructor that waits (ECMA-262, 20.1, 20.5, 28.1).
#[derive(Drop)]
pub enum ReflectFrame {
    /// Object got its new target's `prototype`.
    ObjectPrototype,
    /// An error constructor got its new target's `prototype`.
    ErrorPrototype {
        kind: ErrorKind,
        message: Value,
    },
    /// Object.keys has the keys.
    KeysListed {
        object: ObjId,
    },
    /// Object.keys read what a key has, after `found`.
    KeyRead {
        object: ObjId,
        key: Key,
        keys: KeyList,
        next: u32,
        found: Values,
    },
    /// Object.getOwnPropertySymbols has the keys.
    SymbolsListed,
    /// Object.freeze or seal prevented extensions.
    Closed {
        object: ObjId,
        frozen: bool,
    },
    /// It has the keys.
    SettledKeys {
        object: ObjId,
        frozen: bool,
    },
    /// Object.freeze read what a key has.
    FreezeRead {
        object: ObjId,
        key: Key,
        keys: KeyList,
        next: u32,
    },
    /// It defined a key.
    Settled {
        object: ObjId,
        frozen: bool,
        keys: KeyList,
        next: u32,
    },
    /// Object.isFrozen asked whether the object is extensible.
    FrozenExtensible {
        object: ObjId,
    },
    /// It has the keys.
    FrozenKeys {
        object: ObjId,
    },
    /// It read what a key has.
    FrozenRead {
        object: ObjId,
        keys: KeyList,
        next: u32,
    },
    /// A change was asked of `object`, which is given back.
    GivenBack {
        object: ObjId,
    },
    /// A property was read, of which a descriptor is made.
    Described,
    /// Object.prototype.hasOwnProperty read a property.
    HasOwn,
    /// A method of Reflect answered yes or no.
    Truth,
    /// Reflect.ownKeys has the keys.
    OwnKeys,
}

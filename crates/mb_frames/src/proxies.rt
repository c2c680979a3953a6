// Script-made Proxies that wait.
use crate::task::Method;
use mb_base::{Key, ObjId, Side, Value};
use mb_desc::{Desc, Full};
use mb_world::KeyList;

/// Which trap said that a property is absent: that it has none, that it isn't there, that it is deleted.
#[derive(Clone, Copy, Debug, PartialEq, Eq)]
pub enum Absent {
    Own,
    Has,
    Delete,
}

/// A method of a script-made Proxy that waits, at home with its owner (ECMA-262, 10.5).
#[derive(Drop)]
pub enum ProxyFrame {
    /// The trap was looked up, for a method that `side` performs.
    TrapGot {
        side: Side,
        target: ObjId,
        handler: ObjId,
        method: Method,
    },
    /// The trap was called.
    Said {
        target: ObjId,
        method: Method,
    },
    /// getPrototypeOf asked whether the target is extensible.
    PrototypeExtensible {
        target: ObjId,
        said: Value,
    },
    /// It read the target's prototype.
    PrototypeRead {
        said: Value,
    },
    /// setPrototypeOf asked whether the target is extensible.
    SetPrototypeExtensible {
        target: ObjId,
        given: Value,
    },
    /// It read the target's prototype.
    SetPrototypeRead {
        given: Value,
    },
    /// isExtensible asked the target.
    ExtensibleRead {
        said: bool,
    },
    /// preventExtensions asked whether the target is extensible.
    PreventRead,
    /// A property that was said to be absent was read of the target.
    AbsentRead {
        target: ObjId,
        absent: Absent,
    },
    /// And then whether the target is extensible.
    AbsentExtensible {
        real: Full<Value>,
        absent: Absent,
    },
    /// getOwnPropertyDescriptor read what the target has.
    OwnRead {
        target: ObjId,
        said: Full<Value>,
    },
    /// And then whether the target is extensible.
    OwnExtensible {
        said: Full<Value>,
        real: Option<Full<Value>>,
    },
    /// defineProperty read what the target has.
    DefineRead {
        target: ObjId,
        given: Desc<Value>,
    },
    /// And then whether the target is extensible.
    DefineExtensible {
        given: Desc<Value>,
        real: Option<Full<Value>>,
    },
    /// get read what the target has.
    GetRead {
        said: Value,
    },
    /// set read what the target has.
    SetRead {
        given: Value,
    },
    /// ownKeys asked whether the target is extensible.
    KeysExtensible {
        target: ObjId,
        said: KeyList,
    },
    /// It has the target's keys.
    KeysListed {
        target: ObjId,
        said: KeyList,
        extensible: bool,
    },
    /// It read what the target has at a key; `next` is the place of the one after it.
    KeyRead {
        target: ObjId,
        said: KeyList,
        extensible: bool,
        key: Key,
        keys: KeyList,
        next: u32,
        fixed: KeyList,
        loose: KeyList,
    },
}

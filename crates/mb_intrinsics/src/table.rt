// The table of built-ins (ECMA-262, 18 to 28): by place, the prototype of each and its own properties.
ghost use Rattle.std.specs.Prelude.{◌≡◌, ◌<◌, Some, length, map, slice_get, true};
ghost use Rattle.std.specs.List.{list_all};
ghost use Rattle.mb_world.specs.Intrinsics.{intrinsics};
ghost use Rattle.mb_intrinsics.specs.machine.Table.{IsSound, is_sound_row, row_in, row_of};

use crate::places::*;
use Given::{BuiltIn, Getter, Text, Whole};

/// What a property has: a number, a text, or a built-in by its place, as its value or as its getter.
#[derive(Clone, Copy, Debug)]
pub(crate) enum Given {
    Whole(u8),
    Text(&'static str),
    BuiltIn(u16),
    Getter(u16),
}

/// A property: its key, and what it has.
pub(crate) type Property = (&'static str, Given);

/// A built-in: the place of its prototype, or `None` for null; of a function the `length` and the `name`; its further
/// properties in order of creation.
#[derive(Clone, Copy, Debug)]
pub(crate) struct Row(
    pub Option<u16>,
    pub Option<(u8, &'static str)>,
    pub &'static [Property],
);

// How many built-ins there are.
pub(crate) const PLACES: u16 = 80;

// Every text of the table has at most so many units.
pub(crate) const MOST_UNITS: usize = 24;

// The prototypes of most functions, and of most other objects.
const FUNCTION: Option<u16> = Some(FUNCTION_PROTOTYPE);

const PLAIN: Option<u16> = Some(OBJECT_PROTOTYPE);

static TABLE: [Row; 80] = [
    // print
    Row(FUNCTION, Some((0, "print")), &[]),
    // later
    Row(FUNCTION, Some((1, "later")), &[]),
    // labelled
    Row(FUNCTION, Some((1, "labelled")), &[]),
    // Object
    Row(
        FUNCTION,
        Some((1, "Object")),
        &[
            ("prototype", BuiltIn(OBJECT_PROTOTYPE)),
            ("create", BuiltIn(OBJECT_CREATE)),
            ("keys", BuiltIn(OBJECT_KEYS)),
            ("freeze", BuiltIn(OBJECT_FREEZE)),
            ("isFrozen", BuiltIn(OBJECT_IS_FROZEN)),
            ("seal", BuiltIn(OBJECT_SEAL)),
            ("getPrototypeOf", BuiltIn(OBJECT_GET_PROTOTYPE_OF)),
            ("setPrototypeOf", BuiltIn(OBJECT_SET_PROTOTYPE_OF)),
            ("defineProperty", BuiltIn(OBJECT_DEFINE_PROPERTY)),
            (
                "getOwnPropertyDescriptor",
                BuiltIn(OBJECT_GET_OWN_PROPERTY_DESCRIPTOR),
            ),
            (
                "getOwnPropertySymbols",
                BuiltIn(OBJECT_GET_OWN_PROPERTY_SYMBOLS),
            ),
        ],
    ),
    // Array
    Row(
        FUNCTION,
        Some((1, "Array")),
        &[
            ("prototype", BuiltIn(ARRAY_PROTOTYPE)),
            ("isArray", BuiltIn(ARRAY_IS_ARRAY)),
        ],
    ),
    // Reflect
    Row(
        PLAIN,
        None,
        &[
            ("apply", BuiltIn(REFLECT_APPLY)),
            ("construct", BuiltIn(REFLECT_CONSTRUCT)),
            ("defineProperty", BuiltIn(REFLECT_DEFINE_PROPERTY)),
            ("deleteProperty", BuiltIn(REFLECT_DELETE_PROPERTY)),
            ("get", BuiltIn(REFLECT_GET)),
            (
                "getOwnPropertyDescriptor",
                BuiltIn(REFLECT_GET_OWN_PROPERTY_DESCRIPTOR),
            ),
            ("getPrototypeOf", BuiltIn(REFLECT_GET_PROTOTYPE_OF)),
            ("has", BuiltIn(REFLECT_HAS)),
            ("isExtensible", BuiltIn(REFLECT_IS_EXTENSIBLE)),
            ("ownKeys", BuiltIn(REFLECT_OWN_KEYS)),
            ("preventExtensions", BuiltIn(REFLECT_PREVENT_EXTENSIONS)),
            ("set", BuiltIn(REFLECT_SET)),
            ("setPrototypeOf", BuiltIn(REFLECT_SET_PROTOTYPE_OF)),
        ],
    ),
    // Proxy
    Row(
        FUNCTION,
        Some((2, "Proxy")),
        &[("revocable", BuiltIn(PROXY_REVOCABLE))],
    ),
    // String
    Row(FUNCTION, Some((1, "String")), &[]),
    // Error
    Row(
        FUNCTION,
        Some((1, "Error")),
        &[("prototype", BuiltIn(ERROR_PROTOTYPE))],
    ),
    // TypeError
    Row(
        Some(ERROR),
        Some((1, "TypeError")),
        &[("prototype", BuiltIn(TYPE_ERROR_PROTOTYPE))],
    ),
    // RangeError
    Row(
        Some(ERROR),
        Some((1, "RangeError")),
        &[("prototype", BuiltIn(RANGE_ERROR_PROTOTYPE))],
    ),
    // ReferenceError
    Row(
        Some(ERROR),
        Some((1, "ReferenceError")),
        &[("prototype", BuiltIn(REFERENCE_ERROR_PROTOTYPE))],
    ),
    // Function.prototype
    Row(
        PLAIN,
        None,
        &[
            ("call", BuiltIn(FUNCTION_PROTOTYPE_CALL)),
            ("apply", BuiltIn(FUNCTION_PROTOTYPE_APPLY)),
        ],
    ),
    // Object.prototype
    Row(
        None,
        None,
        &[
            ("constructor", BuiltIn(OBJECT)),
            ("hasOwnProperty", BuiltIn(OBJECT_PROTOTYPE_HAS_OWN_PROPERTY)),
        ],
    ),
    // Object.prototype.hasOwnProperty
    Row(FUNCTION, Some((1, "hasOwnProperty")), &[]),
    // Object.create
    Row(FUNCTION, Some((2, "create")), &[]),
    // Object.keys
    Row(FUNCTION, Some((1, "keys")), &[]),
    // Object.freeze
    Row(FUNCTION, Some((1, "freeze")), &[]),
    // Object.isFrozen
    Row(FUNCTION, Some((1, "isFrozen")), &[]),
    // Object.seal
    Row(FUNCTION, Some((1, "seal")), &[]),
    // Object.getPrototypeOf
    Row(FUNCTION, Some((1, "getPrototypeOf")), &[]),
    // Object.setPrototypeOf
    Row(FUNCTION, Some((2, "setPrototypeOf")), &[]),
    // Object.defineProperty
    Row(FUNCTION, Some((3, "defineProperty")), &[]),
    // Object.getOwnPropertyDescriptor
    Row(FUNCTION, Some((2, "getOwnPropertyDescriptor")), &[]),
    // Array.prototype
    Row(
        PLAIN,
        None,
        &[
            ("constructor", BuiltIn(ARRAY)),
            ("push", BuiltIn(ARRAY_PROTOTYPE_PUSH)),
            ("pop", BuiltIn(ARRAY_PROTOTYPE_POP)),
            ("map", BuiltIn(ARRAY_PROTOTYPE_MAP)),
            ("forEach", BuiltIn(ARRAY_PROTOTYPE_FOR_EACH)),
            ("filter", BuiltIn(ARRAY_PROTOTYPE_FILTER)),
            ("reduce", BuiltIn(ARRAY_PROTOTYPE_REDUCE)),
            ("indexOf", BuiltIn(ARRAY_PROTOTYPE_INDEX_OF)),
            ("slice", BuiltIn(ARRAY_PROTOTYPE_SLICE)),
            ("join", BuiltIn(ARRAY_PROTOTYPE_JOIN)),
        ],
    ),
    // Array.prototype.push
    Row(FUNCTION, Some((1, "push")), &[]),
    // Array.prototype.pop
    Row(FUNCTION, Some((0, "pop")), &[]),
    // Array.prototype.map
    Row(FUNCTION, Some((1, "map")), &[]),
    // Array.prototype.forEach
    Row(FUNCTION, Some((1, "forEach")), &[]),
    // Array.prototype.filter
    Row(FUNCTION, Some((1, "filter")), &[]),
    // Array.prototype.reduce
    Row(FUNCTION, Some((1, "reduce")), &[]),
    // Array.prototype.indexOf
    Row(FUNCTION, Some((1, "indexOf")), &[]),
    // Array.prototype.slice
    Row(FUNCTION, Some((2, "slice")), &[]),
    // Array.prototype.join
    Row(FUNCTION, Some((1, "join")), &[]),
    // Array.isArray
    Row(FUNCTION, Some((1, "isArray")), &[]),
    // Reflect.apply
    Row(FUNCTION, Some((3, "apply")), &[]),
    // Reflect.construct
    Row(FUNCTION, Some((2, "construct")), &[]),
    // Reflect.defineProperty
    Row(FUNCTION, Some((3, "defineProperty")), &[]),
    // Reflect.deleteProperty
    Row(FUNCTION, Some((2, "deleteProperty")), &[]),
    // Reflect.get
    Row(FUNCTION, Some((2, "get")), &[]),
    // Reflect.getOwnPropertyDescriptor
    Row(FUNCTION, Some((2, "getOwnPropertyDescriptor")), &[]),
    // Reflect.getPrototypeOf
    Row(FUNCTION, Some((1, "getPrototypeOf")), &[]),
    // Reflect.has
    Row(FUNCTION, Some((2, "has")), &[]),
    // Reflect.isExtensible
    Row(FUNCTION, Some((1, "isExtensible")), &[]),
    // Reflect.ownKeys
    Row(FUNCTION, Some((1, "ownKeys")), &[]),
    // Reflect.preventExtensions
    Row(FUNCTION, Some((1, "preventExtensions")), &[]),
    // Reflect.set
    Row(FUNCTION, Some((3, "set")), &[]),
    // Reflect.setPrototypeOf
    Row(FUNCTION, Some((2, "setPrototypeOf")), &[]),
    // Proxy.revocable
    Row(FUNCTION, Some((2, "revocable")), &[]),
    // Error.prototype
    Row(
        PLAIN,
        None,
        &[
            ("constructor", BuiltIn(ERROR)),
            ("name", Text("Error")),
            ("message", Text("")),
        ],
    ),
    // TypeError.prototype
    Row(
        Some(ERROR_PROTOTYPE),
        None,
        &[
            ("constructor", BuiltIn(TYPE_ERROR)),
            ("name", Text("TypeError")),
            ("message", Text("")),
        ],
    ),
    // RangeError.prototype
    Row(
        Some(ERROR_PROTOTYPE),
        None,
        &[
            ("constructor", BuiltIn(RANGE_ERROR)),
            ("name", Text("RangeError")),
            ("message", Text("")),
        ],
    ),
    // ReferenceError.prototype
    Row(
        Some(ERROR_PROTOTYPE),
        None,
        &[
            ("constructor", BuiltIn(REFERENCE_ERROR)),
            ("name", Text("ReferenceError")),
            ("message", Text("")),
        ],
    ),
    // Function.prototype.call
    Row(FUNCTION, Some((1, "call")), &[]),
    // Function.prototype.apply
    Row(FUNCTION, Some((2, "apply")), &[]),
    // Symbol
    Row(FUNCTION, Some((0, "Symbol")), &[]),
    // Object.getOwnPropertySymbols
    Row(FUNCTION, Some((1, "getOwnPropertySymbols")), &[]),
    // Map
    Row(
        FUNCTION,
        Some((0, "Map")),
        &[("prototype", BuiltIn(MAP_PROTOTYPE))],
    ),
    // Set
    Row(
        FUNCTION,
        Some((0, "Set")),
        &[("prototype", BuiltIn(SET_PROTOTYPE))],
    ),
    // WeakMap
    Row(
        FUNCTION,
        Some((0, "WeakMap")),
        &[("prototype", BuiltIn(WEAK_MAP_PROTOTYPE))],
    ),
    // Map.prototype
    Row(
        PLAIN,
        None,
        &[
            ("constructor", BuiltIn(MAP)),
            ("get", BuiltIn(MAP_PROTOTYPE_GET)),
            ("set", BuiltIn(MAP_PROTOTYPE_SET)),
            ("has", BuiltIn(MAP_PROTOTYPE_HAS)),
            ("delete", BuiltIn(MAP_PROTOTYPE_DELETE)),
            ("clear", BuiltIn(MAP_PROTOTYPE_CLEAR)),
            ("forEach", BuiltIn(MAP_PROTOTYPE_FOR_EACH)),
            ("size", Getter(MAP_PROTOTYPE_SIZE)),
        ],
    ),
    // Map.prototype.get
    Row(FUNCTION, Some((1, "get")), &[]),
    // Map.prototype.set
    Row(FUNCTION, Some((2, "set")), &[]),
    // Map.prototype.has
    Row(FUNCTION, Some((1, "has")), &[]),
    // Map.prototype.delete
    Row(FUNCTION, Some((1, "delete")), &[]),
    // Map.prototype.clear
    Row(FUNCTION, Some((0, "clear")), &[]),
    // Map.prototype.forEach
    Row(FUNCTION, Some((1, "forEach")), &[]),
    // Map.prototype.size
    Row(FUNCTION, Some((0, "size")), &[]),
    // Set.prototype
    Row(
        PLAIN,
        None,
        &[
            ("constructor", BuiltIn(SET)),
            ("add", BuiltIn(SET_PROTOTYPE_ADD)),
            ("has", BuiltIn(SET_PROTOTYPE_HAS)),
            ("delete", BuiltIn(SET_PROTOTYPE_DELETE)),
            ("clear", BuiltIn(SET_PROTOTYPE_CLEAR)),
            ("forEach", BuiltIn(SET_PROTOTYPE_FOR_EACH)),
            ("size", Getter(SET_PROTOTYPE_SIZE)),
        ],
    ),
    // Set.prototype.add
    Row(FUNCTION, Some((1, "add")), &[]),
    // Set.prototype.has
    Row(FUNCTION, Some((1, "has")), &[]),
    // Set.prototype.delete
    Row(FUNCTION, Some((1, "delete")), &[]),
    // Set.prototype.clear
    Row(FUNCTION, Some((0, "clear")), &[]),
    // Set.prototype.forEach
    Row(FUNCTION, Some((1, "forEach")), &[]),
    // Set.prototype.size
    Row(FUNCTION, Some((0, "size")), &[]),
    // WeakMap.prototype
    Row(
        PLAIN,
        None,
        &[
            ("constructor", BuiltIn(WEAK_MAP)),
            ("get", BuiltIn(WEAK_MAP_PROTOTYPE_GET)),
            ("set", BuiltIn(WEAK_MAP_PROTOTYPE_SET)),
            ("has", BuiltIn(WEAK_MAP_PROTOTYPE_HAS)),
            ("delete", BuiltIn(WEAK_MAP_PROTOTYPE_DELETE)),
        ],
    ),
    // WeakMap.prototype.get
    Row(FUNCTION, Some((1, "get")), &[]),
    // WeakMap.prototype.set
    Row(FUNCTION, Some((2, "set")), &[]),
    // WeakMap.prototype.has
    Row(FUNCTION, Some((1, "has")), &[]),
    // WeakMap.prototype.delete
    Row(FUNCTION, Some((1, "delete")), &[]),
];

/// The row of a place.
pub(crate) fn row_at(place: u16) -> Row
    requires { place < 80 }
    ensures value { slice_get (map row_of intrinsics) place ≡ Some (row_in result) }
    ensures sound { IsSound result }
{
    nth(table(), place as usize)
}

// The rows are those of the definition.
fn table() -> &'static [Row]
    ensures rows { map row_in result.now ≡ map row_of intrinsics }
    ensures sound { list_all is_sound_row result.now ≡ true }
{
    &TABLE
}

fn nth(rows: &[Row], place: usize) -> Row
    requires { place < length rows.now }
    ensures value { slice_get (map row_in rows.now) place ≡ Some (row_in result) }
    ensures sound { list_all is_sound_row rows.now ≡ true → IsSound result }
{
    rows[place]
}

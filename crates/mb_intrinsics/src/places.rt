// The places of the built-ins in the table.

/// `print`
pub const PRINT: u16 = 0;

/// `later`
pub const LATER: u16 = 1;

/// `labelled`
pub const LABELLED: u16 = 2;

/// `Object`
pub const OBJECT: u16 = 3;

/// `Array`
pub const ARRAY: u16 = 4;

/// `Reflect`
pub const REFLECT: u16 = 5;

/// `Proxy`
pub const PROXY: u16 = 6;

/// `String`
pub const STRING: u16 = 7;

/// `Error`
pub const ERROR: u16 = 8;

/// `TypeError`
pub const TYPE_ERROR: u16 = 9;

/// `RangeError`
pub const RANGE_ERROR: u16 = 10;

/// `ReferenceError`
pub const REFERENCE_ERROR: u16 = 11;

/// `Function.prototype`
pub const FUNCTION_PROTOTYPE: u16 = 12;

/// `Object.prototype`
pub const OBJECT_PROTOTYPE: u16 = 13;

/// `Object.prototype.hasOwnProperty`
pub const OBJECT_PROTOTYPE_HAS_OWN_PROPERTY: u16 = 14;

/// `Object.create`
pub const OBJECT_CREATE: u16 = 15;

/// `Object.keys`
pub const OBJECT_KEYS: u16 = 16;

/// `Object.freeze`
pub const OBJECT_FREEZE: u16 = 17;

/// `Object.isFrozen`
pub const OBJECT_IS_FROZEN: u16 = 18;

/// `Object.seal`
pub const OBJECT_SEAL: u16 = 19;

/// `Object.getPrototypeOf`
pub const OBJECT_GET_PROTOTYPE_OF: u16 = 20;

/// `Object.setPrototypeOf`
pub const OBJECT_SET_PROTOTYPE_OF: u16 = 21;

/// `Object.defineProperty`
pub const OBJECT_DEFINE_PROPERTY: u16 = 22;

/// `Object.getOwnPropertyDescriptor`
pub const OBJECT_GET_OWN_PROPERTY_DESCRIPTOR: u16 = 23;

/// `Array.prototype`
pub const ARRAY_PROTOTYPE: u16 = 24;

/// `Array.prototype.push`
pub const ARRAY_PROTOTYPE_PUSH: u16 = 25;

/// `Array.prototype.pop`
pub const ARRAY_PROTOTYPE_POP: u16 = 26;

/// `Array.prototype.map`
pub const ARRAY_PROTOTYPE_MAP: u16 = 27;

/// `Array.prototype.forEach`
pub const ARRAY_PROTOTYPE_FOR_EACH: u16 = 28;

/// `Array.prototype.filter`
pub const ARRAY_PROTOTYPE_FILTER: u16 = 29;

/// `Array.prototype.reduce`
pub const ARRAY_PROTOTYPE_REDUCE: u16 = 30;

/// `Array.prototype.indexOf`
pub const ARRAY_PROTOTYPE_INDEX_OF: u16 = 31;

/// `Array.prototype.slice`
pub const ARRAY_PROTOTYPE_SLICE: u16 = 32;

/// `Array.prototype.join`
pub const ARRAY_PROTOTYPE_JOIN: u16 = 33;

/// `Array.isArray`
pub const ARRAY_IS_ARRAY: u16 = 34;

/// `Reflect.apply`
pub const REFLECT_APPLY: u16 = 35;

/// `Reflect.construct`
pub const REFLECT_CONSTRUCT: u16 = 36;

/// `Reflect.defineProperty`
pub const REFLECT_DEFINE_PROPERTY: u16 = 37;

/// `Reflect.deleteProperty`
pub const REFLECT_DELETE_PROPERTY: u16 = 38;

/// `Reflect.get`
pub const REFLECT_GET: u16 = 39;

/// `Reflect.getOwnPropertyDescriptor`
pub const REFLECT_GET_OWN_PROPERTY_DESCRIPTOR: u16 = 40;

/// `Reflect.getPrototypeOf`
pub const REFLECT_GET_PROTOTYPE_OF: u16 = 41;

/// `Reflect.has`
pub const REFLECT_HAS: u16 = 42;

/// `Reflect.isExtensible`
pub const REFLECT_IS_EXTENSIBLE: u16 = 43;

/// `Reflect.ownKeys`
pub const REFLECT_OWN_KEYS: u16 = 44;

/// `Reflect.preventExtensions`
pub const REFLECT_PREVENT_EXTENSIONS: u16 = 45;

/// `Reflect.set`
pub const REFLECT_SET: u16 = 46;

/// `Reflect.setPrototypeOf`
pub const REFLECT_SET_PROTOTYPE_OF: u16 = 47;

/// `Proxy.revocable`
pub const PROXY_REVOCABLE: u16 = 48;

/// `Error.prototype`
pub const ERROR_PROTOTYPE: u16 = 49;

/// `TypeError.prototype`
pub const TYPE_ERROR_PROTOTYPE: u16 = 50;

/// `RangeError.prototype`
pub const RANGE_ERROR_PROTOTYPE: u16 = 51;

/// `ReferenceError.prototype`
pub const REFERENCE_ERROR_PROTOTYPE: u16 = 52;

/// `Function.prototype.call`
pub const FUNCTION_PROTOTYPE_CALL: u16 = 53;

/// `Function.prototype.apply`
pub const FUNCTION_PROTOTYPE_APPLY: u16 = 54;

/// `Symbol`
pub const SYMBOL: u16 = 55;

/// `Object.getOwnPropertySymbols`
pub const OBJECT_GET_OWN_PROPERTY_SYMBOLS: u16 = 56;

/// `Map`
pub const MAP: u16 = 57;

/// `Set`
pub const SET: u16 = 58;

/// `WeakMap`
pub const WEAK_MAP: u16 = 59;

/// `Map.prototype`
pub const MAP_PROTOTYPE: u16 = 60;

/// `Map.prototype.get`
pub const MAP_PROTOTYPE_GET: u16 = 61;

/// `Map.prototype.set`
pub const MAP_PROTOTYPE_SET: u16 = 62;

/// `Map.prototype.has`
pub const MAP_PROTOTYPE_HAS: u16 = 63;

/// `Map.prototype.delete`
pub const MAP_PROTOTYPE_DELETE: u16 = 64;

/// `Map.prototype.clear`
pub const MAP_PROTOTYPE_CLEAR: u16 = 65;

/// `Map.prototype.forEach`
pub const MAP_PROTOTYPE_FOR_EACH: u16 = 66;

/// `Map.prototype.size`
pub const MAP_PROTOTYPE_SIZE: u16 = 67;

/// `Set.prototype`
pub const SET_PROTOTYPE: u16 = 68;

/// `Set.prototype.add`
pub const SET_PROTOTYPE_ADD: u16 = 69;

/// `Set.prototype.has`
pub const SET_PROTOTYPE_HAS: u16 = 70;

/// `Set.prototype.delete`
pub const SET_PROTOTYPE_DELETE: u16 = 71;

/// `Set.prototype.clear`
pub const SET_PROTOTYPE_CLEAR: u16 = 72;

/// `Set.prototype.forEach`
pub const SET_PROTOTYPE_FOR_EACH: u16 = 73;

/// `Set.prototype.size`
pub const SET_PROTOTYPE_SIZE: u16 = 74;

/// `WeakMap.prototype`
pub const WEAK_MAP_PROTOTYPE: u16 = 75;

/// `WeakMap.prototype.get`
pub const WEAK_MAP_PROTOTYPE_GET: u16 = 76;

/// `WeakMap.prototype.set`
pub const WEAK_MAP_PROTOTYPE_SET: u16 = 77;

/// `WeakMap.prototype.has`
pub const WEAK_MAP_PROTOTYPE_HAS: u16 = 78;

/// `WeakMap.prototype.delete`
pub const WEAK_MAP_PROTOTYPE_DELETE: u16 = 79;

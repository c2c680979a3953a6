// The places of these built-ins and of their prototypes in the table of built-ins.

pub(crate) const OBJECT: u16 = 3;

pub(crate) const ERROR: u16 = 8;

pub(crate) const TYPE_ERROR: u16 = 9;

pub(crate) const RANGE_ERROR: u16 = 10;

pub(crate) const REFERENCE_ERROR: u16 = 11;

pub(crate) const OBJECT_PROTOTYPE: u16 = 13;

pub(crate) const OBJECT_PROTOTYPE_HAS_OWN_PROPERTY: u16 = 14;

pub(crate) const OBJECT_CREATE: u16 = 15;

pub(crate) const OBJECT_KEYS: u16 = 16;

pub(crate) const OBJECT_FREEZE: u16 = 17;

pub(crate) const OBJECT_IS_FROZEN: u16 = 18;

pub(crate) const OBJECT_SEAL: u16 = 19;

pub(crate) const OBJECT_GET_PROTOTYPE_OF: u16 = 20;

pub(crate) const OBJECT_SET_PROTOTYPE_OF: u16 = 21;

pub(crate) const OBJECT_DEFINE_PROPERTY: u16 = 22;

pub(crate) const OBJECT_GET_OWN_PROPERTY_DESCRIPTOR: u16 = 23;

pub(crate) const REFLECT_APPLY: u16 = 35;

pub(crate) const REFLECT_CONSTRUCT: u16 = 36;

pub(crate) const REFLECT_DEFINE_PROPERTY: u16 = 37;

pub(crate) const REFLECT_DELETE_PROPERTY: u16 = 38;

pub(crate) const REFLECT_GET: u16 = 39;

pub(crate) const REFLECT_GET_OWN_PROPERTY_DESCRIPTOR: u16 = 40;

pub(crate) const REFLECT_GET_PROTOTYPE_OF: u16 = 41;

pub(crate) const REFLECT_HAS: u16 = 42;

pub(crate) const REFLECT_IS_EXTENSIBLE: u16 = 43;

pub(crate) const REFLECT_OWN_KEYS: u16 = 44;

pub(crate) const REFLECT_PREVENT_EXTENSIONS: u16 = 45;

pub(crate) const REFLECT_SET: u16 = 46;

pub(crate) const REFLECT_SET_PROTOTYPE_OF: u16 = 47;

pub(crate) const ERROR_PROTOTYPE: u16 = 49;

pub(crate) const TYPE_ERROR_PROTOTYPE: u16 = 50;

pub(crate) const RANGE_ERROR_PROTOTYPE: u16 = 51;

pub(crate) const REFERENCE_ERROR_PROTOTYPE: u16 = 52;

pub(crate) const FUNCTION_PROTOTYPE_CALL: u16 = 53;

pub(crate) const FUNCTION_PROTOTYPE_APPLY: u16 = 54;

pub(crate) const OBJECT_GET_OWN_PROPERTY_SYMBOLS: u16 = 56;

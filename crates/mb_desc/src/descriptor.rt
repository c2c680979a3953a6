// Descriptors and properties.

/// A property descriptor (ECMA-262, 6.2.6). A field that isn't there is `None`.
#[derive(Clone, Copy, Debug, PartialEq, Eq)]
pub struct Desc<V> {
    pub value: Option<V>,
    pub writable: Option<bool>,
    pub get: Option<V>,
    pub set: Option<V>,
    pub enumerable: Option<bool>,
    pub configurable: Option<bool>,
}

/// A property with all its attributes (ECMA-262, 6.1.7.1): a data property or an accessor property.
#[derive(Clone, Copy, Debug, PartialEq, Eq)]
pub enum Full<V> {
    Datum {
        value: V,
        writable: bool,
        enumerable: bool,
        configurable: bool,
    },
    Accessor {
        get: V,
        set: V,
        enumerable: bool,
        configurable: bool,
    },
}

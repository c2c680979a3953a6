// The places of the built-ins that make arrays, and of their members, in the table.

pub(crate) const ARRAY: u16 = 4;

pub(crate) const ARRAY_PROTOTYPE: u16 = 24;

pub(crate) const PUSH: u16 = 25;

pub(crate) const POP: u16 = 26;

pub(crate) const MAP: u16 = 27;

pub(crate) const FOR_EACH: u16 = 28;

pub(crate) const FILTER: u16 = 29;

pub(crate) const REDUCE: u16 = 30;

pub(crate) const INDEX_OF: u16 = 31;

pub(crate) const SLICE: u16 = 32;

pub(crate) const JOIN: u16 = 33;

pub(crate) const IS_ARRAY: u16 = 34;

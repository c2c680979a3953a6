// Functions and properties, by what stands before their parameters.
use mb_base::StrId;
use mb_tree::PropKey;

/// The name of a property in an object literal.
#[derive(Clone, Copy)]
pub struct Property {
    pub key: PropKey,
    pub name: Option<StrId>,
    pub whole: i64,
}

/// What has parameters and a body.
#[derive(Clone, Copy)]
pub enum Maker {
    Arrow,
    Function(Option<StrId>),
    Method(Property),
    Getter(Property),
    Setter(Property),
}

// Ids, values, keys and sides.
ghost use Rattle.std.proofs.Common.{rules};
ghost use Rattle.std.specs.Hash as fed;
ghost use Rattle.std.specs.Cmp.Rules.{hashing};
ghost use Rattle.mb_base.specs.Keys.{hashed_number};

use std::hash::{Hash, Hasher};

/// The id of an object: its place in the arena of a world.
#[derive(Clone, Copy, Debug, PartialEq, Eq, PartialOrd, Ord, Hash)]
pub struct ObjId(pub u32);

/// The id of a scope: its place among the scopes of a world.
#[derive(Clone, Copy, Debug, PartialEq, Eq, PartialOrd, Ord, Hash)]
pub struct ScopeId(pub u32);

/// The id of a text: its place in the table of texts that gave it.
#[derive(Clone, Copy, Debug, PartialEq, Eq, PartialOrd, Ord, Hash)]
pub struct StrId(pub u32);

/// The id of a node: its place in a tree.
#[derive(Clone, Copy, Debug, PartialEq, Eq, PartialOrd, Ord, Hash)]
pub struct NodeId(pub u32);

/// The id of a symbol: its number among those that a world made. It belongs to no side.
#[derive(Clone, Copy, Debug, PartialEq, Eq, PartialOrd, Ord, Hash)]
pub struct SymId(pub u32);

/// A side of the membrane by its number, from 0 to 7.
#[derive(Clone, Copy, Debug, PartialEq, Eq, PartialOrd, Ord, Hash)]
pub struct Side(pub u8);

impl Side {
    /// The first side, of the left script.
    pub const LEFT: Side = Side(0);

    /// The second side, of the right script.
    pub const RIGHT: Side = Side(1);
}

/// A value of the language (ECMA-262, 6.1, cut to whole numbers): a primitive, or an object by its id.
/// A whole number is from -(2^53 - 1) to 2^53 - 1.
#[derive(Clone, Copy, Debug, PartialEq, Eq, Hash)]
pub enum Value {
    Undefined,
    Null,
    Bool(bool),
    Whole(i64),
    Text(StrId),
    Symbol(SymId),
    Object(ObjId),
}

/// A property key (ECMA-262, 6.1.7): a text, with the array index that it spells or `u32::MAX` where it
/// spells none, or a symbol.
#[derive(Clone, Copy, Debug, PartialEq, Eq, PartialOrd, Ord)]
pub enum Key {
    Text { text: StrId, index: u32 },
    Symbol(SymId),
}

/// The index that a text spells is left out: ids are given one after the other, so no script can choose
/// many keys that collide.
impl Hash for Key {
    ghost hash_input = { λ key. fed.u32 (hashed_number key) };

    ghost respects_eq = { Prim.search (hashing, rules) };

    fn hash<H: Hasher>(&self, state: &mut H) {
        let number = match *self {
            Key::Text { text, .. } => text.0,
            Key::Symbol(symbol) => symbol.0,
        };
        number.hash(state);
    }
}

#[cfg(test)]
mod tests {
    use super::*;

    #[test]
    fn the_sides_of_two_scripts(rt: HostRuntime) {
        assert_eq!(rt; Side::LEFT, Side(0));
        assert_eq!(rt; Side::RIGHT, Side(1));
    }

    #[test]
    fn a_key_is_a_text_or_a_symbol(rt: HostRuntime) {
        let text = Key::Text {
            text: StrId(4),
            index: u32::MAX,
        };
        let symbol = Key::Symbol(SymId(4));
        assert_eq!(rt; text == symbol, false);
        assert_eq!(rt; symbol == Key::Symbol(SymId(4)), true);
        assert_eq!(rt; symbol == Key::Symbol(SymId(5)), false);
    }
}

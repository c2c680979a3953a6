//! Definitions of properties, of arrays too: an array's `length` is above each of its indices (ECMA-262, 10.4.2).
#![tactic(auto)]

ghost use Rattle.std.specs.Prelude.{◌≡◌, All, true, false, IfOk, OnOk, OnErr, Some, option_map};
ghost use Rattle.mb_desc.specs.Descriptors.{IsOfOneKind};
ghost use Rattle.mb_world.specs.Data.{cell_at, change_cell, is_array};
ghost use Rattle.mb_world.specs.Ids.{ObjIn, KeyIn};
ghost use Rattle.mb_world.specs.Image.{names_of};
ghost use Rattle.mb_world.specs.declared.cell.Cell.{Cell};
ghost use Rattle.mb_ordinary.specs.Objects.{object_of};
ghost use Rattle.mb_ordinary.specs.Definitions.{TellsApart, compared, DescIn};
ghost use Rattle.mb_array.specs.Define.{HasItsLength, meant, told, left, changes, table_in, with_table, known_values, HoldsKnown};

mod array;
mod cutting;
mod indices;
mod length;
mod plain;
#[cfg(test)]
mod tests;

use mb_base::{Key, NoMemory, ObjId, Value};
use mb_desc::Desc;
use mb_world::{CellKind, World};

/// What a definition answers. The two errors are those of an array's `length`: `Range` for a whole number that no
/// array can have as its length, `Kind` for a value that is none.
#[derive(Clone, Copy, Debug, PartialEq, Eq)]
pub enum Defined {
    Answer(bool),
    Range,
    Kind,
}

/// [[DefineOwnProperty]] (ECMA-262, 10.1.6 and 10.4.2.1) of a cell. A shorter `length` of an array takes its elements
/// out from the highest down; that takes time by the properties that are there, whatever the lengths are.
pub fn define_any(w: &mut World, o: ObjId, key: Key, desc: Desc<Value>) -> Result<Defined, NoMemory>
    requires object { ObjIn w.old o }
    requires key { KeyIn w.old key }
    requires desc { DescIn w.old desc }
    requires kind { IsOfOneKind desc }
    requires length { (c : Cell) → cell_at w.old o ≡ Some c → is_array c.kind ≡ true
        → HasItsLength w.old.texts c.props }
    requires apart { TellsApart w.old (compared w.old o key desc) }
    ensures answer { IfOk result (λ answer. answer ≡ told (meant w.old o key desc)) }
    ensures cell { OnOk result (option_map (object_of (names_of w.old)) (cell_at w.new o)
        ≡ option_map (left (meant w.old o key desc)) (option_map (object_of (names_of w.old)) (cell_at w.old o))) }
    ensures rest { OnOk result (w.new ≡ change_cell w.old o (with_table (table_in (cell_at w.new o)))) }
    ensures unchanged { OnOk result (changes (meant w.old o key desc) ≡ false → w.new ≡ w.old) }
    ensures objects { OnOk result
        (All (HoldsKnown (known_values (table_in (cell_at w.old o)) desc)) (table_in (cell_at w.new o))) }
    ensures kept { OnErr result (w.new ≡ w.old) }
{
    if is_array(&w.cell(o).kind) {
        array::define(w, o, key, desc)
    } else {
        plain::define(w, o, key, desc)
    }
}

fn is_array(kind: &CellKind) -> bool
    ensures { result ≡ is_array kind.now }
{
    matches!(kind, CellKind::Array)
}

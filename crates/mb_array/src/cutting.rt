// The elements past a shorter length.
ghost use Rattle.std.specs.Prelude.{◌≡◌, ◌-◌, ◌<◌, ◌^◌, All, reverse};
ghost use Rattle.mb_props.specs.KeyOrder.{index_of};
ghost use Rattle.mb_world.specs.Data.{cell_at, change_cell};
ghost use Rattle.mb_world.specs.Ids.{ObjIn};
ghost use Rattle.mb_desc.specs.Descriptors.{is_fixed, property_is};
ghost use Rattle.mb_array.specs.Define.{table_in, with_table};
ghost use Rattle.mb_array.specs.machine.Cutting.{index_in, is_from, cut_of};

use mb_base::{Key, ObjId, Value};
use mb_desc::Full;
use mb_world::World;

/// The array index of a key, if it is one.
pub(crate) fn index_of(key: Key) -> Option<u32>
    ensures { result ≡ index_in key }
{
    match key {
        Key::Text { index, .. } if index != u32::MAX => Some(index),
        _ => None,
    }
}

/// Takes these elements out, the last key first, down to one that isn't configurable. The least length that the
/// array has then.
pub(crate) fn cut(w: &mut World, o: ObjId, n: u32, keys: Vec<Key>) -> u32
    requires object { ObjIn w.old o }
    requires indices { All (λ key. index_of key < 2 ^ 32 - 1) keys.items }
    ensures cell { w.new
        ≡ change_cell w.old o (with_table (cut_of (reverse keys.items) n (table_in (cell_at w.old o))).left) }
    ensures length { result ≡ (cut_of (reverse keys.items) n (table_in (cell_at w.old o))).length }
{
    let mut keys = keys;
    while let Some(key) = keys.pop() {
        if is_fixed(w.cell(o).props.get(key)) {
            return place_of(key) + 1;
        }
        let _ = w.remove(o, key);
    }
    n
}

// The index of a key, or `u32::MAX` where it is none.
fn place_of(key: Key) -> u32
    ensures { result ≡ index_of key }
{
    match key {
        Key::Text { index, .. } => index,
        Key::Symbol(_) => u32::MAX,
    }
}

/// Whether a key is an array index, and not below `n`.
pub(crate) fn is_from(key: Key, n: u32) -> bool
    ensures { result ≡ is_from n key }
{
    match index_of(key) {
        Some(index) => n <= index,
        None => false,
    }
}

fn is_fixed(property: Option<Full<Value>>) -> bool
    ensures { result ≡ property_is is_fixed property }
{
    match property {
        Some(Full::Datum { configurable, .. } | Full::Accessor { configurable, .. }) =>
            !configurable,
        None => false,
    }
}

// The elements that a shorter length leaves out.
ghost use Rattle.std.specs.Prelude.{◌≡◌, ◌<◌, ◌-◌, ◌^◌, All, IfOk, IfSome, is_some, map, decimal, slice_get, option_to_list};
ghost use Rattle.std.specs.List.{filter};
ghost use Rattle.std.specs.Map.{keys_of};
ghost use Rattle.mb_text.specs.Texts.{has_text};
ghost use Rattle.mb_props.specs.KeyOrder.{has_index};
ghost use Rattle.mb_props.specs.Table.{HasDistinctKeys};
ghost use Rattle.mb_world.specs.Data.{cell_at};
ghost use Rattle.mb_world.specs.Formed.{IsBelow};
ghost use Rattle.mb_world.specs.Ids.{ObjIn};
ghost use Rattle.mb_array.specs.Define.{table_in};
ghost use Rattle.mb_array.specs.machine.Cutting.{AreIndicesFrom};
ghost use Rattle.mb_array.specs.machine.Done.{HasCell};

use crate::cutting::is_from;
use mb_base::{Key, NoMemory, ObjId, StrId};
use mb_text::Texts;
use mb_world::World;
use std::alloc::{AllocError, Global};

/// The array indices from `n` on among the keys of an array that has the length `old`, ascending. Each number from the
/// one to the other is looked up; where the array has fewer properties than that, its keys are gone through.
pub(crate) fn indices_from(w: &World, o: ObjId, n: u32, old: u32) -> Result<Vec<Key>, NoMemory>
    requires object { ObjIn w.now o }
    requires shorter { n < old }
    requires below { All (λ p. IsBelow old p.0) (table_in (cell_at w.now o)) }
    ensures { IfOk result (λ keys. AreIndicesFrom w.now n (table_in (cell_at w.now o)) keys.items) }
{
    if w.cell(o).props.at(old - n - 1).is_some() {
        one_by_one(w, o, n, old)
    } else {
        among_all(w, o, n)
    }
}

fn one_by_one(w: &World, o: ObjId, n: u32, old: u32) -> Result<Vec<Key>, NoMemory>
    requires object { ObjIn w.now o }
    requires cell { HasCell w.now o }
    requires shorter { n < old }
    requires distinct { HasDistinctKeys (table_in (cell_at w.now o)) }
    requires below { All (λ p. IsBelow old p.0) (table_in (cell_at w.now o)) }
    ensures { IfOk result (λ keys. AreIndicesFrom w.now n (table_in (cell_at w.now o)) keys.items) }
{
    let mut keys = Vec::new(*w.trace().allocator());
    for index in n..old {
        if let Some(key) = element_at(w, o, index)? {
            keys.push(key)?;
        }
    }
    Ok(keys)
}

fn among_all(w: &World, o: ObjId, n: u32) -> Result<Vec<Key>, NoMemory>
    requires object { ObjIn w.now o }
    ensures { IfOk result (λ keys. AreIndicesFrom w.now n (table_in (cell_at w.now o)) keys.items) }
{
    let mut keys = w.cell(o).props.keys_in_order()?;
    keys.retain(|key| is_from(*key, n));
    Ok(keys)
}

// The key of the element at an index, if it is there.
fn element_at(w: &World, o: ObjId, index: u32) -> Result<Option<Key>, NoMemory>
    requires object { ObjIn w.now o }
    requires cell { HasCell w.now o }
    requires index { index < 2 ^ 32 - 1 }
    ensures { IfOk result (λ key.
        filter (has_index index) (keys_of (table_in (cell_at w.now o))) ≡ option_to_list key) }
{
    let Some(text) = text_of(*w.trace().allocator(), w.texts(), index)? else {
        return Ok(None);
    };
    let key = Key::Text { text, index };
    match w.cell(o).props.get(key) {
        Some(_) => Ok(Some(key)),
        None => Ok(None),
    }
}

// The id of the decimal text of a number, if the text is there.
fn text_of(alloc: Global, texts: &Texts, n: u32) -> Result<Option<StrId>, NoMemory>
    ensures text { IfOk result (λ found. IfSome found (λ id. slice_get texts.now id.0 ≡ Some (decimal n))) }
    ensures found { IfOk result (λ found. is_some found ≡ has_text texts.now (decimal n)) }
{
    let text = n.to_string(alloc)?;
    let units = widened(alloc, text.as_bytes())?;
    Ok(texts.find(&units))
}

// The units of a text of ASCII.
fn widened(alloc: Global, bytes: &[u8]) -> Result<Vec<u16>, AllocError>
    ensures { IfOk result (λ units. units.items ≡ map (λ byte. byte) bytes.now) }
{
    bytes.iter().map(|byte| u16::from(*byte)).collect(alloc)
}

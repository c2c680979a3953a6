// The long texts of the trace, which are told by number.
ghost use Rattle.std.specs.Prelude.{◌≡◌, ◌≤◌, ◌∷◌, ◌++◌, [], length, fold, IfOk, OnOk};
ghost use Rattle.std.specs.List.{filter, flat_map};
ghost use Rattle.indexmap.specs.IndexSet.{spare, insert_key};
ghost use Rattle.mb_world.specs.Long.{is_long, same_id, key_texts, seen_texts, texts_if, desc_texts, said_texts, entry_texts};

use crate::entry::{Entry, Said, Seen};
use indexmap::IndexSet;
use mb_base::{Key, NoMemory, StrId};
use mb_desc::Desc;
use mb_text::Texts;
use std::alloc::Global;

// A longer text is told by its number.
const LONGEST_QUOTED: usize = 64;

/// The long texts of an entry, in the order in which its line has them.
pub(crate) fn long_of(alloc: Global, texts: &Texts, entry: &Entry) -> Result<Vec<StrId>, NoMemory>
    ensures { IfOk result (λ found. found.items ≡ filter (is_long texts.now) (entry_texts entry.now)) }
{
    let mut found = Vec::new(alloc);
    push_key_if(texts, entry.key, &mut found)?;
    push_said(texts, &entry.given, &mut found)?;
    push_said(texts, &entry.answer, &mut found)?;
    Ok(found)
}

/// Gives the next numbers to those of the texts that have none.
pub(crate) fn number_all(long: &mut IndexSet<StrId>, found: &[StrId])
    requires { length found.now ≤ spare long.old }
    ensures { long.new.keys ≡ fold (insert_key same_id) long.old.keys found.now }
{
    for text in found {
        let _ = long.insert(*text);
    }
}

// Whether the text of an id has more units than are quoted.
fn is_long(texts: &Texts, id: StrId) -> bool
    ensures { result ≡ is_long texts.now id }
{
    (id.0 as usize) < texts.len() && texts.units(id).len() > LONGEST_QUOTED
}

fn push_text(texts: &Texts, id: StrId, found: &mut Vec<StrId>) -> Result<(), NoMemory>
    ensures { OnOk result (found.new.items ≡ found.old.items ++ filter (is_long texts.now) (id ∷ [])) }
{
    if is_long(texts, id) {
        found.push(id)?;
    }
    Ok(())
}

fn push_key(texts: &Texts, key: Key, found: &mut Vec<StrId>) -> Result<(), NoMemory>
    ensures { OnOk result (found.new.items ≡ found.old.items ++ filter (is_long texts.now) (key_texts key)) }
{
    match key {
        Key::Text { text, .. } => push_text(texts, text, found),
        Key::Symbol(_) => Ok(()),
    }
}

fn push_key_if(texts: &Texts, key: Option<Key>, found: &mut Vec<StrId>) -> Result<(), NoMemory>
    ensures { OnOk result (found.new.items ≡ found.old.items ++ filter (is_long texts.now) (texts_if key_texts key)) }
{
    match key {
        Some(key) => push_key(texts, key, found),
        None => Ok(()),
    }
}

fn push_seen(texts: &Texts, value: Seen, found: &mut Vec<StrId>) -> Result<(), NoMemory>
    ensures { OnOk result (found.new.items ≡ found.old.items ++ filter (is_long texts.now) (seen_texts value)) }
{
    match value {
        Seen::Text(text) => push_text(texts, text, found),
        _ => Ok(()),
    }
}

fn push_seen_if(texts: &Texts, value: Option<Seen>, found: &mut Vec<StrId>) -> Result<(), NoMemory>
    ensures { OnOk result (found.new.items
        ≡ found.old.items ++ filter (is_long texts.now) (texts_if seen_texts value)) }
{
    match value {
        Some(value) => push_seen(texts, value, found),
        None => Ok(()),
    }
}

fn push_desc(texts: &Texts, desc: Desc<Seen>, found: &mut Vec<StrId>) -> Result<(), NoMemory>
    ensures { OnOk result (found.new.items ≡ found.old.items ++ filter (is_long texts.now) (desc_texts desc)) }
{
    push_seen_if(texts, desc.value, found)?;
    push_seen_if(texts, desc.get, found)?;
    push_seen_if(texts, desc.set, found)?;
    Ok(())
}

fn push_pair(texts: &Texts, key: Seen, value: Seen, found: &mut Vec<StrId>) -> Result<(), NoMemory>
    ensures { OnOk result (found.new.items
        ≡ found.old.items ++ filter (is_long texts.now) (seen_texts key ++ seen_texts value)) }
{
    push_seen(texts, key, found)?;
    push_seen(texts, value, found)
}

fn push_keys(texts: &Texts, keys: &[Key], found: &mut Vec<StrId>) -> Result<(), NoMemory>
    ensures { OnOk result (found.new.items
        ≡ found.old.items ++ filter (is_long texts.now) (flat_map key_texts keys.now)) }
{
    for key in keys {
        push_key(texts, *key, found)?;
    }
    Ok(())
}

fn push_said(texts: &Texts, said: &Said, found: &mut Vec<StrId>) -> Result<(), NoMemory>
    ensures { OnOk result (found.new.items ≡ found.old.items ++ filter (is_long texts.now) (said_texts said.now)) }
{
    match said {
        Said::Plain(value) => push_seen(texts, *value, found),
        Said::Prop(desc) => push_desc(texts, *desc, found),
        Said::Keys(keys) => push_keys(texts, keys.items(), found),
        Said::Thrown(value) => push_seen(texts, *value, found),
        Said::Pair(key, value) => push_pair(texts, *key, *value, found),
        Said::Nothing | Said::Flag(_) | Said::Absent => Ok(()),
    }
}

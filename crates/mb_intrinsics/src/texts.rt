// Texts of the table in a world.
ghost use Rattle.std.specs.Prelude.{◌≡◌, ◌≤◌, ◌∷◌, ◌++◌, [], codes, length, map, take, true, IfOk, OnErr, OnOk};
ghost use Rattle.std.specs.List.{list_all};
ghost use Rattle.mb_intrinsics.specs.Furnished.{full_texts, id_of, table_texts};
ghost use Rattle.mb_intrinsics.specs.machine.Filling.{Gains, properties_texts};
ghost use Rattle.mb_intrinsics.specs.machine.Table.{IsSound, function_in, given_property, is_sound_function, is_sound_given, is_sound_property, property_in, row_in};
ghost use Rattle.mb_text.specs.Texts.{AreDistinct, with_text};
ghost use Rattle.mb_world.specs.Data.{with_texts};

use crate::table::{Given, MOST_UNITS, PLACES, Property, Row, row_at};
use mb_base::{NoMemory, StrId};
use mb_text::TextFault;
use mb_world::World;

// The label of `desk`.
pub(crate) const DESK: &str = "desk";

// The units of a text of ASCII characters, and zeros to the end.
fn widened(text: &str) -> [u16; MOST_UNITS]
    requires { length text.now ≤ 24 }
    ensures { take (length text.now) result ≡ text.now }
{
    let mut units = [0; MOST_UNITS];
    let bytes = text.as_bytes();
    for (at, byte) in bytes.iter().enumerate() {
        units[at] = u16::from(*byte);
    }
    units
}

/// The id of a text, which is added as the last where it isn't there yet.
pub(crate) fn intern(w: &mut World, text: &str) -> Result<StrId, NoMemory>
    requires short { length text.now ≤ 24 }
    ensures texts { OnOk result (w.new ≡ with_texts w.old (with_text w.old.texts text.now)) }
    ensures gains { OnOk result (Gains w.old (text.now ∷ []) w.new) }
    ensures id { IfOk result (λ id. id ≡ id_of w.new.texts text.now) }
    ensures kept { OnErr result (w.new ≡ w.old) }
    ensures distinct { AreDistinct w.new.texts }
{
    let units = widened(text);
    let interned = w.intern(&units[..text.len()]);
    let _texts = w.texts();
    match interned {
        Ok(id) => Ok(id),
        Err(TextFault::NoMemory) => Err(NoMemory),
        Err(TextFault::Long) => unreachable!(),
    }
}

/// The texts of the table are there from now on.
pub(crate) fn intern_all(w: &mut World) -> Result<(), NoMemory>
    ensures gains { OnOk result (Gains w.old (table_texts ++ codes "desk" ∷ []) w.new) }
    ensures halted { OnErr result (Gains w.old [] w.new) }
{
    for place in 0..PLACES {
        intern_row(w, row_at(place))?;
    }
    intern(w, DESK)?;
    Ok(())
}

// The texts of a row are there from now on.
fn intern_row(w: &mut World, row: Row) -> Result<(), NoMemory>
    requires { IsSound row }
    ensures gains { OnOk result (Gains w.old (properties_texts (row_in row).1) w.new) }
    ensures halted { OnErr result (Gains w.old [] w.new) }
{
    intern_first(w, row.1)?;
    intern_each(w, row.2)?;
    Ok(())
}

// The texts that a function has first.
fn intern_first(w: &mut World, function: Option<(u8, &'static str)>) -> Result<(), NoMemory>
    requires { is_sound_function function ≡ true }
    ensures gains { OnOk result (Gains w.old (properties_texts (function_in function.entry)) w.new) }
    ensures halted { OnErr result (Gains w.old [] w.new) }
{
    let Some((_, name)) = function else {
        return Ok(());
    };
    intern(w, "length")?;
    intern(w, "name")?;
    intern(w, name)?;
    Ok(())
}

fn intern_each(w: &mut World, properties: &[Property]) -> Result<(), NoMemory>
    requires { list_all is_sound_property properties.now ≡ true }
    ensures gains { OnOk result (Gains w.old (properties_texts (map property_in properties.now)) w.new) }
    ensures halted { OnErr result (Gains w.old [] w.new) }
{
    for (key, given) in properties {
        intern(w, key)?;
        intern_given(w, given)?;
    }
    Ok(())
}

// The text that a property has.
fn intern_given(w: &mut World, given: &Given) -> Result<(), NoMemory>
    requires { is_sound_given given.now ≡ true }
    ensures gains { OnOk result (Gains w.old (full_texts (given_property [] given.now).full) w.new) }
    ensures halted { OnErr result (Gains w.old [] w.new) }
{
    if let Given::Text(text) = *given {
        intern(w, text)?;
    }
    Ok(())
}

// The built-ins of one side.
ghost use Rattle.std.specs.Prelude.{◌≡◌, ◌<◌, ◌≤◌, ◌*◌, ◌++◌, ℕ, List, false, length, map, true, IfOk, OnErr, OnOk, []};
ghost use Rattle.std.specs.List.{list_all};
ghost use Rattle.mb_desc.specs.declared.descriptor.Full.TheVariants.{Datum};
ghost use Rattle.mb_intrinsics.specs.Furnished.{HasTableTexts, built_in_id, full_of, full_texts, standard_cells, value_of};
ghost use Rattle.mb_intrinsics.specs.machine.Filling.{AreThere, HasCellsOf, OnlyCells, bare_cells, filled, properties_texts, property_texts, put_of, puts};
ghost use Rattle.mb_intrinsics.specs.machine.Table.{function_in, given_property, is_key, is_sound_function, is_sound_given, is_sound_property, is_sound_prototype, property_in, prototype_in, row_of};
ghost use Rattle.mb_world.specs.Data.{change_cell, with_cells};
ghost use Rattle.mb_world.specs.Ids.{FullIn, ObjIn};
ghost use Rattle.mb_world.specs.Intrinsics.{Intrinsic, intrinsic};

use crate::table::{Given, PLACES, Property, row_at};
use crate::texts::intern;
use mb_base::{Key, NoMemory, ObjId, Side, Value};
use mb_desc::Full;
use mb_world::{CellKind, World};

/// The cell of a home's built-in.
pub(crate) fn built_in_id(home: Side, place: u16) -> ObjId
    requires home { home.0 < 8 }
    requires place { place < 80 }
    ensures { result ≡ built_in_id home place }
{
    ObjId(PLACES as u32 * home.0 as u32 + place as u32)
}

/// Makes the built-ins of a side, which come after those of the sides before it.
pub(crate) fn add_built_ins(w: &mut World, home: Side) -> Result<(), NoMemory>
    requires home { home.0 < 8 }
    requires before { length w.old.cells ≡ 80 * home.0 }
    requires texts { HasTableTexts w.old.texts }
    ensures added { OnOk result (w.new ≡ with_cells w.old (w.old.cells ++ standard_cells w.old.texts home)) }
    ensures halted { OnErr result (OnlyCells w.old w.new) }
{
    make_all(w, home)?;
    for place in 0..PLACES {
        fill(w, home, place)?;
    }
    Ok(())
}

// The cells of the built-ins, by place, which are still open and bare.
fn make_all(w: &mut World, home: Side) -> Result<(), NoMemory>
    requires { home.0 < 8 }
    ensures made { OnOk result (w.new ≡ with_cells w.old (w.old.cells ++ bare_cells w.old.texts home)) }
    ensures halted { OnErr result (OnlyCells w.old w.new) }
{
    for place in 0..PLACES {
        w.make(home, CellKind::BuiltIn(place), Value::Null, None)?;
    }
    Ok(())
}

// Gives a built-in its prototype and properties, and closes it.
fn fill(w: &mut World, home: Side, place: u16) -> Result<(), NoMemory>
    requires home { home.0 < 8 }
    requires place { place < 80 }
    requires cells { HasCellsOf w.old home }
    requires texts { HasTableTexts w.old.texts }
    ensures filled { OnOk result ((i : Intrinsic) → intrinsic place ≡ Some i →
        w.new ≡ change_cell w.old (built_in_id home place) (filled w.old.texts home (row_of i))) }
    ensures halted { OnErr result (OnlyCells w.old w.new) }
{
    let id = built_in_id(home, place);
    let row = row_at(place);
    w.set_proto(id, prototype_value(home, row.0));
    put_first(w, home, id, row.1)?;
    put_all(w, home, id, row.2)?;
    w.close(id);
    Ok(())
}

fn prototype_value(home: Side, place: Option<u16>) -> Value
    requires home { home.0 < 8 }
    requires place { is_sound_prototype place ≡ true }
    ensures { (texts : List (List ℕ)) → result ≡ value_of texts home (prototype_in place) }
{
    match place {
        Some(place) => Value::Object(built_in_id(home, place)),
        None => Value::Null,
    }
}

// The properties that a function has first (ECMA-262, 10.2.9, 10.2.10).
fn put_first(
    w: &mut World,
    home: Side,
    id: ObjId,
    function: Option<(u8, &'static str)>,
) -> Result<(), NoMemory>
    requires home { home.0 < 8 }
    requires cells { HasCellsOf w.old home }
    requires object { ObjIn w.old id }
    requires sound { is_sound_function function ≡ true }
    requires texts { AreThere w.old.texts (properties_texts (function_in function)) }
    ensures put { OnOk result (w.new ≡ change_cell w.old id (puts w.old.texts home (function_in function.entry))) }
    ensures halted { OnErr result (OnlyCells w.old w.new) }
{
    let Some((length, name)) = function else {
        return Ok(());
    };
    put(w, home, id, "length", &Given::Whole(length))?;
    put(w, home, id, "name", &Given::Text(name))?;
    Ok(())
}

// Sets these properties, which can't be changed.
fn put_all(w: &mut World, home: Side, id: ObjId, properties: &[Property]) -> Result<(), NoMemory>
    requires home { home.0 < 8 }
    requires cells { HasCellsOf w.old home }
    requires object { ObjIn w.old id }
    requires sound { list_all is_sound_property properties.now ≡ true }
    requires texts { AreThere w.old.texts (properties_texts (map property_in properties.now)) }
    ensures put { OnOk result
        (w.new ≡ change_cell w.old id (puts w.old.texts home (map property_in properties.now))) }
    ensures halted { OnErr result (OnlyCells w.old w.new) }
{
    for (key, given) in properties {
        put(w, home, id, key, given)?;
    }
    Ok(())
}

// Sets one property, which can't be changed.
fn put(w: &mut World, home: Side, id: ObjId, key: &str, given: &Given) -> Result<(), NoMemory>
    requires home { home.0 < 8 }
    requires cells { HasCellsOf w.old home }
    requires object { ObjIn w.old id }
    requires key { is_key key.now ≡ true }
    requires given { is_sound_given given.now ≡ true }
    requires texts { AreThere w.old.texts (property_texts (given_property key.now given.now)) }
    ensures put { OnOk result
        (w.new ≡ change_cell w.old id (put_of w.old.texts home (given_property key.now given.now))) }
    ensures kept { OnErr result (w.new ≡ w.old) }
{
    let text = intern(w, key)?;
    let full = full_of(w, home, given)?;
    let index = u32::MAX;
    w.put(id, Key::Text { text, index }, full)?;
    Ok(())
}

// What a property has in a world.
fn full_of(w: &mut World, home: Side, given: &Given) -> Result<Full<Value>, NoMemory>
    requires home { home.0 < 8 }
    requires cells { HasCellsOf w.old home }
    requires given { is_sound_given given.now ≡ true }
    requires texts { AreThere w.old.texts (full_texts (given_property [] given.now).full) }
    ensures full { IfOk result (λ full. full ≡ full_of w.old.texts home (given_property [] given.now).full) }
    ensures within { IfOk result (FullIn w.old) }
    ensures stays { w.new ≡ w.old }
{
    match *given {
        Given::Whole(number) => Ok(fixed(Value::Whole(number as i64))),
        Given::Text(text) => Ok(fixed(Value::Text(intern(w, text)?))),
        Given::BuiltIn(place) => Ok(fixed(Value::Object(built_in_id(home, place)))),
        Given::Getter(place) => Ok(Full::Accessor {
            get: Value::Object(built_in_id(home, place)),
            set: Value::Undefined,
            enumerable: false,
            configurable: false,
        }),
    }
}

fn fixed(value: Value) -> Full<Value>
    ensures { result ≡ Datum value false false false }
{
    Full::Datum {
        value,
        writable: false,
        enumerable: false,
        configurable: false,
    }
}

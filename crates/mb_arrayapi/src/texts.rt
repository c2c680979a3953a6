// Units of texts that are joined (ECMA-262, 23.1.3.18).
ghost use Rattle.std.specs.Prelude.{◌≡◌, ◌+◌, ◌<◌, ◌↔◌, IfOk, IsErr, OnErr, OnOk};
ghost use Rattle.mb_arrayapi.specs.machine.Joining.{Extends, element_text};
ghost use Rattle.mb_frames.specs.Passing.{TextsGrew};
ghost use Rattle.mb_world.specs.Ids.{HasItsIds, ValueIn};
ghost use Rattle.mb_world.specs.Image.{Resolve, names_of};
ghost use Rattle.mb_world.specs.Value.{to_text};

use mb_base::{Fuel, NoMemory, Spent, Value};
use mb_frames::Units;
use mb_parts::text_from;
use mb_world::World;

// The greatest number of units in a text.
const LONGEST: usize = 1 << 20;

// The units of the text of a value (ECMA-262, 7.1.17); `None` for a symbol or an object.
pub(crate) fn units_of(w: &mut World, x: Value) -> Result<Option<Units>, NoMemory>
    requires value { ValueIn w.old x }
    requires ids { HasItsIds w.old }
    ensures units { IfOk result (λ units. units ≡ to_text (Resolve (names_of w.old) x)) }
    ensures grew { TextsGrew w.old w.new }
{
    match text_from(w, x)? {
        Some(text) => {
            let mut units = Units::new(*w.trace().allocator());
            let spelled = w.texts().units(text);
            units.extend(spelled)?;
            Ok(Some(units))
        }
        None => Ok(None),
    }
}

// So of an element: null and undefined have none.
pub(crate) fn element_units(w: &mut World, x: Value) -> Result<Option<Units>, NoMemory>
    requires value { ValueIn w.old x }
    requires ids { HasItsIds w.old }
    ensures units { IfOk result (λ units. units ≡ element_text (Resolve (names_of w.old) x)) }
    ensures grew { TextsGrew w.old w.new }
{
    match x {
        Value::Undefined | Value::Null => {
            let _texts = w.texts();
            Ok(Some(Units::new(*w.trace().allocator())))
        }
        _ => units_of(w, x),
    }
}

// More units come last, if the text isn't too long then.
pub(crate) fn extend(so_far: &mut Units, units: &[u16]) -> Result<bool, NoMemory>
    ensures { IfOk result (Extends so_far.old units.now so_far.new) }
{
    if units.len() > LONGEST || so_far.items().len() > LONGEST - units.len() {
        return Ok(false);
    }
    so_far.extend(units)?;
    Ok(true)
}

// Takes so many units.
pub(crate) fn charge(fuel: &mut Fuel, units: usize) -> Result<(), Spent>
    ensures spent { IsErr result ↔ (fuel.old < units) }
    ensures paid { OnOk result (fuel.new + units ≡ fuel.old) }
    ensures kept { OnErr result (fuel.new ≡ fuel.old) }
{
    if units > fuel.left() as usize {
        return Err(Spent);
    }
    fuel.charge(units as u32)
}

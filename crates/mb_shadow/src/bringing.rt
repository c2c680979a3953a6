// Values for a side.
ghost use Rattle.std.specs.Prelude.{◌≡◌, ◌<◌, true, IfOk, OnOk, OnErr};
ghost use Rattle.mb_world.specs.Image.{names_of, Resolve, full_in};
ghost use Rattle.mb_maps.specs.Crossed.{Crossed};
ghost use Rattle.mb_shadow.specs.Seeing.{CanSee, IsPropertyOf};
ghost use Rattle.mb_shadow.specs.machine.Sights.{IsValueOf};

use mb_base::{NoMemory, Side, Value};
use mb_desc::Full;
use mb_maps::{cross, cross_full};
use mb_world::World;

// What a side has for a value of some side. Its own it has already.
pub fn bring(w: &mut World, value: Value, from: Side, to: Side) -> Result<Value, NoMemory>
    requires value { IsValueOf w.old from value }
    requires side { to.0 < w.old.sides }
    requires world { CanSee w.old }
    ensures meaning { IfOk result (λ own. Resolve (names_of w.new) own ≡ Resolve (names_of w.old) value) }
    ensures own { IfOk result (IsValueOf w.new to) }
    ensures stays { Crossed w.old w.new }
    ensures world { CanSee w.new }
    ensures runs { OnOk result (w.new.halted ≡ w.old.halted) }
    ensures halts { OnErr result (w.new.halted ≡ true) }
{
    if from == to {
        return Ok(value);
    }
    cross(w, value, to)
}

// What a side has for a property of some side.
pub fn bring_property(
    w: &mut World,
    property: Full<Value>,
    from: Side,
    to: Side,
) -> Result<Full<Value>, NoMemory>
    requires property { IsPropertyOf w.old from property }
    requires side { to.0 < w.old.sides }
    requires world { CanSee w.old }
    ensures meaning { IfOk result (λ own. full_in (names_of w.new) own ≡ full_in (names_of w.old) property) }
    ensures own { IfOk result (IsPropertyOf w.new to) }
    ensures stays { Crossed w.old w.new }
    ensures world { CanSee w.new }
    ensures runs { OnOk result (w.new.halted ≡ w.old.halted) }
    ensures halts { OnErr result (w.new.halted ≡ true) }
{
    if from == to {
        return Ok(property);
    }
    cross_full(w, property, to)
}

// The names that a script finds bound.
ghost use Rattle.std.specs.Prelude.{◌≡◌, ◌<◌, [], map, option_map, IfOk, OnErr, OnOk};
ghost use Rattle.mb_base.specs.declared.value.Value.TheVariants.{Object};
ghost use Rattle.mb_intrinsics.specs.Bound.{bound_built_in, bound_to, with_all, with_first_scope};
ghost use Rattle.mb_intrinsics.specs.machine.Filling.{Gains};
ghost use Rattle.mb_text.specs.Texts.{KeepsIds};
ghost use Rattle.mb_world.specs.Data.{built_in_of, with_texts};
ghost use Rattle.mb_world.specs.Ids.{HasItsIds, ValueIn};
ghost use Rattle.mb_world.specs.Intrinsics.{name_of, place_of};
ghost use Rattle.mb_world.specs.Standard.{bound_intrinsics};

use crate::places::*;
use crate::texts::{DESK, intern};
use mb_base::{NoMemory, Side, StrId, Value};
use mb_world::{Bound, Names, Scope, World, name_of};

// The built-ins that have a name in the first scope of a side, in the order of these names.
static BOUND: [u16; 13] = [
    PRINT,
    LATER,
    LABELLED,
    OBJECT,
    ARRAY,
    REFLECT,
    PROXY,
    STRING,
    ERROR,
    TYPE_ERROR,
    RANGE_ERROR,
    REFERENCE_ERROR,
    SYMBOL,
];

/// Makes a scope of the built-in names for a side, with no scope around it: each name has the side's own built-in as
/// its value, and `desk` the given one. No name can be assigned to. After `NoMemory` only texts were added.
pub fn bind_names(w: &mut World, side: Side, desk: Value) -> Result<(), NoMemory>
    requires side { side.0 < 8 }
    requires desk { ValueIn w.old desk }
    ensures bound { OnOk result (w.new ≡ with_first_scope w.old side desk) }
    ensures texts { OnErr result (KeepsIds w.old.texts w.new.texts) }
    ensures rest { OnErr result (w.new ≡ with_texts w.old w.new.texts) }
    ensures ids { HasItsIds w.new }
{
    let added = add_names(w, side, desk);
    let _texts = w.texts();
    added
}

fn add_names(w: &mut World, side: Side, desk: Value) -> Result<(), NoMemory>
    requires side { side.0 < 8 }
    requires desk { ValueIn w.old desk }
    ensures bound { OnOk result (w.new ≡ with_first_scope w.old side desk) }
    ensures kept { OnErr result (Gains w.old [] w.new) }
{
    let mut names = built_in_names(w, side)?;
    let name = intern(w, DESK)?;
    names.push(bound(name, Some(desk)))?;
    w.add_scope(Scope {
        home: side,
        parent: None,
        names,
    })?;
    Ok(())
}

// The names of the built-ins, each with the side's built-in.
fn built_in_names(w: &mut World, side: Side) -> Result<Names, NoMemory>
    ensures texts { OnOk result
        (w.new ≡ with_texts w.old (with_all w.old.texts (map name_of bound_intrinsics))) }
    ensures names { IfOk result (λ names. names ≡ map (bound_built_in w.new side) bound_intrinsics) }
    ensures kept { OnErr result (Gains w.old [] w.new) }
{
    let mut names = Names::new(*w.trace().allocator());
    for place in bound_places() {
        let name = intern(w, name_of(*place))?;
        let value = own(w, side, *place);
        names.push(bound(name, value))?;
    }
    Ok(names)
}

// A side's built-in, where it is there.
fn own(w: &World, side: Side, place: u16) -> Option<Value>
    ensures { result ≡ option_map Object (built_in_of w.now.joined w.now.cells side place) }
{
    w.built_in(side, place).map(Value::Object)
}

// A name that can't be assigned to.
fn bound(name: StrId, value: Option<Value>) -> Bound
    ensures { result ≡ bound_to name value }
{
    Bound {
        name,
        value,
        fixed: true,
    }
}

fn bound_places() -> &'static [u16]
    ensures { result.now ≡ map place_of bound_intrinsics }
{
    &BOUND
}

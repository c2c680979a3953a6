// Descriptors as objects (ECMA-262, 6.2.6.4).
ghost use Rattle.std.specs.Prelude.{◌≡◌, ◌<◌, ◌∷◌, [], OnOk};
ghost use Rattle.mb_base.specs.declared.value.Side.{Side as ASide};
ghost use Rattle.mb_frames.specs.Going.{Makes};
ghost use Rattle.mb_frames.specs.Held.{HeldDesc};
ghost use Rattle.mb_frames.specs.Keeping.{KeepsAnswer, KeepsOn, none_held};
ghost use Rattle.mb_frames.specs.Making.{IsOpen, value_held};
ghost use Rattle.mb_frames.specs.Ready.{Holds, IsReady};
ghost use Rattle.mb_model.specs.Operations.Descriptors.{fromdesc};
ghost use Rattle.mb_world.specs.Ids.{HasItsIds, Maybe, ObjIn, ValueIn};
ghost use Rattle.mb_world.specs.Image.{Resolve, desc_in, names_of};
ghost use Rattle.mb_call.specs.machine.Descriptors.{PutsField, field_units, field_value, truth_if};
ghost use Rattle.mb_parts.specs.Keeping.{object_held};

use crate::fields::field_units;
use mb_base::{ObjId, Side, Value};
use mb_desc::{Desc, Full};
use mb_frames::{Field, Halt, built_in, put};
use mb_world::{CellKind, World};

// The place of Object.prototype.
const OBJECT_PROTOTYPE: u16 = 13;

// In the order in which an object gets them.
const FIELDS: [Field; 6] = [
    Field::Value,
    Field::Writable,
    Field::Get,
    Field::Set,
    Field::Enumerable,
    Field::Configurable,
];

/// A new object with the fields that are there, in the order value, writable, get, set, enumerable, configurable
/// (FromPropertyDescriptor, ECMA-262, 6.2.6.4).
pub fn fromdesc(w: &mut World, home: Side, desc: Desc<Value>) -> Result<ObjId, Halt>
    requires ready { IsReady w.old }
    requires side { home.0 < w.old.sides }
    requires held { Holds w.old home (HeldDesc desc ∷ []) }
    ensures makes { Makes result w.old w.new (fromdesc home.0 (desc_in (Resolve (names_of w.old)) desc)) }
    ensures keeps { KeepsAnswer home object_held result w.old w.new }
{
    let prototype = built_in(w, home, OBJECT_PROTOTYPE);
    let made = w.make(home, CellKind::Plain, prototype, None)?;
    let _made = w.texts();
    for field in &FIELDS {
        put_field(w, made, *field, field_value(desc, *field))?;
    }
    Ok(made)
}

// What a descriptor has in a field.
fn field_value(desc: Desc<Value>, field: Field) -> Option<Value>
    ensures { result ≡ field_value desc field }
{
    match field {
        Field::Enumerable => truth_if(desc.enumerable),
        Field::Configurable => truth_if(desc.configurable),
        Field::Value => desc.value,
        Field::Writable => truth_if(desc.writable),
        Field::Get => desc.get,
        Field::Set => desc.set,
    }
}

fn truth_if(flag: Option<bool>) -> Option<Value>
    ensures { result ≡ truth_if flag }
{
    match flag {
        Some(b) => Some(Value::Bool(b)),
        None => None,
    }
}

// The object gets the field, if it is there.
fn put_field(w: &mut World, made: ObjId, field: Field, x: Option<Value>) -> Result<(), Halt>
    requires object { ObjIn w.old made }
    requires value { Maybe (ValueIn w.old) x }
    ensures puts { PutsField result w.old w.new made (field_units field) x }
    ensures keeps { (home : ASide) → IsOpen w.old home made →
        KeepsOn home (value_held x) none_held result w.old w.new }
    ensures stays_open { (home : ASide) → IsOpen w.old home made → OnOk result (IsOpen w.new home made) }
    ensures ids { HasItsIds w.new }
{
    match x {
        Some(value) => put(
            w,
            made,
            field_units(field),
            Full::Datum {
                value,
                writable: true,
                enumerable: true,
                configurable: true,
            },
        ),
        None => {
            let _texts = w.texts();
            Ok(())
        }
    }
}

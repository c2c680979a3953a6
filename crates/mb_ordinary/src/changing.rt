// What changes an object's properties, or that it takes more.
ghost use Rattle.std.specs.Prelude.{◌≡◌, ◌≢◌, None, is_some, not, true, IfOk, IsOk, OnOk, OnErr, option_map};
ghost use Rattle.mb_desc.specs.Descriptors.{IsOfOneKind};
ghost use Rattle.mb_world.specs.Data.{cell_at, property_at, change_cell, closed};
ghost use Rattle.mb_world.specs.Ids.{KeyIn};
ghost use Rattle.mb_world.specs.Ordinary.{closed as closed_object};
ghost use Rattle.mb_ordinary.specs.Objects.{IsOrdinary, object_at};
ghost use Rattle.mb_ordinary.specs.Definitions.{TellsFields, DescIn, accepted, with_accepted, IsDefined, is_loose, without_if, IsDeleted};

use mb_base::{Key, NoMemory, ObjId, Value};
use mb_desc::{Desc, Full, validate};
use mb_world::World;

/// OrdinaryPreventExtensions (ECMA-262, 10.1.4.1).
pub fn prevent(w: &mut World, o: ObjId) -> bool
    requires { IsOrdinary (cell_at w.old o) }
    ensures answer { result ≡ true }
    ensures closed { w.new ≡ change_cell w.old o closed }
    ensures meant { object_at w.new o ≡ option_map closed_object (object_at w.old o) }
{
    w.close(o);
    true
}

/// OrdinaryDefineOwnProperty (ECMA-262, 10.1.6.1). Only a key that is new may want memory.
pub fn define(w: &mut World, o: ObjId, key: Key, desc: Desc<Value>) -> Result<bool, NoMemory>
    requires object { IsOrdinary (cell_at w.old o) }
    requires key { KeyIn w.old key }
    requires desc { DescIn w.old desc }
    requires kind { IsOfOneKind desc }
    ensures answer { IfOk result (λ b. b ≡ is_some (accepted w.old o key desc)) }
    ensures put { OnOk result (w.new ≡ with_accepted w.old o key (accepted w.old o key desc)) }
    ensures meant { TellsFields w.old o key desc → IfOk result (IsDefined w.old w.new o key desc) }
    ensures there { property_at w.old o key ≢ None → IsOk result }
    ensures refused { accepted w.old o key desc ≡ None → IsOk result }
    ensures kept { OnErr result (w.new ≡ w.old) }
{
    let cell = w.cell(o);
    match validate(cell.extensible, cell.props.get(key), desc) {
        Some(property) => {
            w.put(o, key, property)?;
            Ok(true)
        }
        None => Ok(false),
    }
}

/// OrdinaryDelete (ECMA-262, 10.1.10.1). It takes time by the number of properties behind the one that goes.
pub fn delete(w: &mut World, o: ObjId, key: Key) -> bool
    requires object { IsOrdinary (cell_at w.old o) }
    requires key { KeyIn w.old key }
    ensures answer { result ≡ is_loose (property_at w.old o key) }
    ensures removed { w.new ≡ without_if result w.old o key }
    ensures meant { IsDeleted w.old w.new o key result }
{
    let cell = w.cell(o);
    if is_fixed(cell.props.get(key)) {
        return false;
    }
    w.remove(o, key);
    true
}

// Whether a property is there and isn't configurable.
fn is_fixed(property: Option<Full<Value>>) -> bool
    ensures { result ≡ not (is_loose property) }
{
    match property {
        Some(Full::Datum { configurable, .. } | Full::Accessor { configurable, .. }) =>
            !configurable,
        None => false,
    }
}

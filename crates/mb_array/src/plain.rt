// A definition as on any object (ECMA-262, 10.1.6.1).
ghost use Rattle.std.specs.Prelude.{◌≡◌};
ghost use Rattle.mb_desc.specs.Descriptors.{IsOfOneKind};
ghost use Rattle.mb_world.specs.Data.{cell_at};
ghost use Rattle.mb_world.specs.Ids.{ObjIn, KeyIn, FullIn, Maybe};
ghost use Rattle.mb_world.specs.Image.{names_of};
ghost use Rattle.mb_world.specs.Ordinary.{ordinary_defined};
ghost use Rattle.mb_ordinary.specs.Definitions.{DescIn, accepted};
ghost use Rattle.mb_array.specs.Define.{on_object};
ghost use Rattle.mb_array.specs.machine.Done.{CanDefine, HasCell, Ends};

use crate::Defined;
use mb_base::{Key, NoMemory, ObjId, Value};
use mb_desc::{Desc, Full, validate};
use mb_world::World;

/// Stores what the descriptor makes of the key's property, if it is accepted.
pub(crate) fn define(
    w: &mut World,
    o: ObjId,
    key: Key,
    desc: Desc<Value>,
) -> Result<Defined, NoMemory>
    requires { CanDefine w.old o key desc }
    ensures { Ends w.old o desc (on_object ordinary_defined (names_of w.old) key desc (cell_at w.old o)) result w.new }
{
    match accepted(w, o, key, desc) {
        None => Ok(Defined::Answer(false)),
        Some(full) => {
            w.put(o, key, full)?;
            Ok(Defined::Answer(true))
        }
    }
}

/// What the key's property becomes, if the descriptor is accepted.
pub(crate) fn accepted(w: &World, o: ObjId, key: Key, desc: Desc<Value>) -> Option<Full<Value>>
    requires object { ObjIn w.now o }
    requires desc { DescIn w.now desc }
    requires kind { IsOfOneKind desc }
    ensures value { result ≡ accepted w.now o key desc }
    ensures within { Maybe (FullIn w.now) result }
    ensures cell { HasCell w.now o }
{
    let cell = w.cell(o);
    validate(cell.extensible, cell.props.get(key), desc)
}

// Methods of a Proxy at a key (ECMA-262, 10.5.5 to 10.5.10), once their traps were called.
ghost use Rattle.std.specs.Prelude.{◌≡◌, ◌∷◌, [], ℕ};
ghost use Rattle.mb_frames.specs.Held.{HeldDesc, HeldFull, HeldKey, HeldObject, HeldReal, HeldValue};
ghost use Rattle.mb_frames.specs.Passing.{Part};
ghost use Rattle.mb_frames.specs.Ready.{KeepsBy, Leaves};
ghost use Rattle.mb_frames.specs.Resolved.{real_in};
ghost use Rattle.mb_frames.specs.Sorts.{AFlag, AProperty, AValue};
ghost use Rattle.mb_frames.specs.Stepping.{Sure};
ghost use Rattle.mb_model.specs.Meaning.{finished};
ghost use Rattle.mb_model.specs.Objects.Proxies.{define_extensible, define_read, define_said, delete_said, get_read};
ghost use Rattle.mb_model.specs.Objects.Proxies.{get_said, has_said, own_extensible, own_read, own_said, set_read};
ghost use Rattle.mb_model.specs.Objects.Proxies.{set_said};
ghost use Rattle.mb_world.specs.Data.{Data};
ghost use Rattle.mb_world.specs.Image.{Resolve, desc_in, full_in, key_in, names_of, object_in};
ghost use Rattle.mb_call.specs.Ours.{Acts};

use crate::absent::absent_said;
use crate::errors::type_error;
use crate::giving::{asks, judged, yes_or_no};
use mb_base::{Key, ObjId, Side, Value};
use mb_call::todesc;
use mb_check::{define, get, own_present, set};
use mb_desc::{Desc, Full};
use mb_frames::{Absent, AfterDesc, Answer, Halt, Method, Move, ProxyFrame};
use mb_world::World;

// ---- getOwnPropertyDescriptor

// The trap gave a value, which must be an object or undefined.
pub(crate) fn own_said(
    w: &mut World,
    home: Side,
    target: ObjId,
    key: Key,
    said: Value,
) -> Result<Move, Halt>
    requires acts { Acts w.old home (HeldObject target ∷ HeldKey key ∷ HeldValue said ∷ []) }
    ensures part { (f : ℕ) → Part home result w.old w.new f f (own_said home.0 (object_in (names_of w.old) target)
        (key_in (names_of w.old) key) (Resolve (names_of w.old) said) finished) }
    ensures keeps { KeepsBy home AProperty result w.old w.new }
{
    match said {
        Value::Undefined => Ok(absent_said(home, target, key, Absent::Own)),
        Value::Object(_) => todesc(w, home, said, AfterDesc::Own { target, key }),
        _ => type_error(w, home),
    }
}

// What the target has was read.
pub(crate) fn own_read(
    home: Side,
    target: ObjId,
    said: Full<Value>,
    real: Option<Full<Value>>,
) -> Move
    ensures sure { (d : Data) → Acts d home (HeldObject target ∷ HeldFull said ∷ HeldReal real ∷ []) →
        Sure home d (own_read home.0 (object_in (names_of d) target) (full_in (names_of d) said)
        (real_in (names_of d) real) finished) result }
    ensures leaves { (d : Data) → Acts d home (HeldObject target ∷ HeldFull said ∷ HeldReal real ∷ []) →
        Leaves d home AProperty result }
{
    let frame = ProxyFrame::OwnExtensible { said, real };
    asks(home, frame, Method::IsExtensible, target)
}

// The target told whether it is extensible.
pub(crate) fn own_extensible(
    w: &mut World,
    home: Side,
    said: Full<Value>,
    real: Option<Full<Value>>,
    extensible: bool,
) -> Result<Move, Halt>
    requires acts { Acts w.old home (HeldFull said ∷ HeldReal real ∷ []) }
    ensures part { (f : ℕ) → Part home result w.old w.new f f (own_extensible home.0
        (full_in (names_of w.old) said) (real_in (names_of w.old) real) extensible finished) }
    ensures keeps { KeepsBy home AProperty result w.old w.new }
{
    let _texts = w.texts();
    let verdict = own_present(said, real, extensible);
    judged(w, home, verdict, Answer::Prop(Some(said)))
}

// ---- defineProperty

// The trap answered yes or no.
pub(crate) fn define_said(
    home: Side,
    target: ObjId,
    key: Key,
    given: Desc<Value>,
    said: bool,
) -> Move
    ensures sure { (d : Data) → Acts d home (HeldObject target ∷ HeldKey key ∷ HeldDesc given ∷ []) →
        Sure home d (define_said home.0 (object_in (names_of d) target) (key_in (names_of d) key)
        (desc_in (Resolve (names_of d)) given) said finished) result }
    ensures leaves { (d : Data) → Acts d home (HeldObject target ∷ HeldKey key ∷ HeldDesc given ∷ []) →
        Leaves d home AFlag result }
{
    if said {
        let frame = ProxyFrame::DefineRead { target, given };
        asks(home, frame, Method::GetOwnProperty(key), target)
    } else {
        yes_or_no(false)
    }
}

// What the target has was read.
pub(crate) fn define_read(
    home: Side,
    target: ObjId,
    given: Desc<Value>,
    real: Option<Full<Value>>,
) -> Move
    ensures sure { (d : Data) → Acts d home (HeldObject target ∷ HeldDesc given ∷ HeldReal real ∷ []) →
        Sure home d (define_read home.0 (object_in (names_of d) target) (desc_in (Resolve (names_of d)) given)
        (real_in (names_of d) real) finished) result }
    ensures leaves { (d : Data) → Acts d home (HeldObject target ∷ HeldDesc given ∷ HeldReal real ∷ []) →
        Leaves d home AFlag result }
{
    let frame = ProxyFrame::DefineExtensible { given, real };
    asks(home, frame, Method::IsExtensible, target)
}

// The target told whether it is extensible.
pub(crate) fn define_extensible(
    w: &mut World,
    home: Side,
    given: Desc<Value>,
    real: Option<Full<Value>>,
    extensible: bool,
) -> Result<Move, Halt>
    requires acts { Acts w.old home (HeldDesc given ∷ HeldReal real ∷ []) }
    ensures part { (f : ℕ) → Part home result w.old w.new f f (define_extensible home.0
        (desc_in (Resolve (names_of w.old)) given) (real_in (names_of w.old) real) extensible finished) }
    ensures keeps { KeepsBy home AFlag result w.old w.new }
{
    let _texts = w.texts();
    judged(w, home, define(given, real, extensible), Answer::Flag(true))
}

// ---- has, get, set, deleteProperty

// The trap of has answered yes or no.
pub(crate) fn has_said(home: Side, target: ObjId, key: Key, said: bool) -> Move
    ensures sure { (d : Data) → Acts d home (HeldObject target ∷ HeldKey key ∷ []) →
        Sure home d (has_said home.0 (object_in (names_of d) target) (key_in (names_of d) key) said finished) result }
    ensures leaves { (d : Data) → Acts d home (HeldObject target ∷ HeldKey key ∷ []) → Leaves d home AFlag result }
{
    if said {
        yes_or_no(true)
    } else {
        absent_said(home, target, key, Absent::Has)
    }
}

// The trap of get gave a value.
pub(crate) fn get_said(home: Side, target: ObjId, key: Key, said: Value) -> Move
    ensures sure { (d : Data) → Acts d home (HeldObject target ∷ HeldKey key ∷ HeldValue said ∷ []) →
        Sure home d (get_said home.0 (object_in (names_of d) target) (key_in (names_of d) key)
        (Resolve (names_of d) said) finished) result }
    ensures leaves { (d : Data) → Acts d home (HeldObject target ∷ HeldKey key ∷ HeldValue said ∷ []) →
        Leaves d home AValue result }
{
    let frame = ProxyFrame::GetRead { said };
    asks(home, frame, Method::GetOwnProperty(key), target)
}

// What the target has was read.
pub(crate) fn get_read(
    w: &mut World,
    home: Side,
    said: Value,
    real: Option<Full<Value>>,
) -> Result<Move, Halt>
    requires acts { Acts w.old home (HeldValue said ∷ HeldReal real ∷ []) }
    ensures part { (f : ℕ) → Part home result w.old w.new f f (get_read home.0
        (Resolve (names_of w.old) said) (real_in (names_of w.old) real) finished) }
    ensures keeps { KeepsBy home AValue result w.old w.new }
{
    let _texts = w.texts();
    judged(w, home, get(said, real), Answer::Value(said))
}

// The trap of set answered yes or no.
pub(crate) fn set_said(home: Side, target: ObjId, key: Key, given: Value, said: bool) -> Move
    ensures sure { (d : Data) → Acts d home (HeldObject target ∷ HeldKey key ∷ HeldValue given ∷ []) →
        Sure home d (set_said home.0 (object_in (names_of d) target) (key_in (names_of d) key)
        (Resolve (names_of d) given) said finished) result }
    ensures leaves { (d : Data) → Acts d home (HeldObject target ∷ HeldKey key ∷ HeldValue given ∷ []) →
        Leaves d home AFlag result }
{
    if said {
        let frame = ProxyFrame::SetRead { given };
        asks(home, frame, Method::GetOwnProperty(key), target)
    } else {
        yes_or_no(false)
    }
}

// What the target has was read.
pub(crate) fn set_read(
    w: &mut World,
    home: Side,
    given: Value,
    real: Option<Full<Value>>,
) -> Result<Move, Halt>
    requires acts { Acts w.old home (HeldValue given ∷ HeldReal real ∷ []) }
    ensures part { (f : ℕ) → Part home result w.old w.new f f (set_read home.0
        (Resolve (names_of w.old) given) (real_in (names_of w.old) real) finished) }
    ensures keeps { KeepsBy home AFlag result w.old w.new }
{
    let _texts = w.texts();
    judged(w, home, set(given, real), Answer::Flag(true))
}

// The trap of deleteProperty answered yes or no.
pub(crate) fn delete_said(home: Side, target: ObjId, key: Key, said: bool) -> Move
    ensures sure { (d : Data) → Acts d home (HeldObject target ∷ HeldKey key ∷ []) → Sure home d
        (delete_said home.0 (object_in (names_of d) target) (key_in (names_of d) key) said finished) result }
    ensures leaves { (d : Data) → Acts d home (HeldObject target ∷ HeldKey key ∷ []) → Leaves d home AFlag result }
{
    if said {
        absent_said(home, target, key, Absent::Delete)
    } else {
        yes_or_no(false)
    }
}

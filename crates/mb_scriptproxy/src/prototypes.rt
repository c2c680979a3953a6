// [[GetPrototypeOf]] and [[SetPrototypeOf]] of a Proxy (ECMA-262, 10.5.1, 10.5.2), once their traps were called.
ghost use Rattle.std.specs.Prelude.{◌≡◌, ◌||◌, ◌∷◌, [], ℕ, true};
ghost use Rattle.mb_frames.specs.Held.{HeldObject, HeldPrototype, HeldValue};
ghost use Rattle.mb_frames.specs.Passing.{Part};
ghost use Rattle.mb_frames.specs.Ready.{KeepsBy, Leaves};
ghost use Rattle.mb_frames.specs.Sorts.{AFlag, APrototype};
ghost use Rattle.mb_frames.specs.Stepping.{Sure};
ghost use Rattle.mb_model.specs.Meaning.{finished};
ghost use Rattle.mb_model.specs.Objects.Proxies.{prototype_extensible, prototype_read, prototype_said};
ghost use Rattle.mb_model.specs.Objects.Proxies.{set_prototype_extensible, set_prototype_read, set_prototype_said};
ghost use Rattle.mb_world.specs.Data.{Data};
ghost use Rattle.mb_world.specs.Formed.{IsNullOrObject};
ghost use Rattle.mb_world.specs.Image.{Names, Resolve, names_of, object_in};
ghost use Rattle.mb_world.specs.Value.{is_null, is_object};
ghost use Rattle.mb_call.specs.Ours.{Acts};

use crate::errors::type_error;
use crate::giving::{asks, gives, judged, yes_or_no};
use mb_base::{ObjId, Side, Value};
use mb_check::{get_prototype, set_prototype};
use mb_frames::{Answer, Halt, Method, Move, ProxyFrame};
use mb_world::World;

// The trap of getPrototypeOf gave a value, which must be an object or null.
pub(crate) fn prototype_said(
    w: &mut World,
    home: Side,
    target: ObjId,
    said: Value,
) -> Result<Move, Halt>
    requires acts { Acts w.old home (HeldObject target ∷ HeldValue said ∷ []) }
    ensures part { (f : ℕ) → Part home result w.old w.new f f (prototype_said home.0
        (object_in (names_of w.old) target) (Resolve (names_of w.old) said) finished) }
    ensures keeps { KeepsBy home APrototype result w.old w.new }
{
    if !is_prototype(said) {
        return type_error(w, home);
    }
    let frame = ProxyFrame::PrototypeExtensible { target, said };
    Ok(asks(home, frame, Method::IsExtensible, target))
}

// Whether a value can be a prototype.
fn is_prototype(x: Value) -> bool
    ensures is { (n : Names) → result ≡ (is_object (Resolve n x) || is_null (Resolve n x)) }
    ensures object { result ≡ true → IsNullOrObject x }
{
    match x {
        Value::Null => true,
        Value::Object(_) => true,
        _ => false,
    }
}

// The target told whether it is extensible: the prototype of one that isn't is read.
pub(crate) fn prototype_extensible(home: Side, target: ObjId, said: Value, extensible: bool) -> Move
    ensures sure { (d : Data) → Acts d home (HeldObject target ∷ HeldPrototype said ∷ []) →
        Sure home d (prototype_extensible home.0 (object_in (names_of d) target) (Resolve (names_of d) said)
        extensible finished) result }
    ensures leaves { (d : Data) → Acts d home (HeldObject target ∷ HeldPrototype said ∷ []) →
        Leaves d home APrototype result }
{
    if extensible {
        gives(Answer::Value(said))
    } else {
        let frame = ProxyFrame::PrototypeRead { said };
        asks(home, frame, Method::GetPrototypeOf, target)
    }
}

// The target's prototype was read.
pub(crate) fn prototype_read(
    w: &mut World,
    home: Side,
    said: Value,
    real: Value,
) -> Result<Move, Halt>
    requires acts { Acts w.old home (HeldPrototype said ∷ HeldValue real ∷ []) }
    ensures part { (f : ℕ) → Part home result w.old w.new f f (prototype_read home.0
        (Resolve (names_of w.old) said) (Resolve (names_of w.old) real) finished) }
    ensures keeps { KeepsBy home APrototype result w.old w.new }
{
    let _texts = w.texts();
    judged(
        w,
        home,
        get_prototype(said, Some(real)),
        Answer::Value(said),
    )
}

// The trap of setPrototypeOf answered yes or no.
pub(crate) fn set_prototype_said(home: Side, target: ObjId, given: Value, said: bool) -> Move
    ensures sure { (d : Data) → Acts d home (HeldObject target ∷ HeldPrototype given ∷ []) →
        Sure home d (set_prototype_said home.0 (object_in (names_of d) target) (Resolve (names_of d) given) said
        finished) result }
    ensures leaves { (d : Data) → Acts d home (HeldObject target ∷ HeldPrototype given ∷ []) →
        Leaves d home AFlag result }
{
    if said {
        let frame = ProxyFrame::SetPrototypeExtensible { target, given };
        asks(home, frame, Method::IsExtensible, target)
    } else {
        yes_or_no(false)
    }
}

// The target told whether it is extensible: the prototype of one that isn't is read.
pub(crate) fn set_prototype_extensible(
    home: Side,
    target: ObjId,
    given: Value,
    extensible: bool,
) -> Move
    ensures sure { (d : Data) → Acts d home (HeldObject target ∷ HeldPrototype given ∷ []) →
        Sure home d (set_prototype_extensible home.0 (object_in (names_of d) target) (Resolve (names_of d) given)
        extensible finished) result }
    ensures leaves { (d : Data) → Acts d home (HeldObject target ∷ HeldPrototype given ∷ []) →
        Leaves d home AFlag result }
{
    if extensible {
        yes_or_no(true)
    } else {
        let frame = ProxyFrame::SetPrototypeRead { given };
        asks(home, frame, Method::GetPrototypeOf, target)
    }
}

// The target's prototype was read.
pub(crate) fn set_prototype_read(
    w: &mut World,
    home: Side,
    given: Value,
    real: Value,
) -> Result<Move, Halt>
    requires acts { Acts w.old home (HeldPrototype given ∷ HeldValue real ∷ []) }
    ensures part { (f : ℕ) → Part home result w.old w.new f f (set_prototype_read home.0
        (Resolve (names_of w.old) given) (Resolve (names_of w.old) real) finished) }
    ensures keeps { KeepsBy home AFlag result w.old w.new }
{
    let _texts = w.texts();
    judged(
        w,
        home,
        set_prototype(given, Some(real)),
        Answer::Flag(true),
    )
}

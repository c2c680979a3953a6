// New targets of constructors (GetPrototypeFromConstructor, ECMA-262, 10.1.14).
ghost use Rattle.std.specs.Prelude.{◌≡◌, ◌≢◌, ◌∷◌, [], ℕ, IfOk, None};
ghost use Rattle.mb_call.specs.Ours.{Acts};
ghost use Rattle.mb_frames.specs.Held.{HeldObject, HeldPrototype, HeldValue};
ghost use Rattle.mb_frames.specs.Holding.{reflect_held};
ghost use Rattle.mb_frames.specs.Passing.{Part};
ghost use Rattle.mb_frames.specs.Ready.{Holds, KeepsBy};
ghost use Rattle.mb_frames.specs.Sorts.{AValue, reflect_gives, reflect_waits};
ghost use Rattle.mb_model.specs.BuiltIns.Arguments.{prototype_or};
ghost use Rattle.mb_model.specs.Meaning.{finished};
ghost use Rattle.mb_reflect.specs.machine.Targets.{IsOther, getting};
ghost use Rattle.mb_world.specs.Ids.{ValueIn};
ghost use Rattle.mb_world.specs.Image.{Resolve, names_of, object_in};
ghost use Rattle.mb_world.specs.Intrinsics.{intrinsic};
ghost use Rattle.mb_world.specs.Value.{BuiltIn};

use crate::giving::waits;
use crate::keys::key_of_word;
use mb_base::{NoMemory, ObjId, Side, Value};
use mb_frames::{Halt, Method, Move, ReflectFrame, built_in};
use mb_world::{CellKind, World};

// The units of the text `prototype`.
const PROTOTYPE: [u16; 9] = [112, 114, 111, 116, 111, 116, 121, 112, 101];

// The new target, where it is another constructor than the built-in at that place. Constructions give objects alone.
pub(crate) fn other_target(w: &World, target: Value, place: u16) -> Result<Option<ObjId>, NoMemory>
    requires value { ValueIn w.now target }
    ensures other { IfOk result (IsOther w.now place target) }
{
    match target {
        Value::Undefined => Ok(None),
        Value::Object(id) => match w.cell(id).kind {
            CellKind::BuiltIn(at) => { if at == place { Ok(None) } else { Ok(Some(id)) } }
            _ => Ok(Some(id)),
        },
        _ => Err(NoMemory),
    }
}

// The `prototype` of another new target is got.
pub(crate) fn ask_prototype(
    w: &mut World,
    home: Side,
    frame: ReflectFrame,
    asked: ObjId,
) -> Result<Move, Halt>
    requires acts { Acts w.old home (HeldObject asked ∷ reflect_held frame) }
    requires waits { reflect_waits frame ≡ AValue }
    ensures part { (f : ℕ) → Part home result w.old w.new f f
        (getting (names_of w.old) home.0 frame (object_in (names_of w.old) asked) finished) }
    ensures keeps { KeepsBy home (reflect_gives frame) result w.old w.new }
{
    let key = key_of_word(w, &PROTOTYPE)?;
    let receiver = Value::Object(asked);
    Ok(waits(home, frame, Method::Get { key, receiver }, asked))
}

// What was got, if it is an object, or the prototype at that place.
pub(crate) fn prototype_or(w: &World, home: Side, place: u16, got: Value) -> Value
    requires acts { Acts w.now home (HeldValue got ∷ []) }
    requires place { intrinsic place ≢ None }
    ensures value { Resolve (names_of w.now) result ≡ prototype_or (BuiltIn place) (Resolve (names_of w.now) got) }
    ensures held { Holds w.now home (HeldPrototype result ∷ []) }
{
    match got {
        Value::Object(_) => got,
        _ => built_in(w, home, place),
    }
}

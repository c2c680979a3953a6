// A trap was called, and gave a value (ECMA-262, 10.5).
ghost use Rattle.std.specs.Prelude.{◌≡◌, ◌∷◌, [], ℕ};
ghost use Rattle.mb_frames.specs.Held.{HeldObject, HeldValue};
ghost use Rattle.mb_frames.specs.Holding.{method_held};
ghost use Rattle.mb_frames.specs.Passing.{Part};
ghost use Rattle.mb_frames.specs.Ready.{KeepsBy};
ghost use Rattle.mb_frames.specs.Resolved.{method_in};
ghost use Rattle.mb_frames.specs.Rest.Proxying.{trap_said};
ghost use Rattle.mb_frames.specs.Sorts.{AnObject, method_gives};
ghost use Rattle.mb_model.specs.Meaning.{finished};
ghost use Rattle.mb_model.specs.Objects.Proxies.{construct_said};
ghost use Rattle.mb_world.specs.Image.{Resolve, names_of, object_in};
ghost use Rattle.mb_call.specs.Ours.{Acts};

use crate::extensions::{extensible_said, prevent_said};
use crate::giving::{gives, judged};
use crate::keys::keys_said;
use crate::properties::{define_said, delete_said, get_said, has_said, own_said, set_said};
use crate::prototypes::{prototype_said, set_prototype_said};
use mb_base::{ObjId, Side, Value};
use mb_check::construct;
use mb_frames::{Answer, Halt, Method, Move};
use mb_parts::truth;
use mb_world::World;

// What the trap of a method gave.
pub(crate) fn trap_said(
    w: &mut World,
    home: Side,
    target: ObjId,
    method: Method,
    said: Value,
) -> Result<Move, Halt>
    requires acts { Acts w.old home (HeldValue said ∷ HeldObject target ∷ method_held target method) }
    ensures part { (f : ℕ) → Part home result w.old w.new f f (trap_said home.0 (object_in (names_of w.old) target)
        (Resolve (names_of w.old) said) (method_in (names_of w.old) method) finished) }
    ensures keeps { KeepsBy home (method_gives method) result w.old w.new }
{
    let yes = truth(w, said);
    match method {
        Method::GetPrototypeOf => prototype_said(w, home, target, said),
        Method::SetPrototypeOf(given) => Ok(set_prototype_said(home, target, given, yes)),
        Method::IsExtensible => Ok(extensible_said(home, target, yes)),
        Method::PreventExtensions => Ok(prevent_said(home, target, yes)),
        Method::GetOwnProperty(key) => own_said(w, home, target, key, said),
        Method::DefineOwnProperty(key, given) => Ok(define_said(home, target, key, given, yes)),
        Method::HasProperty(key) => Ok(has_said(home, target, key, yes)),
        Method::Get { key, .. } => Ok(get_said(home, target, key, said)),
        Method::Set { key, value, .. } => Ok(set_said(home, target, key, value, yes)),
        Method::Delete(key) => Ok(delete_said(home, target, key, yes)),
        Method::OwnPropertyKeys => keys_said(w, home, target, said),
        Method::Call { .. } => Ok(gives(Answer::Value(said))),
        Method::Construct { .. } => construct_said(w, home, said),
    }
}

// The trap of construct gave a value, which must be an object.
fn construct_said(w: &mut World, home: Side, said: Value) -> Result<Move, Halt>
    requires acts { Acts w.old home (HeldValue said ∷ []) }
    ensures part { (f : ℕ) → Part home result w.old w.new f f
        (construct_said home.0 (Resolve (names_of w.old) said) finished) }
    ensures keeps { KeepsBy home AnObject result w.old w.new }
{
    judged(w, home, construct(said), Answer::Value(said))
}

// What the policy says of a method.
ghost use Rattle.std.specs.Prelude.{◌≡◌, Some};
ghost use Rattle.mb_model.specs.Objects.Methods as model;
ghost use Rattle.mb_rules.specs.Seen.{graph_of, ruling_in};
ghost use Rattle.mb_world.specs.Graph.{Thing};
ghost use Rattle.mb_world.specs.Image.{names_of, object_at};
ghost use Rattle.mb_call.specs.machine.Methods.{AsksChange, change_of, changes_in};

use mb_base::{ObjId, Side};
use mb_frames::Method;
use mb_rules::{Change, Ruling, admits};
use mb_world::World;

// The change that a method asks, if it asks one.
pub(crate) fn change_of(method: &Method) -> Option<Change>
    ensures { result ≡ change_of method.now }
{
    match method {
        Method::SetPrototypeOf(given) => Some(Change::Proto(*given)),
        Method::PreventExtensions => Some(Change::Prevent),
        Method::DefineOwnProperty(key, _) => Some(Change::Define(*key)),
        Method::Set { key, .. } => Some(Change::Set(*key)),
        Method::Delete(key) => Some(Change::Delete(*key)),
        _ => None,
    }
}

// What the policy says of a change, if one is asked.
pub(crate) fn ruling(w: &World, viewer: Side, object: ObjId, change: Option<Change>) -> Ruling
    requires { AsksChange w.now object change }
    ensures { (t : Thing) → object_at w.now object ≡ Some t →
        ruling_in result ≡ model.ruling (graph_of w.now) viewer.0 t (changes_in (names_of w.now) change) }
{
    match change {
        Some(change) => admits(w, viewer, object, change),
        None => Ruling::Free,
    }
}

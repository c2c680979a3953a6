// The function that Proxy.revocable makes (ECMA-262, 28.2.2.1.1).
ghost use Rattle.std.specs.Prelude.{◌∷◌, [], ℕ, List, Ok};
ghost use Rattle.mb_base.specs.declared.value.Side.{Side as ASide};
ghost use Rattle.mb_frames.specs.Held.{HeldObject};
ghost use Rattle.mb_frames.specs.Passing.{Part};
ghost use Rattle.mb_frames.specs.Ready.{IsReady, KeepsBy};
ghost use Rattle.mb_frames.specs.Sorts.{AValue};
ghost use Rattle.mb_model.specs.BuiltIns.ProxyMaking.{revoke_proxy};
ghost use Rattle.mb_model.specs.Meaning.{finished};
ghost use Rattle.mb_model.specs.Nodes.Functions.{enter_row};
ghost use Rattle.mb_world.specs.Data.{cell_at};
ghost use Rattle.mb_world.specs.Ids.{ObjIn};
ghost use Rattle.mb_world.specs.Image.{names_of, number_at, object_in};
ghost use Rattle.mb_world.specs.Value.{Val};
ghost use Rattle.mb_call.specs.Ours.{Acts};
ghost use Rattle.mb_scriptproxy.specs.Ours.{IsProxy, IsRevoker};

use crate::giving::gives;
use mb_base::{ObjId, Value};
use mb_frames::{Answer, Move};
use mb_world::{CellKind, World};

// The function is entered: it takes target and handler of its Proxy away.
pub(crate) fn revoke(w: &mut World, function: ObjId) -> Move
    requires object { ObjIn w.old function }
    requires revoker { IsRevoker (cell_at w.old function) }
    requires ready { IsReady w.old }
    ensures part { (home : ASide) (this : Val) (vs : List Val) (f : ℕ) → Acts w.old home (HeldObject function ∷ []) →
        Part home (Ok result) w.old w.new f f (enter_row (object_in (names_of w.old) function) this vs finished) }
    ensures keeps { (home : ASide) → Acts w.old home (HeldObject function ∷ []) →
        KeepsBy home AValue (Ok result) w.old w.new }
{
    match w.cell(function).kind {
        CellKind::Revoker(proxy) => revoke_proxy(w, proxy),
        _ => unreachable!(),
    }
}

// The Proxy loses its target and its handler.
fn revoke_proxy(w: &mut World, proxy: ObjId) -> Move
    requires object { ObjIn w.old proxy }
    requires proxy { IsProxy (cell_at w.old proxy) }
    ensures part { (home : ASide) (f : ℕ) → Acts w.old home (HeldObject proxy ∷ []) → Part home (Ok result) w.old w.new
        f f (revoke_proxy (number_at (names_of w.old) proxy.0) finished) }
    ensures keeps { (home : ASide) → Acts w.old home (HeldObject proxy ∷ []) →
        KeepsBy home AValue (Ok result) w.old w.new }
{
    match w.cell(proxy).kind {
        CellKind::Proxy { shape, .. } => {
            let gone = CellKind::Proxy {
                target: None,
                handler: None,
                shape,
            };
            w.set_kind(proxy, gone);
            gives(Answer::Value(Value::Undefined))
        }
        _ => unreachable!(),
    }
}

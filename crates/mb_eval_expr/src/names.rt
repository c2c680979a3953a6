// Names and their scopes (ECMA-262, 9.1).
ghost use Rattle.std.specs.Prelude.{◌≡◌, ◌<◌, IfSome, List, length, option_map};
ghost use Rattle.mb_model.specs.Nodes.Scopes.{find_binding, resolve};
ghost use Rattle.mb_world.specs.Data.{names_at};
ghost use Rattle.mb_world.specs.Graph.{Item};
ghost use Rattle.mb_world.specs.Ids.{BoundIn, Maybe, ScopeIn, TextIn, ValueIn};
ghost use Rattle.mb_frames.specs.Real.{HasRealNames, IsReal};
ghost use Rattle.mb_eval_expr.specs.machine.Names.{bound_to};
ghost use Rattle.mb_world.specs.Image.{Image, Resolve, binding_in, names_of, text_in};
ghost use Rattle.mb_frames.specs.Ready.{IsReady, MayHold};
ghost use Rattle.mb_frames.specs.Held.{HeldValue, HeldScope};
ghost use Rattle.mb_world.specs.Contained.{scope_home};
ghost use Rattle.mb_base.specs.declared.value.Side.{Side as ASide};

use mb_base::{ScopeId, StrId, Value};
use mb_world::{Bound, World};

// Where a name stands, from a scope on up (ECMA-262, 9.4.2).
pub(crate) fn find(w: &World, scope: ScopeId, name: StrId) -> Option<(ScopeId, usize)>
    requires scope { ScopeIn w.now scope }
    requires name { TextIn w.now name }
    ensures place { (log : List Item) → option_map (λ p. (p.0.0, p.1)) result
        ≡ resolve (Image w.now log) scope.0 (text_in (names_of w.now) name) }
    ensures within { IfSome result (λ p. ScopeIn w.now p.0 × (p.1 < length (names_at w.now p.0))) }
    ensures home { (home : ASide) → IsReady w.now → scope_home w.now scope home →
        IfSome result (λ p. scope_home w.now p.0 home) }
{
    let _texts = w.texts();
    let mut at = scope;
    for step in 0..w.scopes() {
        let here = w.scope(at);
        match here.names.place_of(name) {
            Some(place) => return Some((at, place)),
            None => match here.parent {
                Some(parent) => at = parent,
                None => return None,
            },
        }
    }
    None
}

// The name as some scope binds it, from a scope on up.
pub(crate) fn binding(w: &World, scope: ScopeId, name: StrId) -> Option<Bound>
    requires scope { ScopeIn w.now scope }
    requires name { TextIn w.now name }
    ensures value { (log : List Item) → option_map (binding_in (names_of w.now)) result
        ≡ find_binding (Image w.now log) scope.0 (text_in (names_of w.now) name) }
    ensures within { IfSome result (BoundIn w.now) }
    ensures real { HasRealNames w.now → IfSome result (λ b. Maybe (IsReal w.now) b.value) }
    ensures held { (home : ASide) → IsReady w.now → MayHold w.now home (HeldScope scope) →
        IfSome result (λ b. Maybe (λ x. MayHold w.now home (HeldValue x)) b.value) }
{
    match find(w, scope, name) {
        Some((at, place)) => w.scope(at).names.at(place),
        None => None,
    }
}

// The value of a name; `None` where no scope binds it, or it isn't given yet.
pub(crate) fn value_of(w: &World, scope: ScopeId, name: StrId) -> Option<Value>
    requires scope { ScopeIn w.now scope }
    requires name { TextIn w.now name }
    ensures value { (log : List Item) → option_map (Resolve (names_of w.now)) result
        ≡ bound_to (find_binding (Image w.now log) scope.0 (text_in (names_of w.now) name)) }
    ensures within { IfSome result (ValueIn w.now) }
    ensures real { HasRealNames w.now → IfSome result (IsReal w.now) }
    ensures held { (home : ASide) → IsReady w.now → MayHold w.now home (HeldScope scope) →
        IfSome result (λ x. MayHold w.now home (HeldValue x)) }
{
    match binding(w, scope, name) {
        Some(bound) => bound.value,
        None => None,
    }
}

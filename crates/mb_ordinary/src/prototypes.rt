// The prototype of an object, and the walk that finds cycles.
ghost use Rattle.std.specs.Prelude.{◌≡◌, ◌≢◌, ◌↔◌, List, Option, None, Some, true, Ok, IfOk, IfSome, IsErr, OnErr, if◌then◌else◌};
ghost use Rattle.mb_base.specs.declared.value.Side.{Side};
ghost use Rattle.mb_base.specs.declared.value.Value.{Value};
ghost use Rattle.mb_world.specs.Data.{cell_at, change_cell, with_proto};
ghost use Rattle.mb_world.specs.Ids.{ObjIn, ValueIn};
ghost use Rattle.mb_world.specs.Image.{Names, kind_in};
ghost use Rattle.mb_world.specs.Objects.{is_proxy_kind};
ghost use Rattle.mb_world.specs.Ordinary.{other_owner};
ghost use Rattle.mb_ordinary.specs.Objects.{IsOrdinary, owner_by, object_at};
ghost use Rattle.mb_ordinary.specs.Walks.{real, cell_owner, visited, visited_as, VisitIn, TellsReal, Unpaid, Answered, walked, answered, answered_as, proto_set, AnswersAsObject, object_with, TellsProto, TellsWalk};

use crate::answers::Visit;
use mb_base::{Fuel, ObjId, Spent, Value};
use mb_world::{CellKind, World};

/// OrdinarySetPrototypeOf (ECMA-262, 10.1.2.1). The walk over prototypes takes a unit for each object that it visits.
/// It is `Spent` where the next one can't be paid; those before stay taken. It goes on behind membrane proxies, and
/// ends at a script-made Proxy and, once the membrane is revoked, at an object of another side.
pub fn set_proto(w: &mut World, o: ObjId, p: Value, fuel: &mut Fuel) -> Result<bool, Spent>
    requires object { IsOrdinary (cell_at w.old o) }
    requires proto { ValueIn w.old p }
    ensures spent { IsErr result ↔ (proto_set w.old o p fuel.old ≡ Unpaid) }
    ensures answer { IfOk result (λ b. proto_set w.old o p fuel.old ≡ Answered b fuel.new) }
    ensures left { OnErr result (fuel.new ≡ 0) }
    ensures set { result ≡ Ok true → w.new ≡ change_cell w.old o (with_proto p) }
    ensures kept { result ≢ Ok true → w.new ≡ w.old }
    ensures meant { TellsWalk w.old o p → AnswersAsObject w.old o p fuel.old }
    ensures object { result ≡ Ok true → object_at w.new o ≡ object_with w.old p o }
{
    let answer = match proto_answer(w, o, p) {
        Some(answer) => answer,
        None => walk(w, o, p, fuel)?,
    };
    if answer {
        w.set_proto(o, p);
    }
    Ok(answer)
}

/// The answer of `set_proto` that comes before its walk (ECMA-262, 10.1.2.1, steps 1 to 4), or `None` where it walks.
pub fn proto_answer(w: &World, o: ObjId, p: Value) -> Option<bool>
    requires object { IsOrdinary (cell_at w.now o) }
    requires proto { ValueIn w.now p }
    ensures answer { result ≡ answered p (cell_at w.now o) }
    ensures meant { TellsProto w.now o p → IfSome (object_at w.now o) (λ t. result ≡ answered_as w.now p t) }
{
    let cell = w.cell(o);
    if p == cell.proto {
        Some(true)
    } else if cell.extensible {
        None
    } else {
        Some(false)
    }
}

/// One visit of the walk for the object `o`, at `x`.
pub fn visit(w: &World, o: ObjId, x: ObjId) -> Visit
    requires object { IsOrdinary (cell_at w.now o) }
    requires visited { ObjIn w.now x }
    ensures visit { result ≡ visited w.now o x }
    ensures meant { TellsReal w.now o x → result ≡ visited_as w.now o x }
    ensures within { VisitIn w.now result }
{
    let at = real(w, x);
    let cell = w.cell(at);
    if at == o {
        Visit::Meets
    } else if is_proxy(&cell.kind) || (w.revoked() && is_foreign(w, o, at)) {
        Visit::Ends
    } else {
        Visit::Onward(cell.proto)
    }
}

// The walk from a value on.
fn walk(w: &World, o: ObjId, p: Value, fuel: &mut Fuel) -> Result<bool, Spent>
    requires object { IsOrdinary (cell_at w.now o) }
    requires proto { ValueIn w.now p }
    ensures spent { IsErr result ↔ (walked (visited w.now o) fuel.old p ≡ Unpaid) }
    ensures answer { IfOk result (λ b. walked (visited w.now o) fuel.old p ≡ Answered b fuel.new) }
    ensures left { OnErr result (fuel.new ≡ 0) }
{
    let mut next = p;
    while let Value::Object(x) = next {
        fuel.charge(1)?;
        match visit(w, o, x) {
            Visit::Meets => return Ok(false),
            Visit::Ends => return Ok(true),
            Visit::Onward(above) => next = above,
        }
    }
    Ok(true)
}

// The object that a reference stands for.
fn real(w: &World, x: ObjId) -> ObjId
    requires { ObjIn w.now x }
    ensures real { result ≡ real w.now x }
    ensures within { ObjIn w.now result }
{
    match w.cell(x).kind {
        CellKind::Membrane { behind, .. } => behind,
        _ => x,
    }
}

fn is_proxy(kind: &CellKind) -> bool
    ensures { (n : Names) (slots : List (Option (Value × Value))) → result ≡ is_proxy_kind (kind_in n slots kind.now) }
{
    matches!(kind, CellKind::Proxy { .. })
}

// Whether another side owns the one than the other; a built-in is of every side.
fn is_foreign(w: &World, o: ObjId, x: ObjId) -> bool
    requires one { ObjIn w.now o }
    requires other { ObjIn w.now x }
    ensures { result ≡ other_owner (cell_owner (cell_at w.now o)) (cell_owner (cell_at w.now x)) }
{
    let (one, other) = (w.cell(o), w.cell(x));
    !is_built_in(&one.kind) && !is_built_in(&other.kind) && one.home != other.home
}

fn is_built_in(kind: &CellKind) -> bool
    ensures { (home : Side) → owner_by kind.now home ≡ (if result then None else Some home.0) }
{
    matches!(kind, CellKind::BuiltIn(_))
}

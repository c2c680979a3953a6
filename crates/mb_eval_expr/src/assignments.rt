// Assignments (ECMA-262, 13.15, 13.4).
ghost use Rattle.std.specs.Prelude.{◌≡◌, ◌<◌, ℕ, List, Some, false, if◌then◌else◌, length, [], ◌∷◌};
ghost use Rattle.mb_frames.specs.Held.{AreIn, HeldValue, HeldScope};
ghost use Rattle.mb_frames.specs.Holding.{reference_held, expr_held};
ghost use Rattle.mb_frames.specs.Resolved.{context_in, reference_in};
ghost use Rattle.mb_model.specs.Meaning.{finished};
ghost use Rattle.mb_model.specs.Nodes.Assignments.{compound_got, compound_old, update_old};
ghost use Rattle.mb_model.specs.Nodes.References.{put_and_give};
ghost use Rattle.mb_model.specs.Nodes.Scopes.{resolve, write_name};
ghost use Rattle.mb_model.specs.Writing.{◌>>=◌ as after_that, is_value, unless_type_error};
ghost use Rattle.mb_base.specs.declared.value.Side.{Side as ASide};
ghost use Rattle.mb_frames.specs.Stepping.{Sure};
ghost use Rattle.mb_world.proofs.Values.{Apart};
ghost use Rattle.mb_frames.specs.Grammatical.{asks_objects};
ghost use Rattle.mb_world.specs.Data.{Data, names_at};
ghost use Rattle.mb_world.specs.Graph.{Item};
ghost use Rattle.mb_world.specs.Ids.{ScopeIn, TextIn, ValueIn};
ghost use Rattle.mb_world.specs.Image.{Image, Resolve, names_of, text_in};
ghost use Rattle.mb_frames.specs.Passing.{Part};
ghost use Rattle.mb_parts.specs.Standing.{Acts, ContextIn};
ghost use Rattle.mb_frames.specs.Ready.{Keeps};
ghost use Rattle.mb_frames.specs.Sorts.{AValue};
ghost use Rattle.mb_eval_expr.specs.machine.Keeping.{Leaving};
ghost use Rattle.mb_frames.specs.declared.expressions.ExprFrame.TheVariants as TheFrame;

use crate::binary::compute;
use crate::computing::{Computed, stepped};
use crate::giving::{asks, value};
use crate::names::find;
use mb_base::{Fuel, NodeId, ScopeId, Side, StrId, Value};
use mb_frames::{Context, ExprFrame, Frame, Halt, Method, Move, Reference, Task};
use mb_parts::{throws, type_error};
use mb_tree::Sign;
use mb_world::{ErrorKind, World};

// A name is written, and the expression gives `gives`.
fn write_name(
    w: &mut World,
    home: Side,
    scope: ScopeId,
    name: StrId,
    x: Value,
    gives: Value,
) -> Result<Move, Halt>
    requires acts { Acts w.old home }
    requires scope { ScopeIn w.old scope }
    requires name { TextIn w.old name }
    requires value { ValueIn w.old x }
    requires gives { ValueIn w.old gives }
    ensures row { (f : ℕ) → Part home result w.old w.new f f (after_that
        (write_name home.0 scope.0 (text_in (names_of w.old) name) (Resolve (names_of w.old) x))
        (λ b. is_value (Resolve (names_of w.old) gives)) finished) }
    ensures keeps { Keeps home AValue (HeldScope scope ∷ HeldValue x ∷ HeldValue gives ∷ []) result w.old w.new }
{
    match find(w, scope, name) {
        Some((at, place)) => write_at(w, home, scope, name, at, place, x, gives),
        None => throws(w, home, ErrorKind::ReferenceError),
    }
}

// A name is written in the place where it was found.
fn write_at(
    w: &mut World,
    home: Side,
    scope: ScopeId,
    name: StrId,
    at: ScopeId,
    place: usize,
    x: Value,
    gives: Value,
) -> Result<Move, Halt>
    requires acts { Acts w.old home }
    requires at { ScopeIn w.old at }
    requires place { place < length (names_at w.old at) }
    requires found { (log : List Item) → resolve (Image w.old log) scope.0 (text_in (names_of w.old) name)
        ≡ Some (at.0, place) }
    requires value { ValueIn w.old x }
    requires gives { ValueIn w.old gives }
    ensures row { (f : ℕ) → Part home result w.old w.new f f (after_that
        (write_name home.0 scope.0 (text_in (names_of w.old) name) (Resolve (names_of w.old) x))
        (λ b. is_value (Resolve (names_of w.old) gives)) finished) }
    ensures keeps { Keeps home AValue (HeldScope at ∷ HeldValue x ∷ HeldValue gives ∷ []) result w.old w.new }
{
    if place > u32::MAX as usize {
        return Err(Halt::NoMemory);
    }
    match w.scope(at).names.at(place) {
        Some(bound) => match bound.value {
            Some(_) => {
                if bound.fixed {
                    type_error(w, home)
                } else {
                    w.give(at, place as u32, x);
                    Ok(value(gives))
                }
            }
            None => throws(w, home, ErrorKind::ReferenceError),
        },
        None => unreachable!(),
    }
}

// A reference is written, and the expression gives `gives`.
pub(crate) fn put_and_give(
    w: &mut World,
    home: Side,
    at: Context,
    to: Reference,
    x: Value,
    gives: Value,
) -> Result<Move, Halt>
    requires acts { Acts w.old home }
    requires at { ContextIn w.old at }
    requires to { AreIn w.old (reference_held to) }
    requires value { ValueIn w.old x }
    requires gives { ValueIn w.old gives }
    ensures row { (f : ℕ) → Part home result w.old w.new f f (put_and_give (context_in (names_of w.old) home.0 at)
        (reference_in (names_of w.old) to) (Resolve (names_of w.old) x) (Resolve (names_of w.old) gives) finished) }
    ensures keeps { Keeps home AValue (HeldValue x ∷ HeldValue gives ∷ expr_held (TheFrame.AssignValue at to))
        result w.old w.new }
{
    match to {
        Reference::Name(name) => write_name(w, home, at.scope, name, x, gives),
        Reference::Place { base, key } => match base {
            Value::Object(object) => Ok(Move::Wait(
                Frame::Expr(ExprFrame::Put { gives }),
                asks(
                    home,
                    Method::Set {
                        key,
                        value: x,
                        receiver: base,
                    },
                    object,
                ),
            )),
            _ => type_error(w, home),
        },
    }
}

// The target of a compound assignment was read.
pub(crate) fn compound_old(
    at: Context,
    sign: Sign,
    value: NodeId,
    to: Reference,
    old: Value,
) -> Move
    ensures row { (home : ASide) (d : Data) → ContextIn d at → AreIn d (reference_held to) → ValueIn d old →
        Sure home d (compound_old (context_in (names_of d) home.0 at) sign value.0 (reference_in (names_of d) to)
        (Resolve (names_of d) old) finished) result }
    ensures leaves { (home : ASide) (d : Data) →
        Leaving home (HeldValue old ∷ expr_held (TheFrame.CompoundOld at sign value to)) result d }
{
    Move::Wait(
        Frame::Expr(ExprFrame::CompoundValue { at, sign, old, to }),
        Task::Evaluate { node: value, at },
    )
}

// Both sides of a compound assignment are there.
pub(crate) fn compound_got(
    w: &mut World,
    fuel: &mut Fuel,
    home: Side,
    at: Context,
    sign: Sign,
    to: Reference,
    old: Value,
    x: Value,
) -> Result<Move, Halt>
    requires acts { Acts w.old home }
    requires at { ContextIn w.old at }
    requires sign { asks_objects sign ≡ false }
    requires to { AreIn w.old (reference_held to) }
    requires old { ValueIn w.old old }
    requires value { ValueIn w.old x }
    requires apart { Apart (names_of w.old) old x }
    ensures row { Part home result w.old w.new fuel.old fuel.new (compound_got (context_in (names_of w.old) home.0 at)
        sign (reference_in (names_of w.old) to) (Resolve (names_of w.old) old) (Resolve (names_of w.old) x) finished) }
    ensures keeps { Keeps home AValue (HeldValue x ∷ expr_held (TheFrame.CompoundValue at sign old to))
        result w.old w.new }
{
    let computed = compute(w, fuel, sign, old, x)?;
    match computed {
        Computed::Value(new) => put_and_give(w, home, at, to, new, new),
        Computed::Faulty(kind) => throws(w, home, kind),
    }
}

// The target of `++` or `--` was read.
pub(crate) fn update_old(
    w: &mut World,
    home: Side,
    at: Context,
    plus: bool,
    prefix: bool,
    to: Reference,
    old: Value,
) -> Result<Move, Halt>
    requires acts { Acts w.old home }
    requires at { ContextIn w.old at }
    requires to { AreIn w.old (reference_held to) }
    requires old { ValueIn w.old old }
    ensures row { (f : ℕ) → Part home result w.old w.new f f (update_old (context_in (names_of w.old) home.0 at)
        plus prefix (reference_in (names_of w.old) to) (Resolve (names_of w.old) old) finished) }
    ensures keeps { Keeps home AValue (HeldValue old ∷ expr_held (TheFrame.UpdateOld at plus prefix to))
        result w.old w.new }
{
    match stepped(plus, old) {
        Computed::Value(new) => { put_and_give(w, home, at, to, new, either(prefix, new, old)) }
        Computed::Faulty(kind) => throws(w, home, kind),
    }
}

// An object was asked to set a property (ECMA-262, 7.3.4).
pub(crate) fn put_done(w: &mut World, home: Side, gives: Value, done: bool) -> Result<Move, Halt>
    requires acts { Acts w.old home }
    requires gives { ValueIn w.old gives }
    ensures row { (f : ℕ) → Part home result w.old w.new f f (after_that (unless_type_error home.0 done)
        (λ b. is_value (Resolve (names_of w.old) gives)) finished) }
    ensures keeps { Keeps home AValue (expr_held (TheFrame.Put gives)) result w.old w.new }
{
    if done {
        Ok(value(gives))
    } else {
        type_error(w, home)
    }
}

fn either(first: bool, a: Value, b: Value) -> Value
    ensures { result ≡ (if first then a else b) }
{
    if first { a } else { b }
}

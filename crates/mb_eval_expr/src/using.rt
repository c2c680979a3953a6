// References that are read (ECMA-262, 6.2.5), and what follows.
ghost use Rattle.std.specs.Prelude.{ℕ, [], ◌∷◌, ◌++◌};
ghost use Rattle.mb_frames.specs.Held.{AreIn, HeldValue, HeldKey};
ghost use Rattle.mb_frames.specs.Holding.{after_held, reference_held, expr_held};
ghost use Rattle.mb_frames.specs.Resolved.{context_in, reference_in};
ghost use Rattle.mb_frames.specs.Rest.Expressions.{after_rest};
ghost use Rattle.mb_frames.specs.Standing.{forms_at};
ghost use Rattle.mb_model.specs.Meaning.{finished};
ghost use Rattle.mb_frames.specs.declared.task.Context.{Context as TheContext};
ghost use Rattle.mb_model.specs.Nodes.References.{ToPlace, get_value};
ghost use Rattle.mb_model.specs.Nodes.UnaryOperators.{delete_reference};
ghost use Rattle.mb_model.specs.Operations.Calls.{getv};
ghost use Rattle.mb_model.specs.Writing.{◌>>=◌ as after_that};
ghost use Rattle.mb_world.specs.Ids.{KeyIn, ValueIn};
ghost use Rattle.mb_world.specs.Image.{Resolve, key_in, names_of};
ghost use Rattle.mb_frames.specs.Passing.{Part};
ghost use Rattle.mb_parts.specs.Standing.{Acts, ContextIn};
ghost use Rattle.mb_frames.specs.Real.{HasRealNames, IsReal};
ghost use Rattle.mb_eval_expr.specs.machine.Uses.{UseIn, used, use_frame};
ghost use Rattle.mb_frames.specs.Ready.{Keeps};
ghost use Rattle.mb_frames.specs.Sorts.{AValue};
ghost use Rattle.mb_eval_expr.specs.machine.Keeping.{context_held};

use crate::assignments::{compound_old, update_old};
use crate::calls::callee_got;
use crate::giving::{asks, value};
use crate::names::value_of;
use crate::properties::text_property;
use crate::uses::{Use, frame_of};
use mb_base::{Key, Side, Value};
use mb_frames::{After, Context, ExprFrame, Frame, Halt, Method, Move, Reference, Task};
use mb_parts::{throws, type_error};
use mb_world::{ErrorKind, World};
use std::alloc::Global;

// What is done with the value of a reference.
pub(crate) fn used(
    w: &mut World,
    alloc: Global,
    home: Side,
    next: Use,
    x: Value,
) -> Result<Move, Halt>
    requires acts { Acts w.old home }
    requires next { UseIn w.old next }
    requires value { ValueIn w.old x }
    requires real { IsReal w.old x }
    ensures row { (f : ℕ) → Part home result w.old w.new f f
        (used w.old home next (Resolve (names_of w.old) x) finished) }
    ensures keeps { Keeps home AValue (HeldValue x ∷ expr_held (use_frame next)) result w.old w.new }
{
    match next {
        Use::Give => Ok(value(x)),
        Use::Compound {
            at,
            sign,
            value,
            to,
        } => Ok(compound_old(at, sign, value, to, x)),
        Use::Update {
            at,
            plus,
            prefix,
            to,
        } => update_old(w, home, at, plus, prefix, to, x),
        Use::Call { at, node, this } => callee_got(w, alloc, home, at, node, this, x),
    }
}

// The property of a value is read (ECMA-262, 7.3.3).
pub(crate) fn get_place(
    w: &mut World,
    alloc: Global,
    home: Side,
    base: Value,
    key: Key,
    next: Use,
) -> Result<Move, Halt>
    requires acts { Acts w.old home }
    requires base { ValueIn w.old base }
    requires key { KeyIn w.old key }
    requires next { UseIn w.old next }
    ensures row { (f : ℕ) → Part home result w.old w.new f f (after_that (getv home.0
        (Resolve (names_of w.old) base) (key_in (names_of w.old) key)) (used w.old home next) finished) }
    ensures keeps { Keeps home AValue (HeldValue base ∷ HeldKey key ∷ expr_held (use_frame next)) result w.old w.new }
{
    match base {
        Value::Object(object) => Ok(Move::Wait(
            Frame::Expr(frame_of(next)),
            asks(
                home,
                Method::Get {
                    key,
                    receiver: base,
                },
                object,
            ),
        )),
        Value::Text(text) => {
            let x = text_property(w, text, key)?;
            used(w, alloc, home, next, x)
        }
        Value::Undefined => type_error(w, home),
        Value::Null => type_error(w, home),
        Value::Bool(_) => used(w, alloc, home, next, Value::Undefined),
        Value::Whole(_) => used(w, alloc, home, next, Value::Undefined),
        Value::Symbol(_) => used(w, alloc, home, next, Value::Undefined),
    }
}

// A reference is read.
fn get_value(
    w: &mut World,
    alloc: Global,
    home: Side,
    at: Context,
    from: Reference,
    next: Use,
) -> Result<Move, Halt>
    requires acts { Acts w.old home }
    requires at { ContextIn w.old at }
    requires real { HasRealNames w.old }
    requires from { AreIn w.old (reference_held from) }
    requires next { UseIn w.old next }
    ensures row { (f : ℕ) → Part home result w.old w.new f f (after_that (get_value
        (context_in (names_of w.old) home.0 at) (reference_in (names_of w.old) from)) (used w.old home next) finished) }
    ensures keeps { Keeps home AValue (context_held at ++ reference_held from ++ expr_held (use_frame next))
        result w.old w.new }
{
    match from {
        Reference::Name(name) => match value_of(w, at.scope, name) {
            Some(x) => used(w, alloc, home, next, x),
            None => throws(w, home, ErrorKind::ReferenceError),
        },
        Reference::Place { base, key } => get_place(w, alloc, home, base, key, next),
    }
}

// An operand of `delete` is a place (ECMA-262, 13.5.1).
fn delete_place(w: &mut World, home: Side, base: Value, key: Key) -> Result<Move, Halt>
    requires acts { Acts w.old home }
    requires base { ValueIn w.old base }
    requires key { KeyIn w.old key }
    ensures row { (f : ℕ) (at : TheContext) → Part home result w.old w.new f f
        (delete_reference (context_in (names_of w.old) home.0 at)
        (ToPlace (Resolve (names_of w.old) base) (key_in (names_of w.old) key)) finished) }
    ensures keeps { Keeps home AValue (HeldValue base ∷ HeldKey key ∷ []) result w.old w.new }
{
    match base {
        Value::Object(object) => Ok(Move::Wait(
            Frame::Expr(ExprFrame::Deleted),
            asks(home, Method::Delete(key), object),
        )),
        _ => type_error(w, home),
    }
}

// What follows where a reference is there.
pub(crate) fn follow(
    w: &mut World,
    alloc: Global,
    home: Side,
    at: Context,
    after: After,
    to: Reference,
) -> Result<Move, Halt>
    requires acts { Acts w.old home }
    requires at { ContextIn w.old at }
    requires real { HasRealNames w.old }
    requires after { AreIn w.old (after_held after) }
    requires to { AreIn w.old (reference_held to) }
    ensures row { (f : ℕ) → Part home result w.old w.new f f (after_rest (forms_at w.old home)
        (context_in (names_of w.old) home.0 at) after (reference_in (names_of w.old) to) finished) }
    ensures keeps { Keeps home AValue (context_held at ++ reference_held to ++ after_held after) result w.old w.new }
{
    match after {
        After::Get => get_value(w, alloc, home, at, to, Use::Give),
        After::Assign { value } => Ok(Move::Wait(
            Frame::Expr(ExprFrame::AssignValue { at, to }),
            Task::Evaluate { node: value, at },
        )),
        After::Compound { sign, value } => {
            let next = Use::Compound {
                at,
                sign,
                value,
                to,
            };
            get_value(w, alloc, home, at, to, next)
        }
        After::Update { plus, prefix } => {
            let next = Use::Update {
                at,
                plus,
                prefix,
                to,
            };
            get_value(w, alloc, home, at, to, next)
        }
        After::Call { node } => match to {
            Reference::Name(_) => type_error(w, home),
            Reference::Place { base, key } => {
                let next = Use::Call {
                    at,
                    node,
                    this: base,
                };
                get_place(w, alloc, home, base, key, next)
            }
        },
        After::Delete => match to {
            Reference::Name(_) => type_error(w, home),
            Reference::Place { base, key } => delete_place(w, home, base, key),
        },
    }
}

// Calls, `new` and their arguments (ECMA-262, 13.3.5, 13.3.6, 13.3.8).
ghost use Rattle.std.specs.Prelude.{◌+◌, ◌∷◌, ◌++◌, ℕ, [], All, drop, length};
ghost use Rattle.mb_frames.specs.Resolved.{context_in, values_in};
ghost use Rattle.mb_frames.specs.Rest.Parts.{parts_at};
ghost use Rattle.mb_frames.specs.Standing.{forms_at};
ghost use Rattle.mb_model.specs.Meaning.{finished};
ghost use Rattle.mb_model.specs.Nodes.Invocations.{arguments, call_all, callee_got, constructor_got, new_all};
ghost use Rattle.mb_model.specs.Writing.{◌>>=◌ as after_that};
ghost use Rattle.mb_world.specs.Ids.{ValueIn};
ghost use Rattle.mb_world.specs.Image.{Resolve, names_of};
ghost use Rattle.mb_frames.specs.Passing.{Part};
ghost use Rattle.mb_parts.specs.Standing.{Acts, ContextIn};
ghost use Rattle.mb_frames.specs.Real.{IsReal};
ghost use Rattle.mb_frames.specs.Ready.{Keeps};
ghost use Rattle.mb_frames.specs.Sorts.{AValue};
ghost use Rattle.mb_frames.specs.Held.{HeldValue, HeldValues};
ghost use Rattle.mb_frames.specs.Holding.{expr_held};
ghost use Rattle.mb_frames.specs.declared.expressions.ExprFrame.TheVariants as TheFrame;

use crate::giving::performs;
use mb_base::{NodeId, Side, Value};
use mb_frames::{Context, ExprFrame, Frame, Halt, Method, Move, Task, Values, part_at};
use mb_parts::{callable, constructor, type_error};
use mb_world::World;
use std::alloc::Global;

// A value is called with its arguments.
fn call_all(
    w: &mut World,
    home: Side,
    callee: Value,
    this: Value,
    arguments: Values,
) -> Result<Move, Halt>
    requires acts { Acts w.old home }
    requires callee { ValueIn w.old callee }
    requires real { IsReal w.old callee }
    requires this { ValueIn w.old this }
    requires arguments { All (ValueIn w.old) arguments }
    ensures row { (f : ℕ) → Part home result w.old w.new f f (call_all home.0 (Resolve (names_of w.old) callee)
        (Resolve (names_of w.old) this) (values_in (names_of w.old) arguments) finished) }
    ensures keeps { Keeps home AValue (HeldValue callee ∷ HeldValue this ∷ HeldValues arguments ∷ [])
        result w.old w.new }
{
    match callable(w, callee) {
        Some(object) => Ok(performs(home, Method::Call { this, arguments }, object)),
        None => type_error(w, home),
    }
}

// A value constructs with its arguments.
fn new_all(w: &mut World, home: Side, callee: Value, arguments: Values) -> Result<Move, Halt>
    requires acts { Acts w.old home }
    requires callee { ValueIn w.old callee }
    requires real { IsReal w.old callee }
    requires arguments { All (ValueIn w.old) arguments }
    ensures row { (f : ℕ) → Part home result w.old w.new f f (new_all home.0 (Resolve (names_of w.old) callee)
        (values_in (names_of w.old) arguments) finished) }
    ensures keeps { Keeps home AValue (HeldValue callee ∷ HeldValues arguments ∷ []) result w.old w.new }
{
    match constructor(w, callee) {
        Some(object) => {
            let target = Value::Object(object);
            Ok(performs(home, Method::Construct { arguments, target }, object))
        }
        None => type_error(w, home),
    }
}

// The arguments of a call from the next on, and then the call.
pub(crate) fn call_from(
    w: &mut World,
    home: Side,
    at: Context,
    node: NodeId,
    callee: Value,
    this: Value,
    done: Values,
) -> Result<Move, Halt>
    requires acts { Acts w.old home }
    requires at { ContextIn w.old at }
    requires callee { ValueIn w.old callee }
    requires real { IsReal w.old callee }
    requires this { ValueIn w.old this }
    requires done { All (ValueIn w.old) done }
    ensures row { (f : ℕ) → Part home result w.old w.new f f (after_that
        (arguments (context_in (names_of w.old) home.0 at) (drop (length done) (parts_at (forms_at w.old home) node.0))
        (values_in (names_of w.old) done))
        (call_all home.0 (Resolve (names_of w.old) callee) (Resolve (names_of w.old) this)) finished) }
    ensures keeps { Keeps home AValue (expr_held (TheFrame.Argument at node callee this done)) result w.old w.new }
{
    match part_at(w, home, node, done.len()) {
        Some(next) => Ok(Move::Wait(
            Frame::Expr(ExprFrame::Argument {
                at,
                node,
                callee,
                this,
                done,
            }),
            Task::Evaluate { node: next, at },
        )),
        None => call_all(w, home, callee, this, done),
    }
}

// The arguments of `new` from the next on, and then the construction.
pub(crate) fn new_from(
    w: &mut World,
    home: Side,
    at: Context,
    node: NodeId,
    callee: Value,
    done: Values,
) -> Result<Move, Halt>
    requires acts { Acts w.old home }
    requires at { ContextIn w.old at }
    requires callee { ValueIn w.old callee }
    requires real { IsReal w.old callee }
    requires done { All (ValueIn w.old) done }
    ensures row { (f : ℕ) → Part home result w.old w.new f f (after_that
        (arguments (context_in (names_of w.old) home.0 at) (drop (length done) (parts_at (forms_at w.old home) node.0))
        (values_in (names_of w.old) done)) (new_all home.0 (Resolve (names_of w.old) callee)) finished) }
    ensures keeps { Keeps home AValue (expr_held (TheFrame.NewArgument at node callee done)) result w.old w.new }
{
    match part_at(w, home, node, done.len()) {
        Some(next) => Ok(Move::Wait(
            Frame::Expr(ExprFrame::NewArgument {
                at,
                node,
                callee,
                done,
            }),
            Task::Evaluate { node: next, at },
        )),
        None => new_all(w, home, callee, done),
    }
}

// The function of a call is there.
pub(crate) fn callee_got(
    w: &mut World,
    alloc: Global,
    home: Side,
    at: Context,
    node: NodeId,
    this: Value,
    callee: Value,
) -> Result<Move, Halt>
    requires acts { Acts w.old home }
    requires at { ContextIn w.old at }
    requires callee { ValueIn w.old callee }
    requires real { IsReal w.old callee }
    requires this { ValueIn w.old this }
    ensures row { (f : ℕ) → Part home result w.old w.new f f (callee_got (context_in (names_of w.old) home.0 at)
        (parts_at (forms_at w.old home) node.0) (Resolve (names_of w.old) this) (Resolve (names_of w.old) callee)
        finished) }
    ensures keeps { Keeps home AValue (HeldValue callee ∷ expr_held (TheFrame.Callee at node this)) result w.old w.new }
{
    call_from(w, home, at, node, callee, this, Values::new(alloc))
}

// The constructor of `new` is there.
pub(crate) fn constructor_got(
    w: &mut World,
    alloc: Global,
    home: Side,
    at: Context,
    node: NodeId,
    callee: Value,
) -> Result<Move, Halt>
    requires acts { Acts w.old home }
    requires at { ContextIn w.old at }
    requires callee { ValueIn w.old callee }
    requires real { IsReal w.old callee }
    ensures row { (f : ℕ) → Part home result w.old w.new f f (constructor_got (context_in (names_of w.old) home.0 at)
        (parts_at (forms_at w.old home) node.0) (Resolve (names_of w.old) callee) finished) }
    ensures keeps { Keeps home AValue (HeldValue callee ∷ expr_held (TheFrame.Constructor at node)) result w.old w.new }
{
    new_from(w, home, at, node, callee, Values::new(alloc))
}

// An argument of a call is there.
pub(crate) fn call_next(
    w: &mut World,
    home: Side,
    at: Context,
    node: NodeId,
    callee: Value,
    this: Value,
    done: Values,
    x: Value,
) -> Result<Move, Halt>
    requires acts { Acts w.old home }
    requires at { ContextIn w.old at }
    requires callee { ValueIn w.old callee }
    requires real { IsReal w.old callee }
    requires this { ValueIn w.old this }
    requires done { All (ValueIn w.old) done }
    requires value { ValueIn w.old x }
    ensures row { (f : ℕ) → Part home result w.old w.new f f (after_that
        (arguments (context_in (names_of w.old) home.0 at)
        (drop (length done + 1) (parts_at (forms_at w.old home) node.0))
        (values_in (names_of w.old) done ++ Resolve (names_of w.old) x ∷ []))
        (call_all home.0 (Resolve (names_of w.old) callee) (Resolve (names_of w.old) this)) finished) }
    ensures keeps { Keeps home AValue (HeldValue x ∷ expr_held (TheFrame.Argument at node callee this done))
        result w.old w.new }
{
    let mut done = done;
    done.push(x)?;
    call_from(w, home, at, node, callee, this, done)
}

// An argument of `new` is there.
pub(crate) fn new_next(
    w: &mut World,
    home: Side,
    at: Context,
    node: NodeId,
    callee: Value,
    done: Values,
    x: Value,
) -> Result<Move, Halt>
    requires acts { Acts w.old home }
    requires at { ContextIn w.old at }
    requires callee { ValueIn w.old callee }
    requires real { IsReal w.old callee }
    requires done { All (ValueIn w.old) done }
    requires value { ValueIn w.old x }
    ensures row { (f : ℕ) → Part home result w.old w.new f f (after_that
        (arguments (context_in (names_of w.old) home.0 at)
        (drop (length done + 1) (parts_at (forms_at w.old home) node.0))
        (values_in (names_of w.old) done ++ Resolve (names_of w.old) x ∷ []))
        (new_all home.0 (Resolve (names_of w.old) callee)) finished) }
    ensures keeps { Keeps home AValue (HeldValue x ∷ expr_held (TheFrame.NewArgument at node callee done))
        result w.old w.new }
{
    let mut done = done;
    done.push(x)?;
    new_from(w, home, at, node, callee, done)
}

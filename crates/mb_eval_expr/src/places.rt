// Places of objects: a base, and its key once it is there (ECMA-262, 13.3.2).
ghost use Rattle.std.specs.Prelude.{ℕ, ◌∷◌};
ghost use Rattle.mb_base.specs.declared.value.Side.{Side as ASide};
ghost use Rattle.mb_frames.specs.Held.{AreIn, HeldValue};
ghost use Rattle.mb_frames.specs.Holding.{after_held, expr_held};
ghost use Rattle.mb_frames.specs.Resolved.{context_in};
ghost use Rattle.mb_frames.specs.Rest.Expressions.{after_rest};
ghost use Rattle.mb_frames.specs.Standing.{forms_at};
ghost use Rattle.mb_frames.specs.Stepping.{Sure};
ghost use Rattle.mb_model.specs.Meaning.{finished};
ghost use Rattle.mb_model.specs.Nodes.References.{ToPlace, index_base_got, index_key_got};
ghost use Rattle.mb_model.specs.Writing.{◌>>=◌ as after_that};
ghost use Rattle.mb_world.specs.Data.{Data};
ghost use Rattle.mb_world.specs.Ids.{TextIn, ValueIn};
ghost use Rattle.mb_world.specs.Image.{Resolve, names_of, text_in};
ghost use Rattle.mb_world.specs.Key.{Named};
ghost use Rattle.mb_frames.specs.Passing.{Part};
ghost use Rattle.mb_parts.specs.Standing.{Acts, ContextIn};
ghost use Rattle.mb_frames.specs.Real.{HasRealNames};
ghost use Rattle.mb_frames.specs.Ready.{Keeps};
ghost use Rattle.mb_frames.specs.Sorts.{AValue};
ghost use Rattle.mb_eval_expr.specs.machine.Keeping.{Leaving};
ghost use Rattle.mb_frames.specs.declared.expressions.ExprFrame.TheVariants as TheFrame;

use crate::using::follow;
use mb_base::{NodeId, Side, StrId, Value};
use mb_frames::{After, Context, ExprFrame, Frame, Halt, Move, Reference, Task};
use mb_parts::{key_from, type_error};
use mb_world::World;
use std::alloc::Global;

// The base of `base.name` is there.
pub(crate) fn member_base_got(
    w: &mut World,
    alloc: Global,
    home: Side,
    at: Context,
    name: StrId,
    after: After,
    base: Value,
) -> Result<Move, Halt>
    requires acts { Acts w.old home }
    requires at { ContextIn w.old at }
    requires real { HasRealNames w.old }
    requires name { TextIn w.old name }
    requires after { AreIn w.old (after_held after) }
    requires base { ValueIn w.old base }
    ensures row { (f : ℕ) → Part home result w.old w.new f f (after_rest (forms_at w.old home)
        (context_in (names_of w.old) home.0 at) after
        (ToPlace (Resolve (names_of w.old) base) (Named (text_in (names_of w.old) name))) finished) }
    ensures keeps { Keeps home AValue (HeldValue base ∷ expr_held (TheFrame.MemberBase at name after))
        result w.old w.new }
{
    let key = w.texts().key(name);
    follow(w, alloc, home, at, after, Reference::Place { base, key })
}

// The base of `base[key]` is there.
pub(crate) fn index_base_got(at: Context, key: NodeId, after: After, base: Value) -> Move
    ensures row { (home : ASide) (d : Data) → ContextIn d at → AreIn d (after_held after) → ValueIn d base →
        Sure home d (after_that
        (index_base_got (context_in (names_of d) home.0 at) key.0 (Resolve (names_of d) base))
        (after_rest (forms_at d home) (context_in (names_of d) home.0 at) after) finished) result }
    ensures leaves { (home : ASide) (d : Data) →
        Leaving home (HeldValue base ∷ expr_held (TheFrame.IndexBase at key after)) result d }
{
    Move::Wait(
        Frame::Expr(ExprFrame::IndexKey { at, base, after }),
        Task::Evaluate { node: key, at },
    )
}

// The key of `base[key]` is there.
pub(crate) fn index_key_got(
    w: &mut World,
    alloc: Global,
    home: Side,
    at: Context,
    base: Value,
    after: After,
    x: Value,
) -> Result<Move, Halt>
    requires acts { Acts w.old home }
    requires at { ContextIn w.old at }
    requires real { HasRealNames w.old }
    requires after { AreIn w.old (after_held after) }
    requires base { ValueIn w.old base }
    requires value { ValueIn w.old x }
    ensures row { (f : ℕ) → Part home result w.old w.new f f (after_that (index_key_got
        (context_in (names_of w.old) home.0 at) (Resolve (names_of w.old) base) (Resolve (names_of w.old) x))
        (after_rest (forms_at w.old home) (context_in (names_of w.old) home.0 at) after) finished) }
    ensures keeps { Keeps home AValue (HeldValue x ∷ expr_held (TheFrame.IndexKey at base after)) result w.old w.new }
{
    let found = key_from(w, x)?;
    match found {
        Some(key) => follow(w, alloc, home, at, after, Reference::Place { base, key }),
        None => type_error(w, home),
    }
}

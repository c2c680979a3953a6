// Expressions that take what their part gave.
ghost use Rattle.std.specs.Prelude.{◌≡◌, ◌++◌, ◌∷◌, true};
ghost use Rattle.mb_frames.specs.Held.{AreIn, HeldValue};
ghost use Rattle.mb_frames.specs.Holding.{answer_held, expr_held};
ghost use Rattle.mb_frames.specs.Resolved.{answer_in};
ghost use Rattle.mb_frames.specs.Rest.Expressions.{expr_rest};
ghost use Rattle.mb_frames.specs.Standing.{forms_at};
ghost use Rattle.mb_frames.specs.Stepping.{Step, Written};
ghost use Rattle.mb_model.specs.Meaning.{finished};
ghost use Rattle.mb_model.specs.Task.{Value as ValueAnswer};
ghost use Rattle.mb_model.specs.Writing.{flag_in, value_in};
ghost use Rattle.mb_world.specs.Data.{Data};
ghost use Rattle.mb_world.specs.Ids.{ValueIn};
ghost use Rattle.mb_world.specs.Image.{Resolve, names_of};
ghost use Rattle.mb_eval_expr.specs.machine.Resuming.{Takes, is_assigning, is_literal, takes_value, value_held};
ghost use Rattle.mb_parts.specs.Standing.{Acts};
ghost use Rattle.mb_frames.specs.Real.{HasRealNames};
ghost use Rattle.mb_frames.specs.Ready.{Keeps};
ghost use Rattle.mb_frames.specs.Sorts.{AValue};

use crate::assignments::{compound_got, compound_old, put_and_give, put_done, update_old};
use crate::calls::{call_next, callee_got, constructor_got, new_next};
use crate::choices::{and_got, cond_got, not_got, or_got, seq_got};
use crate::elements::element_got;
use crate::giving::{truth_value, value};
use crate::operators::{
    chain_got, delete_done, instance_prototype, left_got, negated, right_got, typeof_value,
};
use crate::places::{index_base_got, index_key_got, member_base_got};
use crate::props::{Literal, prop_key_got, prop_value_got};
use mb_base::{Fuel, Side, Value};
use mb_frames::{Answer, ExprFrame, Halt, Move};
use mb_world::World;
use std::alloc::Global;

// The value that an answer is; a frame that waits for one is given no other.
fn value_of(answer: &Answer) -> Value
    ensures held { result ≡ value_held answer.now }
    ensures value { (d : Data) → Resolve (names_of d) result ≡ value_in (answer_in (names_of d) answer.now) }
    ensures within { (d : Data) → AreIn d (answer_held answer.now) → ValueIn d result }
{
    match answer {
        Answer::Value(x) => *x,
        _ => Value::Undefined,
    }
}

// Whether the answer is yes.
fn flag_of(answer: &Answer) -> bool
    ensures { (d : Data) → result ≡ flag_in (answer_in (names_of d) answer.now) }
{
    match answer {
        Answer::Flag(b) => *b,
        _ => false,
    }
}

// An expression that waits takes the answer of its part.
pub(crate) fn resume(
    w: &mut World,
    fuel: &mut Fuel,
    alloc: Global,
    home: Side,
    frame: ExprFrame,
    answer: Answer,
) -> Result<Move, Halt>
    requires acts { Acts w.old home }
    requires real { HasRealNames w.old }
    requires frame { AreIn w.old (expr_held frame) }
    requires answer { AreIn w.old (answer_held answer) }
    requires takes { Takes w.old home frame (value_held answer) }
    ensures row { (l : Written) → Step home true result w.old w.new fuel.old fuel.new l l
        (expr_rest (names_of w.old) (forms_at w.old home) home.0 frame (answer_in (names_of w.old) answer) finished) }
    ensures keeps { Keeps home AValue (expr_held frame ++ answer_held answer) result w.old w.new }
{
    let yes = flag_of(&answer);
    let x = value_of(&answer);
    match frame {
        ExprFrame::Put { gives } => put_done(w, home, gives, yes),
        ExprFrame::Deleted => delete_done(w, home, yes),
        ExprFrame::Has => Ok(truth_value(yes)),
        frame => resume_value(w, fuel, alloc, home, frame, x),
    }
}

// An expression that waits for a value takes it.
fn resume_value(
    w: &mut World,
    fuel: &mut Fuel,
    alloc: Global,
    home: Side,
    frame: ExprFrame,
    x: Value,
) -> Result<Move, Halt>
    requires acts { Acts w.old home }
    requires real { HasRealNames w.old }
    requires frame { AreIn w.old (expr_held frame) }
    requires ours { takes_value frame ≡ true }
    requires value { ValueIn w.old x }
    requires takes { Takes w.old home frame x }
    ensures row { (l : Written) → Step home true result w.old w.new fuel.old fuel.new l l
        (expr_rest (names_of w.old) (forms_at w.old home) home.0 frame
        (ValueAnswer (Resolve (names_of w.old) x)) finished) }
    ensures keeps { Keeps home AValue (HeldValue x ∷ expr_held frame) result w.old w.new }
{
    match frame {
        ExprFrame::Got => Ok(value(x)),
        ExprFrame::MemberBase { at, name, after } => {
            member_base_got(w, alloc, home, at, name, after, x)
        }
        ExprFrame::IndexBase { at, key, after } => Ok(index_base_got(at, key, after, x)),
        ExprFrame::IndexKey { at, base, after } => {
            index_key_got(w, alloc, home, at, base, after, x)
        }
        ExprFrame::Or { at, right } => Ok(or_got(w, home, at, right, x)),
        ExprFrame::And { at, right } => Ok(and_got(w, home, at, right, x)),
        ExprFrame::Cond { at, main, other } => Ok(cond_got(w, home, at, main, other, x)),
        ExprFrame::Seq { at, node, next } => seq_got(w, home, at, node, next, x),
        ExprFrame::Not => Ok(not_got(w, home, x)),
        ExprFrame::Negate => negated(w, home, x),
        ExprFrame::Typeof => typeof_value(w, home, x),
        ExprFrame::Left { at, sign, right } => Ok(left_got(at, sign, right, x)),
        ExprFrame::Right { sign, left } => right_got(w, fuel, home, sign, left, x),
        ExprFrame::InstancePrototype { object } => instance_prototype(w, home, object, x),
        ExprFrame::Chain { prototype } => Ok(chain_got(prototype, x)),
        frame => resume_assigned(w, fuel, alloc, home, frame, x),
    }
}

// An assignment, a call or a literal that waits for a value takes it.
fn resume_assigned(
    w: &mut World,
    fuel: &mut Fuel,
    alloc: Global,
    home: Side,
    frame: ExprFrame,
    x: Value,
) -> Result<Move, Halt>
    requires acts { Acts w.old home }
    requires frame { AreIn w.old (expr_held frame) }
    requires ours { is_assigning frame ≡ true }
    requires value { ValueIn w.old x }
    requires takes { Takes w.old home frame x }
    ensures row { (l : Written) → Step home true result w.old w.new fuel.old fuel.new l l
        (expr_rest (names_of w.old) (forms_at w.old home) home.0 frame
        (ValueAnswer (Resolve (names_of w.old) x)) finished) }
    ensures keeps { Keeps home AValue (HeldValue x ∷ expr_held frame) result w.old w.new }
{
    match frame {
        ExprFrame::AssignValue { at, to } => put_and_give(w, home, at, to, x, x),
        ExprFrame::CompoundOld {
            at,
            sign,
            value,
            to,
        } => Ok(compound_old(at, sign, value, to, x)),
        ExprFrame::CompoundValue { at, sign, old, to } => {
            compound_got(w, fuel, home, at, sign, to, old, x)
        }
        ExprFrame::UpdateOld {
            at,
            plus,
            prefix,
            to,
        } => update_old(w, home, at, plus, prefix, to, x),
        ExprFrame::Callee { at, node, this } => callee_got(w, alloc, home, at, node, this, x),
        ExprFrame::Argument {
            at,
            node,
            callee,
            this,
            done,
        } => call_next(w, home, at, node, callee, this, done, x),
        ExprFrame::Constructor { at, node } => constructor_got(w, alloc, home, at, node, x),
        ExprFrame::NewArgument {
            at,
            node,
            callee,
            done,
        } => new_next(w, home, at, node, callee, done, x),
        frame => resume_literal(w, fuel, home, frame, x),
    }
}

// A literal that waits for a value takes it.
fn resume_literal(
    w: &mut World,
    fuel: &mut Fuel,
    home: Side,
    frame: ExprFrame,
    x: Value,
) -> Result<Move, Halt>
    requires acts { Acts w.old home }
    requires frame { AreIn w.old (expr_held frame) }
    requires ours { is_literal frame ≡ true }
    requires value { ValueIn w.old x }
    requires takes { Takes w.old home frame x }
    ensures row { (l : Written) → Step home true result w.old w.new fuel.old fuel.new l l
        (expr_rest (names_of w.old) (forms_at w.old home) home.0 frame
        (ValueAnswer (Resolve (names_of w.old) x)) finished) }
    ensures keeps { Keeps home AValue (HeldValue x ∷ expr_held frame) result w.old w.new }
{
    match frame {
        ExprFrame::Element {
            at,
            node,
            array,
            place,
        } => element_got(w, home, at, node, array, place, x),
        ExprFrame::PropKey {
            at,
            node,
            object,
            property,
            place,
        } => {
            let literal = Literal {
                at,
                node,
                object,
                place,
            };
            prop_key_got(w, fuel, home, literal, property, x)
        }
        ExprFrame::PropValue {
            at,
            node,
            object,
            place,
            key,
        } => {
            let literal = Literal {
                at,
                node,
                object,
                place,
            };
            prop_value_got(w, fuel, home, literal, key, x)
        }
        _ => unreachable!(),
    }
}

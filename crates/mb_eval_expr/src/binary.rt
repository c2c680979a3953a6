// Operators on two values that ask no object (ECMA-262, 13.7 to 13.11, 13.15.3).
ghost use Rattle.std.specs.Prelude.{◌≡◌, ℕ, Ok, OnOk, false, true, IfOk, OnErr};
ghost use Rattle.mb_world.proofs.Values.{Apart};
ghost use Rattle.mb_frames.specs.Grammatical.{asks_objects};
ghost use Rattle.mb_model.specs.Nodes.BinaryOperators.{divided, joined, operate, remainder, sum};
ghost use Rattle.mb_model.specs.Operations.Conversions.{join_texts};
ghost use Rattle.mb_model.specs.Writing.{◌>>=◌ as after_that, is_value};
ghost use Rattle.mb_world.specs.Data.{Data};
ghost use Rattle.mb_world.specs.Ids.{HasItsIds, TextIn, ValueIn};
ghost use Rattle.mb_world.specs.Image.{Resolve, names_of, text_in};
ghost use Rattle.mb_world.specs.Value.{Whole, same_value};
ghost use Rattle.mb_frames.specs.Passing.{TextsGrew};
ghost use Rattle.mb_eval_expr.specs.machine.Computing.{Computes, holds, is_arithmetic, is_ordering, ordered_by};
ghost use Rattle.mb_eval_expr.specs.machine.Keeping.{GivesPlain};

use crate::computing::{Computed, OUT_OF_RANGE, WRONG_TYPE, whole};
use mb_base::{Fuel, StrId, Value};
use mb_frames::Halt;
use mb_parts::text_from;
use mb_text::TextFault;
use mb_tree::Sign;
use mb_world::World;
use std::cmp::Ordering;

// The most units of a text.
const LONGEST: usize = 1_048_576;

// `/`, which gives whole numbers alone.
fn divided(a: i64, b: i64) -> Computed
    ensures row { (home : ℕ) (d : Data) (f : ℕ) → Computes (Ok result) home d d f f (divided home a b) }
    ensures plain { GivesPlain result }
{
    if b == 0 {
        OUT_OF_RANGE
    } else if a.wrapping_rem(b) == 0 {
        whole(a.checked_div(b))
    } else {
        OUT_OF_RANGE
    }
}

// `%`, with the sign of the left side.
fn remainder(a: i64, b: i64) -> Computed
    ensures row { (home : ℕ) (d : Data) (f : ℕ) → Computes (Ok result) home d d f f (remainder home a b) }
    ensures plain { GivesPlain result }
{
    if b == 0 {
        OUT_OF_RANGE
    } else {
        whole(Some(a.wrapping_rem(b)))
    }
}

// An operator on two whole numbers.
fn wholes(sign: Sign, a: i64, b: i64) -> Computed
    requires { is_arithmetic sign ≡ true }
    ensures row { (home : ℕ) (d : Data) (f : ℕ) →
        Computes (Ok result) home d d f f (operate home sign (Whole a) (Whole b)) }
    ensures plain { GivesPlain result }
{
    match sign {
        Sign::Minus => whole(a.checked_sub(b)),
        Sign::Times => whole(a.checked_mul(b)),
        Sign::Slash => divided(a, b),
        Sign::Percent => remainder(a, b),
        _ => WRONG_TYPE,
    }
}

// An operator on two values that are to be whole numbers.
fn arithmetic(sign: Sign, a: Value, b: Value) -> Computed
    requires { is_arithmetic sign ≡ true }
    ensures row { (home : ℕ) (d : Data) (f : ℕ) → Computes (Ok result) home d d f f
        (operate home sign (Resolve (names_of d) a) (Resolve (names_of d) b)) }
    ensures plain { GivesPlain result }
{
    match a {
        Value::Whole(x) => match b {
            Value::Whole(y) => wholes(sign, x, y),
            _ => WRONG_TYPE,
        },
        _ => WRONG_TYPE,
    }
}

// The order of two whole numbers, or of two texts by their units; `None` where they aren't two of one sort.
fn ordering(w: &World, a: Value, b: Value) -> Option<Ordering>
    requires left { ValueIn w.now a }
    requires right { ValueIn w.now b }
    ensures { result ≡ ordered_by (Resolve (names_of w.now) a) (Resolve (names_of w.now) b) }
{
    match a {
        Value::Whole(x) => match b {
            Value::Whole(y) => Some(x.cmp(&y)),
            _ => None,
        },
        Value::Text(x) => match b {
            Value::Text(y) => Some(w.texts().units(x).cmp(&w.texts().units(y))),
            _ => None,
        },
        _ => None,
    }
}

// Whether a comparison holds in that order.
fn holds(sign: Sign, order: Ordering) -> bool
    ensures { result ≡ holds sign order }
{
    match sign {
        Sign::Less => order.is_lt(),
        Sign::Greater => order.is_gt(),
        Sign::LessEqual => order.is_le(),
        _ => order.is_ge(),
    }
}

// A comparison.
fn compared(w: &World, sign: Sign, a: Value, b: Value) -> Computed
    requires left { ValueIn w.now a }
    requires right { ValueIn w.now b }
    requires sign { is_ordering sign ≡ true }
    ensures row { (home : ℕ) (f : ℕ) → Computes (Ok result) home w.now w.now f f
        (operate home sign (Resolve (names_of w.now) a) (Resolve (names_of w.now) b)) }
    ensures plain { GivesPlain result }
{
    match ordering(w, a, b) {
        Some(order) => Computed::Value(Value::Bool(holds(sign, order))),
        None => WRONG_TYPE,
    }
}

// IsStrictlyEqual (ECMA-262, 7.2.15).
fn equal(w: &World, a: Value, b: Value) -> bool
    requires left { ValueIn w.now a }
    requires right { ValueIn w.now b }
    requires apart { Apart (names_of w.now) a b }
    ensures { result ≡ same_value (Resolve (names_of w.now) a) (Resolve (names_of w.now) b) }
{
    let _texts = w.texts();
    a == b
}

// A text of two, with its charge.
fn join(w: &mut World, fuel: &mut Fuel, a: StrId, b: StrId) -> Result<Computed, Halt>
    requires left { TextIn w.old a }
    requires right { TextIn w.old b }
    requires ids { HasItsIds w.old }
    ensures row { (home : ℕ) → Computes result home w.old w.new fuel.old fuel.new
        (after_that (join_texts home (text_in (names_of w.old) a) (text_in (names_of w.old) b)) is_value) }
    ensures grew { OnOk result (TextsGrew w.old w.new) }
    ensures plain { IfOk result GivesPlain }
    ensures halted { OnErr result (TextsGrew w.old w.new) }
{
    let length = w.texts().units(a).len() + w.texts().units(b).len();
    if length > LONGEST {
        return Ok(OUT_OF_RANGE);
    }
    fuel.charge((length / 64) as u32)?;
    match w.join(a, b) {
        Ok(text) => {
            let _texts = w.texts();
            Ok(Computed::Value(Value::Text(text)))
        }
        Err(TextFault::NoMemory) => Err(Halt::NoMemory),
        Err(TextFault::Long) => unreachable!(),
    }
}

// Two values as one text.
fn joined(w: &mut World, fuel: &mut Fuel, a: Value, b: Value) -> Result<Computed, Halt>
    requires left { ValueIn w.old a }
    requires right { ValueIn w.old b }
    requires ids { HasItsIds w.old }
    ensures row { (home : ℕ) → Computes result home w.old w.new fuel.old fuel.new
        (joined home (Resolve (names_of w.old) a) (Resolve (names_of w.old) b)) }
    ensures grew { OnOk result (TextsGrew w.old w.new) }
    ensures plain { IfOk result GivesPlain }
    ensures halted { OnErr result (TextsGrew w.old w.new) }
{
    let first = text_from(w, a)?;
    match first {
        Some(x) => {
            let second = text_from(w, b)?;
            match second {
                Some(y) => join(w, fuel, x, y),
                None => Ok(WRONG_TYPE),
            }
        }
        None => Ok(WRONG_TYPE),
    }
}

// `+` (ECMA-262, 13.15.3).
fn sum(w: &mut World, fuel: &mut Fuel, a: Value, b: Value) -> Result<Computed, Halt>
    requires left { ValueIn w.old a }
    requires right { ValueIn w.old b }
    requires ids { HasItsIds w.old }
    ensures row { (home : ℕ) → Computes result home w.old w.new fuel.old fuel.new
        (sum home (Resolve (names_of w.old) a) (Resolve (names_of w.old) b)) }
    ensures grew { OnOk result (TextsGrew w.old w.new) }
    ensures plain { IfOk result GivesPlain }
    ensures halted { OnErr result (TextsGrew w.old w.new) }
{
    match a {
        Value::Whole(x) => match b {
            Value::Whole(y) => Ok(whole(x.checked_add(y))),
            Value::Text(_) => joined(w, fuel, a, b),
            _ => Ok(WRONG_TYPE),
        },
        Value::Text(_) => joined(w, fuel, a, b),
        _ => match b {
            Value::Text(_) => joined(w, fuel, a, b),
            _ => Ok(WRONG_TYPE),
        },
    }
}

// An operator on two values that asks no object.
pub(crate) fn compute(
    w: &mut World,
    fuel: &mut Fuel,
    sign: Sign,
    a: Value,
    b: Value,
) -> Result<Computed, Halt>
    requires left { ValueIn w.old a }
    requires right { ValueIn w.old b }
    requires ids { HasItsIds w.old }
    requires apart { Apart (names_of w.old) a b }
    requires sign { asks_objects sign ≡ false }
    ensures row { (home : ℕ) → Computes result home w.old w.new fuel.old fuel.new
        (operate home sign (Resolve (names_of w.old) a) (Resolve (names_of w.old) b)) }
    ensures grew { OnOk result (TextsGrew w.old w.new) }
    ensures plain { IfOk result GivesPlain }
    ensures halted { OnErr result (TextsGrew w.old w.new) }
{
    let _texts = w.texts();
    match sign {
        Sign::Plus => sum(w, fuel, a, b),
        Sign::TripleEqual => Ok(Computed::Value(Value::Bool(equal(w, a, b)))),
        Sign::NotDoubleEqual => Ok(Computed::Value(Value::Bool(!equal(w, a, b)))),
        Sign::Less | Sign::Greater | Sign::LessEqual | Sign::GreaterEqual => {
            Ok(compared(w, sign, a, b))
        }
        Sign::Minus | Sign::Times | Sign::Slash | Sign::Percent => Ok(arithmetic(sign, a, b)),
        _ => Ok(WRONG_TYPE),
    }
}

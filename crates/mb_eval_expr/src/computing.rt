// Whole numbers in their range, and what is no value (ECMA-262, 6.1.6, 13.4, 13.5.5).
ghost use Rattle.std.specs.Prelude.{◌≡◌, ℕ, ℤ, FitsSigned, Ok, SomeIff};
ghost use Rattle.std.specs.Int.{w64};
ghost use Rattle.mb_model.specs.Nodes.Assignments.{stepped};
ghost use Rattle.mb_model.specs.Nodes.UnaryOperators.{negated};
ghost use Rattle.mb_model.specs.Operations.Conversions.{in_range, whole};
ghost use Rattle.mb_model.specs.Writing.{◌>>=◌ as after_that, is_value, or_type_error};
ghost use Rattle.mb_world.specs.Data.{Data};
ghost use Rattle.mb_world.specs.Formed.{InRange};
ghost use Rattle.mb_world.specs.Ids.{ValueIn};
ghost use Rattle.mb_world.specs.Image.{Resolve, names_of};
ghost use Rattle.mb_world.specs.Value.{whole_of};
ghost use Rattle.mb_eval_expr.specs.machine.Computing.{Computes};
ghost use Rattle.mb_eval_expr.specs.machine.Keeping.{GivesPlain};

use mb_base::Value;
use mb_world::ErrorKind;

// What an operator gives: a value, or an error of the side that computes.
#[derive(Clone, Copy, Debug, PartialEq, Eq)]
pub(crate) enum Computed {
    Value(Value),
    Faulty(ErrorKind),
}

pub(crate) const WRONG_TYPE: Computed = Computed::Faulty(ErrorKind::TypeError);

pub(crate) const OUT_OF_RANGE: Computed = Computed::Faulty(ErrorKind::RangeError);

// The greatest whole number of the language.
const MOST: u64 = 9_007_199_254_740_991;

fn is_in_range(z: i64) -> bool
    ensures { result ≡ in_range z }
{
    z.unsigned_abs() <= MOST
}

// A result within the whole numbers; `None` is one that is far out of their range.
pub(crate) fn whole(exact: Option<i64>) -> Computed
    ensures row { (home : ℕ) (d : Data) (f : ℕ) (z : ℤ) → SomeIff exact (FitsSigned w64 z) z →
        Computes (Ok result) home d d f f (after_that (whole home z) is_value) }
    ensures plain { GivesPlain result }
{
    match exact {
        Some(z) => {
            if is_in_range(z) {
                Computed::Value(Value::Whole(z))
            } else {
                OUT_OF_RANGE
            }
        }
        None => OUT_OF_RANGE,
    }
}

// A whole number with 1 more or less (ECMA-262, 13.4).
pub(crate) fn stepped(plus: bool, x: Value) -> Computed
    ensures row { (home : ℕ) (d : Data) (f : ℕ) → ValueIn d x → Computes (Ok result) home d d f f
        (after_that (or_type_error home (whole_of (Resolve (names_of d) x)))
        (λ z. after_that (whole home (stepped plus z)) is_value)) }
    ensures plain { GivesPlain result }
{
    match x {
        Value::Whole(z) => {
            if plus {
                whole(z.checked_add(1))
            } else {
                whole(z.checked_sub(1))
            }
        }
        _ => WRONG_TYPE,
    }
}

// A whole number with the other sign (ECMA-262, 13.5.5).
pub(crate) fn negated(x: Value) -> Computed
    requires { InRange x }
    ensures row { (home : ℕ) (d : Data) (f : ℕ) → ValueIn d x →
        Computes (Ok result) home d d f f (negated home (Resolve (names_of d) x)) }
    ensures plain { GivesPlain result }
{
    match x {
        Value::Whole(z) => Computed::Value(Value::Whole(-z)),
        _ => WRONG_TYPE,
    }
}

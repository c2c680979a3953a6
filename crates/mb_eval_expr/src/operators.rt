// Operators whose operands are there (ECMA-262, 13.5, 13.6 to 13.12).
ghost use Rattle.std.specs.Prelude.{◌≡◌, ◌≤◌, ◌^◌, ℕ, List, Ok, length, true, [], ◌∷◌};
ghost use Rattle.mb_model.specs.Meaning.{finished};
ghost use Rattle.mb_model.specs.Nodes.BinaryOperators.{chain_got, chain_row, instance_object, instance_prototype};
ghost use Rattle.mb_model.specs.Nodes.BinaryOperators.{instance_row, left_got, operate, right_got};
ghost use Rattle.mb_model.specs.Nodes.UnaryOperators.{delete_done, negated, type_word, typeof_value};
ghost use Rattle.mb_world.proofs.Values.{Apart};
ghost use Rattle.mb_base.specs.declared.value.Value.TheVariants as TheValue;
ghost use Rattle.mb_base.specs.declared.value.Side.{Side as ASide};
ghost use Rattle.mb_frames.specs.Resolved.{context_in};
ghost use Rattle.mb_frames.specs.Stepping.{Step, Sure, Written};
ghost use Rattle.mb_tree.specs.declared.kind.Sign.TheVariants as TheSign;
ghost use Rattle.mb_world.specs.Data.{Data};
ghost use Rattle.mb_world.specs.Graph.{Item};
ghost use Rattle.mb_world.specs.Formed.{InRange, IsNullOrObject};
ghost use Rattle.mb_world.specs.Ids.{ObjIn, ValueIn};
ghost use Rattle.mb_world.specs.Image.{Image, Resolve, names_of, object_in};
ghost use Rattle.mb_frames.specs.Passing.{Part};
ghost use Rattle.mb_parts.specs.Standing.{Acts, ContextIn};
ghost use Rattle.mb_frames.specs.Real.{IsReal};
ghost use Rattle.mb_frames.specs.Ready.{Keeps};
ghost use Rattle.mb_frames.specs.Sorts.{AValue};
ghost use Rattle.mb_frames.specs.Held.{HeldValue, HeldObject};
ghost use Rattle.mb_frames.specs.Holding.{expr_held};
ghost use Rattle.mb_eval_expr.specs.machine.Keeping.{Leaving};
ghost use Rattle.mb_frames.specs.declared.expressions.ExprFrame.TheVariants as TheFrame;

use crate::binary::compute;
use crate::computing;
use crate::computing::Computed;
use crate::giving::{asks, truth_value, value};
use mb_base::{Fuel, NodeId, ObjId, Side, Value};
use mb_frames::{Context, ExprFrame, Frame, Halt, Method, Move, Task};
use mb_parts::{callable, key_from, throws, type_error, word};
use mb_tree::Sign;
use mb_world::World;

// The units of the text `prototype`.
const PROTOTYPE: [u16; 9] = [112, 114, 111, 116, 111, 116, 121, 112, 101];

// The words of `typeof`.
pub(crate) const UNDEFINED: [u16; 9] = [117, 110, 100, 101, 102, 105, 110, 101, 100];

const OBJECT: [u16; 6] = [111, 98, 106, 101, 99, 116];

const BOOLEAN: [u16; 7] = [98, 111, 111, 108, 101, 97, 110];

const NUMBER: [u16; 6] = [110, 117, 109, 98, 101, 114];

const STRING: [u16; 6] = [115, 116, 114, 105, 110, 103];

const SYMBOL: [u16; 6] = [115, 121, 109, 98, 111, 108];

const FUNCTION: [u16; 8] = [102, 117, 110, 99, 116, 105, 111, 110];

// An operator has both its operands.
pub(crate) fn right_got(
    w: &mut World,
    fuel: &mut Fuel,
    home: Side,
    sign: Sign,
    a: Value,
    b: Value,
) -> Result<Move, Halt>
    requires acts { Acts w.old home }
    requires left { ValueIn w.old a }
    requires right { ValueIn w.old b }
    requires real { IsReal w.old b }
    requires apart { Apart (names_of w.old) a b }
    ensures row { Part home result w.old w.new fuel.old fuel.new
        (right_got home.0 sign (Resolve (names_of w.old) a) (Resolve (names_of w.old) b) finished) }
    ensures keeps { Keeps home AValue (HeldValue b ∷ expr_held (TheFrame.Right sign a)) result w.old w.new }
{
    match sign {
        Sign::In => has_got(w, home, a, b),
        Sign::Instanceof => instance_got(w, home, a, b),
        _ => {
            let computed = compute(w, fuel, sign, a, b)?;
            match computed {
                Computed::Value(x) => Ok(value(x)),
                Computed::Faulty(kind) => throws(w, home, kind),
            }
        }
    }
}

// `in` has both its operands.
fn has_got(w: &mut World, home: Side, a: Value, b: Value) -> Result<Move, Halt>
    requires acts { Acts w.old home }
    requires left { ValueIn w.old a }
    requires right { ValueIn w.old b }
    ensures row { (f : ℕ) → Part home result w.old w.new f f
        (operate home.0 TheSign.In (Resolve (names_of w.old) a) (Resolve (names_of w.old) b) finished) }
    ensures keeps { Keeps home AValue (HeldValue a ∷ HeldValue b ∷ []) result w.old w.new }
{
    match b {
        Value::Object(object) => {
            let found = key_from(w, a)?;
            match found {
                Some(key) => Ok(Move::Wait(
                    Frame::Expr(ExprFrame::Has),
                    asks(home, Method::HasProperty(key), object),
                )),
                None => type_error(w, home),
            }
        }
        _ => type_error(w, home),
    }
}

// `instanceof` has both its operands.
fn instance_got(w: &mut World, home: Side, a: Value, b: Value) -> Result<Move, Halt>
    requires acts { Acts w.old home }
    requires left { ValueIn w.old a }
    requires right { ValueIn w.old b }
    requires real { IsReal w.old b }
    ensures row { (f : ℕ) → Part home result w.old w.new f f
        (instance_row home.0 (Resolve (names_of w.old) a) (Resolve (names_of w.old) b) finished) }
    ensures keeps { Keeps home AValue (HeldValue a ∷ HeldValue b ∷ []) result w.old w.new }
{
    match callable(w, b) {
        Some(function) => match a {
            Value::Object(object) => instance_object(w, home, object, function),
            _ => Ok(truth_value(false)),
        },
        None => type_error(w, home),
    }
}

// `instanceof` has an object, and what can be called: its `prototype` is read.
fn instance_object(w: &mut World, home: Side, object: ObjId, function: ObjId) -> Result<Move, Halt>
    requires object { ObjIn w.old object }
    requires function { ObjIn w.old function }
    ensures row { (f : ℕ) → Part home result w.old w.new f f (instance_object home.0
        (object_in (names_of w.old) object) (object_in (names_of w.old) function) finished) }
    ensures keeps { Keeps home AValue (HeldObject object ∷ HeldObject function ∷ []) result w.old w.new }
{
    let text = word(w, &PROTOTYPE)?;
    let key = w.texts().key(text);
    let receiver = Value::Object(function);
    Ok(Move::Wait(
        Frame::Expr(ExprFrame::InstancePrototype { object }),
        asks(home, Method::Get { key, receiver }, function),
    ))
}

// `instanceof` has the `prototype` of its right side.
pub(crate) fn instance_prototype(
    w: &mut World,
    home: Side,
    object: ObjId,
    x: Value,
) -> Result<Move, Halt>
    requires acts { Acts w.old home }
    requires object { ObjIn w.old object }
    requires value { ValueIn w.old x }
    ensures row { (f : ℕ) → Part home result w.old w.new f f
        (instance_prototype home.0 (object_in (names_of w.old) object) (Resolve (names_of w.old) x) finished) }
    ensures keeps { Keeps home AValue (HeldValue x ∷ expr_held (TheFrame.InstancePrototype object)) result w.old w.new }
{
    match x {
        Value::Object(prototype) => Ok(chain(home, object, prototype)),
        _ => type_error(w, home),
    }
}

// The next object of `instanceof`.
pub(crate) fn chain(home: Side, object: ObjId, prototype: ObjId) -> Move
    ensures row { (d : Data) → ObjIn d object → ObjIn d prototype → Sure home d
        (chain_row home.0 (object_in (names_of d) object) (object_in (names_of d) prototype) finished) result }
    ensures leaves { (d : Data) → Leaving home (HeldObject object ∷ HeldObject prototype ∷ []) result d }
{
    Move::Wait(
        Frame::Expr(ExprFrame::Chain { prototype }),
        asks(home, Method::GetPrototypeOf, object),
    )
}

// `instanceof` has the next prototype.
pub(crate) fn chain_got(prototype: ObjId, x: Value) -> Move
    requires { IsNullOrObject x }
    ensures row { (home : ASide) (d : Data) (f : ℕ) (l : Written) → ObjIn d prototype → ValueIn d x →
        Apart (names_of d) x (TheValue.Object prototype) →
        Step home true (Ok result) d d f f l l
        (chain_got home.0 (object_in (names_of d) prototype) (Resolve (names_of d) x) finished) }
    ensures leaves { (home : ASide) (d : Data) → Leaving home (HeldValue x ∷ expr_held (TheFrame.Chain prototype))
        result d }
{
    match x {
        Value::Object(object) => {
            if object == prototype {
                truth_value(true)
            } else {
                Move::Anew(Task::Chain { object, prototype })
            }
        }
        _ => truth_value(false),
    }
}

// `-` has its operand.
pub(crate) fn negated(w: &mut World, home: Side, x: Value) -> Result<Move, Halt>
    requires acts { Acts w.old home }
    requires value { ValueIn w.old x }
    requires range { InRange x }
    ensures row { (f : ℕ) → Part home result w.old w.new f f (negated home.0 (Resolve (names_of w.old) x) finished) }
    ensures keeps { Keeps home AValue (HeldValue x ∷ []) result w.old w.new }
{
    match computing::negated(x) {
        Computed::Value(z) => Ok(value(z)),
        Computed::Faulty(kind) => throws(w, home, kind),
    }
}

// The word of `typeof` for a value (ECMA-262, 13.5.3).
fn type_word(w: &World, x: Value) -> &'static [u16]
    requires value { ValueIn w.now x }
    requires real { IsReal w.now x }
    ensures word { (log : List Item) → result.now ≡ type_word (Image w.now log) (Resolve (names_of w.now) x) }
    ensures short { length result.now ≤ 2 ^ 20 }
{
    match x {
        Value::Undefined => &UNDEFINED,
        Value::Null => &OBJECT,
        Value::Bool(_) => &BOOLEAN,
        Value::Whole(_) => &NUMBER,
        Value::Text(_) => &STRING,
        Value::Symbol(_) => &SYMBOL,
        Value::Object(_) => match callable(w, x) {
            Some(_) => &FUNCTION,
            None => &OBJECT,
        },
    }
}

// `typeof` has its operand.
pub(crate) fn typeof_value(w: &mut World, home: Side, x: Value) -> Result<Move, Halt>
    requires acts { Acts w.old home }
    requires value { ValueIn w.old x }
    requires real { IsReal w.old x }
    ensures row { (f : ℕ) → Part home result w.old w.new f f (typeof_value (Resolve (names_of w.old) x) finished) }
    ensures keeps { Keeps home AValue [] result w.old w.new }
{
    let units = type_word(w, x);
    let text = word(w, units)?;
    Ok(value(Value::Text(text)))
}

// `delete` was asked of an object.
pub(crate) fn delete_done(w: &mut World, home: Side, done: bool) -> Result<Move, Halt>
    requires { Acts w.old home }
    ensures row { (f : ℕ) → Part home result w.old w.new f f (delete_done home.0 done finished) }
    ensures keeps { Keeps home AValue [] result w.old w.new }
{
    if done {
        Ok(truth_value(true))
    } else {
        type_error(w, home)
    }
}

// An operator has its left operand.
pub(crate) fn left_got(at: Context, sign: Sign, right: NodeId, x: Value) -> Move
    ensures row { (home : ASide) (d : Data) → ContextIn d at → ValueIn d x → Sure home d
        (left_got (context_in (names_of d) home.0 at) sign right.0 (Resolve (names_of d) x) finished) result }
    ensures leaves { (home : ASide) (d : Data) → Leaving home (HeldValue x ∷ expr_held (TheFrame.Left at sign right))
        result d }
{
    Move::Wait(
        Frame::Expr(ExprFrame::Right { sign, left: x }),
        Task::Evaluate { node: right, at },
    )
}

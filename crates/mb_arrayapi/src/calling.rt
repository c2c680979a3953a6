// Functions that are called for elements (ECMA-262, 23.1.3).
ghost use Rattle.std.specs.Prelude.{◌≡◌, ◌∷◌, ℕ, IfOk, List, Some, false};
ghost use Rattle.std.specs.Option.{option_to_list};
ghost use Rattle.mb_arrayapi.specs.machine.Passing.{IsPassed, function_of, lacks_value, so_far_of, this_of};
ghost use Rattle.mb_arrayapi.specs.machine.Turning.{elements_held};
ghost use Rattle.mb_call.specs.Ours.{Acts};
ghost use Rattle.mb_frames.specs.Held.{HeldValue};
ghost use Rattle.mb_frames.specs.Passing.{Part};
ghost use Rattle.mb_frames.specs.Ready.{IsReady, KeepsBy, MayHold};
ghost use Rattle.mb_frames.specs.Rest.Arraying.{call_found, callback_called};
ghost use Rattle.mb_frames.specs.Sorts.{AValue};
ghost use Rattle.mb_frames.specs.declared.arrays.Turn.TheVariants as turn;
ghost use Rattle.mb_model.specs.Meaning.{finished};
ghost use Rattle.mb_world.specs.Graph.{Item};
ghost use Rattle.mb_world.specs.Image.{Image, Resolve, names_of, object_in};
ghost use Rattle.mb_world.specs.Objects.{is_callable};

use crate::giving::waits;
use crate::keys::{next_place, place_value};
use crate::storing::stored;
use crate::turns::{Elements, goes_on};
use mb_base::{Fuel, NoMemory, ObjId, Side, Value};
use mb_frames::{ArrayFrame, Callback, Halt, Method, Move, Turn, Values};
use mb_parts::{callable, truth};
use mb_world::World;
use std::alloc::Global;

// Whether a value can be called (ECMA-262, 7.2.3).
pub(crate) fn can_call(w: &World, home: Side, x: Value) -> bool
    requires ready { IsReady w.now }
    requires held { MayHold w.now home (HeldValue x) }
    ensures { (log : List Item) → is_callable (Image w.now log) (Resolve (names_of w.now) x) ≡ result }
{
    callable(w, x).is_some()
}

// The function is called for an element, but for the first one of reduce where nothing else begins.
pub(crate) fn call_with(
    w: &mut World,
    fuel: &mut Fuel,
    home: Side,
    at: Elements,
    callback: Callback,
    x: Value,
) -> Result<Move, Halt>
    requires acts { Acts w.old home (HeldValue x ∷ elements_held at) }
    requires turn { at.turn ≡ turn.Call callback }
    ensures part { Part home result w.old w.new fuel.old fuel.new (call_found (names_of w.old) home.0
        (object_in (names_of w.old) at.object) callback at.place at.left (Some (Resolve (names_of w.old) x)) finished) }
    ensures keeps { KeepsBy home AValue result w.old w.new }
{
    if !lacks_value(callback) {
        return calls(w, home, at, callback, x);
    }
    let turn = Turn::Call(Callback::Reduce {
        function: function_of(callback),
        so_far: Some(x),
    });
    goes_on(w, fuel, home, Elements { turn, ..at })
}

// Whether it is a reduce without a value so far.
fn lacks_value(callback: Callback) -> bool
    ensures { result ≡ lacks_value callback }
{
    matches!(callback, Callback::Reduce { so_far: None, .. })
}

// The function that is called.
fn function_of(callback: Callback) -> Value
    ensures { result ≡ function_of callback }
{
    match callback {
        Callback::ForEach { function, .. } => function,
        Callback::Map { function, .. } => function,
        Callback::Filter { function, .. } => function,
        Callback::Reduce { function, .. } => function,
    }
}

// The `this` with which it is called.
fn this_of(callback: Callback) -> Value
    ensures { result ≡ this_of callback }
{
    match callback {
        Callback::ForEach { this, .. } => this,
        Callback::Map { this, .. } => this,
        Callback::Filter { this, .. } => this,
        Callback::Reduce { .. } => Value::Undefined,
    }
}

// The value so far, which is passed before the element.
fn so_far_of(callback: Callback) -> Option<Value>
    ensures { result ≡ so_far_of callback }
{
    match callback {
        Callback::Reduce { so_far, .. } => so_far,
        _ => None,
    }
}

// The call for an element.
fn calls(
    w: &mut World,
    home: Side,
    at: Elements,
    callback: Callback,
    x: Value,
) -> Result<Move, Halt>
    requires acts { Acts w.old home (HeldValue x ∷ elements_held at) }
    requires turn { at.turn ≡ turn.Call callback }
    requires value { lacks_value callback ≡ false }
    ensures part { (f : ℕ) → Part home result w.old w.new f f (call_found (names_of w.old) home.0
        (object_in (names_of w.old) at.object) callback at.place at.left (Some (Resolve (names_of w.old) x)) finished) }
    ensures keeps { KeepsBy home AValue result w.old w.new }
{
    let alloc = *w.trace().allocator();
    let arguments = arguments(alloc, so_far_of(callback), x, at.place, at.object)?;
    match function_of(callback) {
        Value::Object(function) => Ok(waits(
            home,
            ArrayFrame::Called {
                object: at.object,
                place: at.place,
                left: at.left,
                element: x,
                callback,
            },
            Method::Call {
                this: this_of(callback),
                arguments,
            },
            function,
        )),
        _ => unreachable!(),
    }
}

// What a function is called with: the value so far, if there is one, the element, its place and the object.
fn arguments(
    alloc: Global,
    so_far: Option<Value>,
    x: Value,
    place: u64,
    object: ObjId,
) -> Result<Values, NoMemory>
    ensures { IfOk result (IsPassed so_far x place object) }
{
    let mut arguments = those_in(alloc, so_far)?;
    let place = place_value(place)?;
    arguments.push(x)?;
    arguments.push(place)?;
    arguments.push(Value::Object(object))?;
    Ok(arguments)
}

// The list of a value, if there is one.
fn those_in(alloc: Global, so_far: Option<Value>) -> Result<Values, NoMemory>
    ensures { IfOk result (λ values. values ≡ option_to_list so_far) }
{
    let mut values = Values::new(alloc);
    match so_far {
        Some(x) => {
            values.push(x)?;
            Ok(values)
        }
        None => Ok(values),
    }
}

// The function was called with an element, and gave x.
pub(crate) fn called(
    w: &mut World,
    fuel: &mut Fuel,
    home: Side,
    at: Elements,
    callback: Callback,
    element: Value,
    x: Value,
) -> Result<Move, Halt>
    requires acts { Acts w.old home (HeldValue x ∷ HeldValue element ∷ elements_held at) }
    requires turn { at.turn ≡ turn.Call callback }
    ensures part { Part home result w.old w.new fuel.old fuel.new (callback_called (names_of w.old) home.0
        (object_in (names_of w.old) at.object) (Resolve (names_of w.old) element) at.place at.left
        (Resolve (names_of w.old) x) callback finished) }
    ensures keeps { KeepsBy home AValue result w.old w.new }
{
    match callback {
        Callback::ForEach { .. } => goes_on(w, fuel, home, at),
        Callback::Map { array, .. } => stored(w, fuel, home, array, at.place, x, at),
        Callback::Filter {
            function,
            this,
            array,
            count,
        } => {
            if !truth(w, x) {
                return goes_on(w, fuel, home, at);
            }
            let count_after = next_place(count)?;
            let turn = Turn::Call(Callback::Filter {
                function,
                this,
                array,
                count: count_after,
            });
            stored(
                w,
                fuel,
                home,
                array,
                count,
                element,
                Elements { turn, ..at },
            )
        }
        Callback::Reduce { function, .. } => {
            let turn = Turn::Call(Callback::Reduce {
                function,
                so_far: Some(x),
            });
            goes_on(w, fuel, home, Elements { turn, ..at })
        }
    }
}

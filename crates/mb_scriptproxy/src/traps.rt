// The trap of a method is looked up and called (ECMA-262, 10.5).
ghost use Rattle.std.specs.Prelude.{◌≡◌, ◌∷◌, [], ℕ, IfOk, false, true};
ghost use Rattle.mb_frames.specs.Held.{HeldObject, HeldValue};
ghost use Rattle.mb_frames.specs.Holding.{method_held, proxy_held};
ghost use Rattle.mb_frames.specs.Keeping.{KeepsAnswer};
ghost use Rattle.mb_frames.specs.Passing.{Part};
ghost use Rattle.mb_frames.specs.Ready.{KeepsBy};
ghost use Rattle.mb_frames.specs.Resolved.{method_in};
ghost use Rattle.mb_frames.specs.Sorts.{method_gives};
ghost use Rattle.mb_frames.specs.declared.proxies.ProxyFrame.TheVariants as TheFrame;
ghost use Rattle.mb_model.specs.Meaning.{finished};
ghost use Rattle.mb_model.specs.Objects.Proxies.{trap_callable, trap_got, trapped};
ghost use Rattle.mb_world.specs.Image.{Names, Resolve, key_in, names_of, object_in};
ghost use Rattle.mb_world.specs.Key.{value_of_key};
ghost use Rattle.mb_world.specs.Value.{is_nullish};
ghost use Rattle.mb_call.specs.Ours.{Acts};
ghost use Rattle.mb_scriptproxy.specs.machine.Acting.{is_none, trap_side};
ghost use Rattle.mb_scriptproxy.specs.machine.Trapping.{GivesArguments, GivesList, arguments_held, key_value};

use crate::errors::type_error;
use mb_base::{Key, NoMemory, ObjId, Side, Value};
use mb_call::fromdesc;
use mb_frames::{Frame, Halt, Method, Move, ProxyFrame, Task, Values};
use mb_parts::{callable, make_array};
use mb_world::World;
use std::alloc::Global;

// The trap was looked up. Without one the side that asked performs the target's method, as the Proxy's owner sees that,
// and no entry is made.
pub(crate) fn trap_got(
    w: &mut World,
    home: Side,
    asked: Side,
    target: ObjId,
    handler: ObjId,
    method: Method,
    trap: Value,
) -> Result<Move, Halt>
    requires acts { Acts w.old home (HeldValue trap ∷ proxy_held (TheFrame.TrapGot asked target handler method)) }
    ensures part { (f : ℕ) → Part (trap_side home asked trap) result w.old w.new f f
        (trap_got asked.0 home.0 (object_in (names_of w.old) target) (object_in (names_of w.old) handler)
        (method_in (names_of w.old) method) (Resolve (names_of w.old) trap) finished) }
    ensures keeps { KeepsBy (trap_side home asked trap) (method_gives method) result w.old w.new }
{
    if is_none(trap) {
        return Ok(untrapped(home, target, method));
    }
    trap_called(w, home, target, handler, method, trap)
}

// Whether there is no trap.
pub(crate) fn is_none(trap: Value) -> bool
    ensures is { result ≡ is_none trap }
    ensures means { (n : Names) → is_nullish (Resolve n trap) ≡ result }
{
    match trap {
        Value::Undefined => true,
        Value::Null => true,
        _ => false,
    }
}

// The target's method, as the owner sees the target.
fn untrapped(home: Side, target: ObjId, method: Method) -> Move
    ensures { result ≡ Move.Next (Task.Perform method target home false) }
{
    Move::Next(Task::Perform {
        method,
        object: target,
        viewer: home,
        enters: false,
    })
}

/// The trap that was looked up is called, with the handler as `this`; one that isn't callable is answered with a
/// TypeError of that side. The method's row goes on once the trap has ended.
pub fn trap_called(
    w: &mut World,
    home: Side,
    target: ObjId,
    handler: ObjId,
    method: Method,
    trap: Value,
) -> Result<Move, Halt>
    requires acts { Acts w.old home
        (HeldValue trap ∷ HeldObject handler ∷ HeldObject target ∷ method_held target method) }
    ensures part { (f : ℕ) → Part home result w.old w.new f f (trap_callable home.0
        (object_in (names_of w.old) target) (object_in (names_of w.old) handler) (Resolve (names_of w.old) trap)
        (method_in (names_of w.old) method) finished) }
    ensures keeps { KeepsBy home (method_gives method) result w.old w.new }
{
    match callable(w, trap) {
        Some(function) => trapped(w, home, target, handler, method, function),
        None => type_error(w, home),
    }
}

// It is called with the handler as `this`, the target first.
fn trapped(
    w: &mut World,
    home: Side,
    target: ObjId,
    handler: ObjId,
    method: Method,
    trap: ObjId,
) -> Result<Move, Halt>
    requires acts { Acts w.old home
        (HeldObject trap ∷ HeldObject handler ∷ HeldObject target ∷ method_held target method) }
    ensures part { (f : ℕ) → Part home result w.old w.new f f (trapped home.0 (object_in (names_of w.old) target)
        (object_in (names_of w.old) handler) (object_in (names_of w.old) trap) (method_in (names_of w.old) method)
        finished) }
    ensures keeps { KeepsBy home (method_gives method) result w.old w.new }
{
    let arguments = trap_arguments(w, home, target, &method)?;
    Ok(calls(home, target, handler, method, trap, arguments))
}

// The call of a trap.
fn calls(
    home: Side,
    target: ObjId,
    handler: ObjId,
    method: Method,
    trap: ObjId,
    arguments: Values,
) -> Move
    ensures { result ≡ Move.Wait (Frame.Proxy (ProxyFrame.Said target method))
        (Task.Perform (Method.Call (Value.Object handler) arguments) trap home true) }
{
    let this = Value::Object(handler);
    Move::Wait(
        Frame::Proxy(ProxyFrame::Said { target, method }),
        Task::Perform {
            method: Method::Call { this, arguments },
            object: trap,
            viewer: home,
            enters: true,
        },
    )
}

// What a trap is called with: the target, and what the function of Reflect that performs the method takes.
fn trap_arguments(w: &mut World, home: Side, target: ObjId, method: &Method) -> Result<Values, Halt>
    requires acts { Acts w.old home (HeldObject target ∷ method_held target method.now) }
    ensures gives { GivesArguments result w.old w.new home target method.now }
    ensures keeps { KeepsAnswer home arguments_held result w.old w.new }
{
    let first = Value::Object(target);
    match method {
        Method::GetPrototypeOf => listed(w, &[first]),
        Method::SetPrototypeOf(given) => listed(w, &[first, *given]),
        Method::IsExtensible => listed(w, &[first]),
        Method::PreventExtensions => listed(w, &[first]),
        Method::GetOwnProperty(key) => listed(w, &[first, key_value(*key)]),
        Method::DefineOwnProperty(key, given) => {
            let desc = fromdesc(w, home, *given)?;
            listed(w, &[first, key_value(*key), Value::Object(desc)])
        }
        Method::HasProperty(key) => listed(w, &[first, key_value(*key)]),
        Method::Get { key, receiver } => listed(w, &[first, key_value(*key), *receiver]),
        Method::Set {
            key,
            value,
            receiver,
        } => listed(w, &[first, key_value(*key), *value, *receiver]),
        Method::Delete(key) => listed(w, &[first, key_value(*key)]),
        Method::OwnPropertyKeys => listed(w, &[first]),
        Method::Call { this, arguments } => {
            let array = make_array(w, home, arguments.items())?;
            listed(w, &[first, *this, Value::Object(array)])
        }
        Method::Construct { arguments, target } => {
            let array = make_array(w, home, arguments.items())?;
            listed(w, &[first, Value::Object(array), *target])
        }
    }
}

// The value that a key is.
fn key_value(key: Key) -> Value
    ensures is { result ≡ key_value key }
    ensures means { (n : Names) → Resolve n result ≡ value_of_key (key_in n key) }
{
    match key {
        Key::Text { text, .. } => Value::Text(text),
        Key::Symbol(symbol) => Value::Symbol(symbol),
    }
}

// A list of these values.
fn listed(w: &World, values: &[Value]) -> Result<Values, Halt>
    ensures { GivesList result values.now }
{
    let items = copied(*w.trace().allocator(), values)?;
    Ok(Values::from(items))
}

fn copied(alloc: Global, values: &[Value]) -> Result<Vec<Value>, NoMemory>
    ensures { IfOk result (λ copy. copy.items ≡ values.now) }
{
    let copy = values.to_vec(alloc)?;
    Ok(copy)
}

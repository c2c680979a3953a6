// Lists of array-likes (ECMA-262, 7.3.19, 7.3.20).
ghost use Rattle.std.specs.Prelude.{◌≡◌, ◌<◌, ◌+◌, ◌∷◌, ◌||◌, [], ℕ, All, IfOk, OnErr, OnOk, length, not, true};
ghost use Rattle.mb_base.specs.declared.value.Value.TheVariants as TheValue;
ghost use Rattle.mb_check.specs.Keys.{are_distinct};
ghost use Rattle.mb_frames.specs.Held.{HeldObject, HeldValue, HeldValues};
ghost use Rattle.mb_frames.specs.Holding.{call_held, list_held};
ghost use Rattle.mb_frames.specs.Passing.{Part, TextsGrew};
ghost use Rattle.mb_frames.specs.Ready.{Holds, IsReady, KeepsBy};
ghost use Rattle.mb_frames.specs.Resolved.{keys_of, values_in};
ghost use Rattle.mb_frames.specs.Rest.Calls.{after_list, asks_keys};
ghost use Rattle.mb_frames.specs.Sorts.{SomeKeys, list_gives};
ghost use Rattle.mb_frames.specs.declared.calls.CallFrame.TheVariants as TheFrame;
ghost use Rattle.mb_frames.specs.declared.task.Method.TheVariants as TheMethod;
ghost use Rattle.mb_frames.specs.declared.task.Task.TheVariants as TheTask;
ghost use Rattle.mb_model.specs.Meaning.{finished};
ghost use Rattle.mb_model.specs.Objects.Proxies.{as_keys, keys_listed};
ghost use Rattle.mb_model.specs.Operations.Calls.{length_from, list_from, list_got, list_of, not_below_zero};
ghost use Rattle.mb_model.specs.Writing.{◌>>=◌ as after_that};
ghost use Rattle.mb_text.specs.Texts.{AreDistinct};
ghost use Rattle.mb_world.specs.Arrays.{index_key};
ghost use Rattle.mb_world.specs.Data.{Data};
ghost use Rattle.mb_world.specs.Ids.{HasItsIds, KeyIn, ValueIn};
ghost use Rattle.mb_world.specs.Image.{Resolve, key_in, names_of, object_in};
ghost use Rattle.mb_world.specs.Key.{is_property_key, same_key};
ghost use Rattle.mb_call.specs.Ours.{Acts};
ghost use Rattle.mb_call.specs.machine.Lists.{IsAdded, rest_of_list};

use crate::errors::type_error;
use crate::giving::{asks, performs};
use crate::parts::key_of_word;
use mb_base::{Fuel, Key, NoMemory, ObjId, Side, Value};
use mb_check::{Verdict, keys_in_any_order, own_keys};
use mb_frames::{AfterList, CallFrame, Frame, Halt, Method, Move, ProxyFrame, Task, Values};
use mb_parts::{digits, key_from};
use mb_world::{KeyList, World};
use std::alloc::Global;

// The units of the text `length`.
const LENGTH: [u16; 6] = [108, 101, 110, 103, 116, 104];

// No list in memory has so many elements.
const MOST_ELEMENTS: usize = 1 << 60;

/// The list of the elements of a value, and what follows: first its length is got.
pub fn list_of(w: &mut World, home: Side, x: Value, after: AfterList) -> Result<Move, Halt>
    requires ready { IsReady w.old }
    requires side { home.0 < w.old.sides }
    requires held { Holds w.old home (HeldValue x ∷ list_held after) }
    ensures part { (f : ℕ) → Part home result w.old w.new f f (after_that
        (list_of home.0 (asks_keys after) (Resolve (names_of w.old) x)) (after_list (names_of w.old) home.0 after)
        finished) }
    ensures keeps { KeepsBy home (list_gives after) result w.old w.new }
{
    match x {
        Value::Object(list) => {
            let key = key_of_word(w, &LENGTH)?;
            Ok(Move::Wait(
                Frame::Call(CallFrame::ListLength { list, after }),
                get(home, list, key),
            ))
        }
        _ => type_error(w, home),
    }
}

// Get of an object (ECMA-262, 7.3.2).
fn get(home: Side, object: ObjId, key: Key) -> Task
    ensures { result ≡ TheTask.Perform (TheMethod.Get key (TheValue.Object object)) object home true }
{
    let receiver = Value::Object(object);
    asks(home, Method::Get { key, receiver }, object)
}

// The length of a list was got.
pub(crate) fn length_got(
    w: &mut World,
    fuel: &mut Fuel,
    home: Side,
    list: ObjId,
    after: AfterList,
    length: Value,
) -> Result<Move, Halt>
    requires acts { Acts w.old home (HeldValue length ∷ call_held (TheFrame.ListLength list after)) }
    ensures part { Part home result w.old w.new fuel.old fuel.new (after_that (after_that
        (length_from home.0 (Resolve (names_of w.old) length))
        (λ n. list_from home.0 (asks_keys after) (object_in (names_of w.old) list) n 0 []))
        (after_list (names_of w.old) home.0 after) finished) }
    ensures keeps { KeepsBy home (list_gives after) result w.old w.new }
{
    let none = Values::new(*w.trace().allocator());
    match length {
        Value::Undefined => list_from(w, fuel, home, list, 0, none, after),
        Value::Whole(n) => list_from(w, fuel, home, list, not_below_zero(n), none, after),
        _ => type_error(w, home),
    }
}

// A number below 0 counts as 0.
fn not_below_zero(n: i64) -> u64
    ensures { result ≡ not_below_zero n }
{
    if n < 0 { 0 } else { n as u64 }
}

// The elements that are left, after those that were got: a unit for each.
fn list_from(
    w: &mut World,
    fuel: &mut Fuel,
    home: Side,
    list: ObjId,
    left: u64,
    done: Values,
    after: AfterList,
) -> Result<Move, Halt>
    requires acts { Acts w.old home (HeldObject list ∷ HeldValues done ∷ list_held after) }
    ensures part { Part home result w.old w.new fuel.old fuel.new
        (rest_of_list (names_of w.old) home.0 list left done after finished) }
    ensures keeps { KeepsBy home (list_gives after) result w.old w.new }
{
    if left == 0 {
        return after_list(w, home, after, done);
    }
    fuel.charge(1)?;
    let key = index_key(w, done.len())?;
    let left = left - 1;
    Ok(Move::Wait(
        Frame::Call(CallFrame::ListElement {
            list,
            left,
            done,
            after,
        }),
        get(home, list, key),
    ))
}

// The key of an element.
fn index_key(w: &mut World, place: usize) -> Result<Key, NoMemory>
    ensures key { IfOk result (λ k. key_in (names_of w.new) k ≡ index_key place) }
    ensures within { IfOk result (KeyIn w.new) }
    ensures grew { OnOk result (TextsGrew w.old w.new) }
    ensures kept { OnErr result (w.new ≡ w.old) }
{
    if place > MOST_ELEMENTS {
        return Err(NoMemory);
    }
    let text = digits(w, place as i64)?;
    Ok(w.texts().key(text))
}

// An element was got. Where keys are asked, it is a text or a symbol.
pub(crate) fn element_got(
    w: &mut World,
    fuel: &mut Fuel,
    home: Side,
    list: ObjId,
    left: u64,
    done: Values,
    after: AfterList,
    x: Value,
) -> Result<Move, Halt>
    requires acts { Acts w.old home (HeldValue x ∷ call_held (TheFrame.ListElement list left done after)) }
    ensures part { Part home result w.old w.new fuel.old fuel.new (after_that (after_that
        (list_got home.0 (asks_keys after) (values_in (names_of w.old) done) (Resolve (names_of w.old) x))
        (list_from home.0 (asks_keys after) (object_in (names_of w.old) list) left (length done + 1)))
        (after_list (names_of w.old) home.0 after) finished) }
    ensures keeps { KeepsBy home (list_gives after) result w.old w.new }
{
    if !may_be_listed(after, x) {
        return type_error(w, home);
    }
    let mut done = done;
    done.push(x)?;
    list_from(w, fuel, home, list, left, done, after)
}

// Whether an element is of the sort that is wanted.
fn may_be_listed(after: AfterList, x: Value) -> bool
    ensures { (d : Data) → result ≡ (not (asks_keys after) || is_property_key (Resolve (names_of d) x)) }
{
    !asks_keys(after) || is_property_key(x)
}

fn asks_keys(after: AfterList) -> bool
    ensures { result ≡ asks_keys after }
{
    matches!(after, AfterList::Keys { .. })
}

fn is_property_key(x: Value) -> bool
    ensures { (d : Data) → result ≡ is_property_key (Resolve (names_of d) x) }
{
    matches!(x, Value::Text(_) | Value::Symbol(_))
}

// What follows where a list was read.
fn after_list(w: &mut World, home: Side, after: AfterList, list: Values) -> Result<Move, Halt>
    requires acts { Acts w.old home (HeldValues list ∷ list_held after) }
    ensures part { (f : ℕ) → Part home result w.old w.new f f (after_list (names_of w.old) home.0 after
        (values_in (names_of w.old) list) finished) }
    ensures keeps { KeepsBy home (list_gives after) result w.old w.new }
{
    match after {
        AfterList::Apply { function, this } => match function {
            Value::Object(function) => {
                let arguments = list;
                Ok(performs(home, Method::Call { this, arguments }, function))
            }
            _ => unreachable!(),
        },
        AfterList::Construct { function, target } => {
            let arguments = list;
            Ok(performs(home, Method::Construct { arguments, target }, function))
        }
        AfterList::Keys { target } => keys_listed(w, home, target, &list),
    }
}

// A trap of ownKeys gave these values: the keys that they are must be distinct (ECMA-262, 10.5.11).
fn keys_listed(w: &mut World, home: Side, target: ObjId, list: &Values) -> Result<Move, Halt>
    requires acts { Acts w.old home (HeldObject target ∷ HeldValues list.now ∷ []) }
    ensures part { (f : ℕ) → Part home result w.old w.new f f (keys_listed home.0
        (object_in (names_of w.old) target) (as_keys (values_in (names_of w.old) list.now)) finished) }
    ensures keeps { KeepsBy home SomeKeys result w.old w.new }
{
    let alloc = *w.trace().allocator();
    let keys = keys_in(alloc, w, list)?;
    let _texts = w.texts();
    let distinct = are_distinct(alloc, &keys)?;
    if !distinct {
        return type_error(w, home);
    }
    let said = KeyList::from(keys);
    Ok(Move::Wait(
        Frame::Proxy(ProxyFrame::KeysExtensible { target, said }),
        asks(home, Method::IsExtensible, target),
    ))
}

// The keys that values are.
fn keys_in(alloc: Global, w: &mut World, list: &Values) -> Result<Vec<Key>, NoMemory>
    requires ids { HasItsIds w.old }
    requires values { All (ValueIn w.old) list.now }
    ensures keys { IfOk result (λ keys.
        keys_of (names_of w.new) keys.items ≡ as_keys (values_in (names_of w.old) list.now)) }
    ensures within { IfOk result (λ keys. All (KeyIn w.new) keys.items) }
    ensures grew { TextsGrew w.old w.new }
{
    let mut keys = Vec::new(alloc);
    for x in list.items() {
        add_key(w, &mut keys, *x)?;
    }
    Ok(keys)
}

// The key that a value is comes last, if it is one.
fn add_key(w: &mut World, keys: &mut Vec<Key>, x: Value) -> Result<(), NoMemory>
    requires value { ValueIn w.old x }
    requires ids { HasItsIds w.old }
    ensures added { OnOk result (IsAdded w.old w.new x keys.old.items keys.new.items) }
    ensures grew { TextsGrew w.old w.new }
{
    match key_from(w, x)? {
        Some(key) => {
            keys.push(key)?;
            Ok(())
        }
        None => Ok(()),
    }
}

// Whether no key stands twice. A sorted copy is tested, in n log n.
fn are_distinct(alloc: Global, keys: &[Key]) -> Result<bool, NoMemory>
    ensures { IfOk result (λ b. (d : Data) → AreDistinct d.texts → All (KeyIn d) keys.now →
        b ≡ are_distinct same_key (keys_of (names_of d) keys.now)) }
{
    let mut sorted = keys.to_vec(alloc)?;
    sorted.sort()?;
    keys_in_any_order::<Key>();
    Ok(own_keys(&sorted, &[], &[], true) == Verdict::Pass)
}

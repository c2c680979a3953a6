// Keys, and places as values.
ghost use Rattle.std.specs.Prelude.{◌≡◌, ◌≤◌, ◌^◌, ◌+◌, IfOk, OnErr, OnOk, codes, length, pos};
ghost use Rattle.mb_base.specs.declared.value.Value.TheVariants as v;
ghost use Rattle.mb_frames.specs.Passing.{TextsGrew};
ghost use Rattle.mb_model.specs.Operations.Conversions.{whole_limit};
ghost use Rattle.mb_world.specs.Arrays.{index_key, length_key};
ghost use Rattle.mb_world.specs.Ids.{KeyIn};
ghost use Rattle.mb_world.specs.Image.{key_in, names_of};
ghost use Rattle.mb_world.specs.Key.{Named};
ghost use Rattle.mb_arrayapi.specs.machine.Placing.{IsPlace};

use mb_base::{Key, NoMemory, Value};
use mb_parts::{digits, word};
use mb_world::World;

// The greatest length of an array-like (ECMA-262, 7.3.19): no place in memory is above it.
pub(crate) const MOST: u64 = 9_007_199_254_740_991;

// The units of the texts `length` and `prototype`.
const LENGTH: [u16; 6] = [108, 101, 110, 103, 116, 104];

const PROTOTYPE: [u16; 9] = [112, 114, 111, 116, 111, 116, 121, 112, 101];

// A key that is a word, which is added to the texts where it isn't there yet.
fn key_of_word(w: &mut World, units: &[u16]) -> Result<Key, NoMemory>
    requires { length units.now ≤ 2 ^ 20 }
    ensures key { IfOk result (λ k. key_in (names_of w.new) k ≡ Named units.now) }
    ensures within { IfOk result (KeyIn w.new) }
    ensures grew { OnOk result (TextsGrew w.old w.new) }
    ensures kept { OnErr result (w.new ≡ w.old) }
{
    let text = word(w, units)?;
    Ok(w.texts().key(text))
}

// The key `length`.
pub(crate) fn length_key(w: &mut World) -> Result<Key, NoMemory>
    ensures key { IfOk result (λ k. key_in (names_of w.new) k ≡ length_key) }
    ensures within { IfOk result (KeyIn w.new) }
    ensures grew { OnOk result (TextsGrew w.old w.new) }
    ensures kept { OnErr result (w.new ≡ w.old) }
{
    key_of_word(w, &LENGTH)
}

// The key `prototype`.
pub(crate) fn prototype_key(w: &mut World) -> Result<Key, NoMemory>
    ensures key { IfOk result (λ k. key_in (names_of w.new) k ≡ Named (codes "prototype")) }
    ensures within { IfOk result (KeyIn w.new) }
    ensures grew { OnOk result (TextsGrew w.old w.new) }
    ensures kept { OnErr result (w.new ≡ w.old) }
{
    key_of_word(w, &PROTOTYPE)
}

// The key of the element at a place.
pub(crate) fn index_key(w: &mut World, place: u64) -> Result<Key, NoMemory>
    ensures key { IfOk result (λ k. key_in (names_of w.new) k ≡ index_key place) }
    ensures within { IfOk result (KeyIn w.new) }
    ensures grew { OnOk result (TextsGrew w.old w.new) }
    ensures kept { OnErr result (w.new ≡ w.old) }
{
    if place > MOST {
        return Err(NoMemory);
    }
    let text = digits(w, place as i64)?;
    Ok(w.texts().key(text))
}

// A place or a length as a value.
pub(crate) fn place_value(place: u64) -> Result<Value, NoMemory>
    ensures { IfOk result (IsPlace place) }
{
    if place > MOST {
        return Err(NoMemory);
    }
    Ok(Value::Whole(place as i64))
}

// The place after this one.
pub(crate) fn next_place(place: u64) -> Result<u64, NoMemory>
    ensures { IfOk result (λ next. next ≡ place + 1) }
{
    if place > MOST {
        return Err(NoMemory);
    }
    Ok(place + 1)
}

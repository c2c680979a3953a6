// Values as truth values, as texts and as keys (ECMA-262, 7.1).
ghost use Rattle.std.specs.Prelude.{◌≡◌, ◌≤◌, ◌^◌, IfOk, OnErr, OnOk, Some, length, option_map};
ghost use Rattle.mb_world.specs.Ids.{HasItsIds, KeyIn, Maybe, TextIn, ValueIn};
ghost use Rattle.mb_world.specs.Image.{Resolve, key_in, names_of, text_in};
ghost use Rattle.mb_world.specs.Key.{key_of};
ghost use Rattle.mb_world.specs.Value.{to_boolean, to_text, whole_text};
ghost use Rattle.mb_frames.specs.Passing.{TextsGrew};

use mb_base::{Key, NoMemory, StrId, Value};
use mb_text::TextFault;
use mb_world::World;

/// ToBoolean (ECMA-262, 7.1.2).
pub fn truth(w: &World, x: Value) -> bool
    requires { ValueIn w.now x }
    ensures { result ≡ to_boolean (Resolve (names_of w.now) x) }
{
    match x {
        Value::Undefined => false,
        Value::Null => false,
        Value::Bool(b) => b,
        Value::Whole(n) => n != 0,
        Value::Text(t) => !w.texts().units(t).is_empty(),
        Value::Symbol(_) => true,
        Value::Object(_) => true,
    }
}

// The words that values are as texts.
const UNDEFINED: [u16; 9] = [117, 110, 100, 101, 102, 105, 110, 101, 100];

const NULL: [u16; 4] = [110, 117, 108, 108];

const TRUE: [u16; 4] = [116, 114, 117, 101];

const FALSE: [u16; 5] = [102, 97, 108, 115, 101];

/// The id of a short text, which is added where it isn't there yet.
pub fn word(w: &mut World, units: &[u16]) -> Result<StrId, NoMemory>
    requires { length units.now ≤ 2 ^ 20 }
    ensures text { IfOk result (λ t. text_in (names_of w.new) t ≡ units.now) }
    ensures within { IfOk result (TextIn w.new) }
    ensures grew { OnOk result (TextsGrew w.old w.new) }
    ensures kept { OnErr result (w.new ≡ w.old) }
{
    let _before = w.texts();
    let id = match w.intern(units) {
        Ok(id) => id,
        Err(TextFault::NoMemory) => return Err(NoMemory),
        Err(TextFault::Long) => unreachable!(),
    };
    let _after = w.texts();
    Ok(id)
}

/// ToString (ECMA-262, 7.1.17) of a value that is no object and no symbol; `None` for those.
pub fn text_from(w: &mut World, x: Value) -> Result<Option<StrId>, NoMemory>
    requires value { ValueIn w.old x }
    requires ids { HasItsIds w.old }
    ensures text { IfOk result (λ t. option_map (text_in (names_of w.new)) t ≡ to_text (Resolve (names_of w.old) x)) }
    ensures within { IfOk result (Maybe (TextIn w.new)) }
    ensures grew { OnOk result (TextsGrew w.old w.new) }
    ensures kept { OnErr result (w.new ≡ w.old) }
{
    match x {
        Value::Undefined => Ok(Some(word(w, &UNDEFINED)?)),
        Value::Null => Ok(Some(word(w, &NULL)?)),
        Value::Bool(true) => Ok(Some(word(w, &TRUE)?)),
        Value::Bool(false) => Ok(Some(word(w, &FALSE)?)),
        Value::Whole(n) => Ok(Some(digits(w, n)?)),
        Value::Text(t) => Ok(Some(t)),
        Value::Symbol(_) => Ok(None),
        Value::Object(_) => Ok(None),
    }
}

/// The text of a whole number in decimal (ECMA-262, 6.1.6.1.20).
pub fn digits(w: &mut World, n: i64) -> Result<StrId, NoMemory>
    ensures text { IfOk result (λ t. text_in (names_of w.new) t ≡ whole_text n) }
    ensures within { IfOk result (TextIn w.new) }
    ensures grew { OnOk result (TextsGrew w.old w.new) }
    ensures kept { OnErr result (w.new ≡ w.old) }
{
    let _before = w.texts();
    let id = w.of_whole(n)?;
    let _after = w.texts();
    Ok(id)
}

/// ToPropertyKey (ECMA-262, 7.1.19) of a value that is no object; `None` for one.
pub fn key_from(w: &mut World, x: Value) -> Result<Option<Key>, NoMemory>
    requires value { ValueIn w.old x }
    requires ids { HasItsIds w.old }
    ensures key { IfOk result (λ k. option_map (key_in (names_of w.new)) k ≡ key_of (Resolve (names_of w.old) x)) }
    ensures within { IfOk result (Maybe (KeyIn w.new)) }
    ensures grew { OnOk result (TextsGrew w.old w.new) }
    ensures kept { OnErr result (w.new ≡ w.old) }
{
    match x {
        Value::Symbol(symbol) => Ok(Some(Key::Symbol(symbol))),
        x => match text_from(w, x)? {
            Some(text) => Ok(Some(w.texts().key(text))),
            None => Ok(None),
        },
    }
}

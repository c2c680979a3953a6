// Properties of texts, and writes to objects (ECMA-262, 7.3.4, 10.4.3.5).
ghost use Rattle.mb_world.specs.Value.{Whole};
ghost use Rattle.std.specs.Prelude.{length, pos, ◌≡◌, IfOk, OnErr, OnOk};
ghost use Rattle.mb_model.specs.Operations.Calls.{is_length, text_property};
ghost use Rattle.mb_world.specs.Ids.{KeyIn, TextIn, ValueIn};
ghost use Rattle.mb_world.specs.Image.{Resolve, key_in, names_of, text_in};
ghost use Rattle.mb_world.specs.Key.{Named};
ghost use Rattle.mb_ordinary.proofs.Spelled.{index_if};
ghost use Rattle.mb_eval_expr.specs.machine.Names.{unit_found};
ghost use Rattle.mb_frames.specs.Passing.{TextsGrew};
ghost use Rattle.mb_eval_expr.specs.machine.Keeping.{IsPlainValue};

use mb_base::{Key, NoMemory, StrId, Value};
use mb_parts::word;
use mb_world::World;

// The units of the text `length`.
const LENGTH: [u16; 6] = [108, 101, 110, 103, 116, 104];

// Whether the text is `length`.
fn is_length(w: &World, text: StrId) -> bool
    requires { TextIn w.now text }
    ensures { result ≡ is_length (Named (text_in (names_of w.now) text)) }
{
    w.texts().units(text) == LENGTH.as_slice()
}

// The unit of a text at an index, which is `u32::MAX` for none.
fn unit_at(w: &World, text: StrId, index: u32) -> Option<u16>
    requires { TextIn w.now text }
    ensures { result ≡ unit_found (text_in (names_of w.now) text) (index_if index) }
{
    if index == u32::MAX {
        return None;
    }
    w.texts().units(text).get(index as usize).copied()
}

// How many units a text has; `NoMemory` where they are no number below 2^32.
fn length_of(w: &World, text: StrId) -> Result<Value, NoMemory>
    requires { TextIn w.now text }
    ensures value { IfOk result (λ x. Resolve (names_of w.now) x
        ≡ Whole (pos (length (text_in (names_of w.now) text)))) }
    ensures plain { IfOk result IsPlainValue }
    ensures within { IfOk result (ValueIn w.now) }
{
    let length = w.texts().units(text).len();
    if length > u32::MAX as usize {
        return Err(NoMemory);
    }
    Ok(Value::Whole(length as i64))
}

// What a text has at a key: its `length`, or the unit at an index.
pub(crate) fn text_property(w: &mut World, text: StrId, key: Key) -> Result<Value, NoMemory>
    requires text { TextIn w.old text }
    requires key { KeyIn w.old key }
    ensures value { IfOk result (λ x. Resolve (names_of w.new) x
        ≡ text_property (text_in (names_of w.old) text) (key_in (names_of w.old) key)) }
    ensures within { IfOk result (ValueIn w.new) }
    ensures grew { OnOk result (TextsGrew w.old w.new) }
    ensures kept { OnErr result (w.new ≡ w.old) }
    ensures plain { IfOk result IsPlainValue }
{
    let _texts = w.texts();
    match key {
        Key::Text { text: name, index } => {
            if is_length(w, name) {
                return length_of(w, text);
            }
            match unit_at(w, text, index) {
                Some(unit) => Ok(Value::Text(word(w, &[unit])?)),
                None => Ok(Value::Undefined),
            }
        }
        Key::Symbol(_) => Ok(Value::Undefined),
    }
}

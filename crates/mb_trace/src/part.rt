// The parts of a line. Each call appends its part; where memory ends, what was appended stays.
ghost use Rattle.std.specs.Prelude.{◌≡◌, ◌++◌, ◌∷◌, [], true, All, OnOk, map, option_map};
ghost use Rattle.std.specs.List.{flat_map, join_by};
ghost use Rattle.mb_world.specs.Value.{decimal, truth_text, whole_text};
ghost use Rattle.mb_world.specs.Ids.{Maybe};
ghost use Rattle.mb_world.specs.Image.{key_by, seen_in, said_in};
ghost use Rattle.mb_world.specs.EntryLine.{intrinsic_name, op_name, seen, seen_key, seen_key_if, seen_keys, seen_said, seen_symbol, seen_text};
ghost use Rattle.mb_text.specs.Spelling.{spelled};
ghost use Rattle.mb_text.specs.Texts.{text_at};
ghost use Rattle.mb_trace.specs.machine.Told.{numbered, IsTold, KeyTold, SeenTold, SaidTold};

use crate::desc::push_desc;
use itoa::Buffer;
use mb_base::{Key, NoMemory, StrId};
use mb_text::spell;
use mb_world::{Op, Said, Seen, World, name_of};

pub(crate) fn push_number(n: u32, out: &mut Vec<u8>) -> Result<(), NoMemory>
    ensures { OnOk result (out.new.items ≡ out.old.items ++ decimal n) }
{
    let mut buffer = Buffer::new();
    out.extend_from_slice(buffer.format(n).as_bytes())?;
    Ok(())
}

pub(crate) fn push_op(op: Op, out: &mut Vec<u8>) -> Result<(), NoMemory>
    ensures { OnOk result (out.new.items ≡ out.old.items ++ op_name op) }
{
    match op {
        Op::GetPrototypeOf => push_word("getPrototypeOf", out),
        Op::SetPrototypeOf => push_word("setPrototypeOf", out),
        Op::IsExtensible => push_word("isExtensible", out),
        Op::PreventExtensions => push_word("preventExtensions", out),
        Op::GetOwnPropertyDescriptor => push_word("getOwnPropertyDescriptor", out),
        Op::DefineProperty => push_word("defineProperty", out),
        Op::Has => push_word("has", out),
        Op::Get => push_word("get", out),
        Op::Set => push_word("set", out),
        Op::DeleteProperty => push_word("deleteProperty", out),
        Op::OwnKeys => push_word("ownKeys", out),
        Op::Apply => push_word("apply", out),
        Op::Construct => push_word("construct", out),
        Op::Collect(place) => push_built_in(place, out),
    }
}

pub(crate) fn push_key_if(w: &World, key: Option<Key>, out: &mut Vec<u8>) -> Result<(), NoMemory>
    requires { Maybe (KeyTold w.now) key }
    ensures { OnOk result (out.new.items ≡ out.old.items ++
        seen_key_if (numbered w.now) (option_map (key_by w.now.texts) key)) }
{
    match key {
        Some(key) => push_key(w, key, out),
        None => push_word("-", out),
    }
}

pub(crate) fn push_said(w: &World, said: &Said, out: &mut Vec<u8>) -> Result<(), NoMemory>
    requires { SaidTold w.now said.now }
    ensures { OnOk result (out.new.items ≡ out.old.items ++
        seen_said (numbered w.now) (said_in w.now.texts said.now)) }
{
    match said {
        Said::Nothing => push_word("-", out),
        Said::Flag(flag) => push_flag(*flag, out),
        Said::Plain(value) => push_seen(w, *value, out),
        Said::Absent => push_word("none", out),
        Said::Prop(desc) => push_desc(w, *desc, out),
        Said::Keys(keys) => push_keys(w, keys.items(), out),
        Said::Thrown(value) => {
            push_word("throw ", out)?;
            push_seen(w, *value, out)
        }
        Said::Pair(key, value) => {
            push_seen(w, *key, out)?;
            push_word("=>", out)?;
            push_seen(w, *value, out)
        }
    }
}

pub(crate) fn push_seen(w: &World, value: Seen, out: &mut Vec<u8>) -> Result<(), NoMemory>
    requires { SeenTold w.now value }
    ensures { OnOk result (out.new.items ≡ out.old.items ++ seen (numbered w.now) (seen_in w.now.texts value)) }
{
    match value {
        Seen::Undefined => push_word("undefined", out),
        Seen::Null => push_word("null", out),
        Seen::Bool(flag) => push_flag(flag, out),
        Seen::Whole(whole) => push_whole(whole, out),
        Seen::Text(text) => push_text(w, text, out),
        Seen::Symbol(number) => push_symbol(number, out),
        Seen::Object(number) => push_object(number, out),
        Seen::BuiltIn(place) => push_built_in(place, out),
    }
}

pub(crate) fn push_flag(flag: bool, out: &mut Vec<u8>) -> Result<(), NoMemory>
    ensures { OnOk result (out.new.items ≡ out.old.items ++ truth_text flag) }
{
    if flag {
        push_word("true", out)
    } else {
        push_word("false", out)
    }
}

pub(crate) fn push_word(word: &str, out: &mut Vec<u8>) -> Result<(), NoMemory>
    ensures { OnOk result (out.new.items ≡ out.old.items ++ word.now) }
{
    out.extend_from_slice(word.as_bytes())?;
    Ok(())
}

fn push_whole(whole: i64, out: &mut Vec<u8>) -> Result<(), NoMemory>
    ensures { OnOk result (out.new.items ≡ out.old.items ++ whole_text whole) }
{
    let mut buffer = Buffer::new();
    out.extend_from_slice(buffer.format(whole).as_bytes())?;
    Ok(())
}

// A text that has a number is told by it, and any other in quotes.
fn push_text(w: &World, text: StrId, out: &mut Vec<u8>) -> Result<(), NoMemory>
    requires { IsTold w.now text }
    ensures { OnOk result (out.new.items ≡ out.old.items ++ seen_text (numbered w.now) (text_at w.now.texts text)) }
{
    match w.long(text) {
        Some(number) => {
            out.push(b'~')?;
            push_number(number, out)
        }
        None => push_quoted(w.texts().units(text), out),
    }
}

fn push_quoted(units: &[u16], out: &mut Vec<u8>) -> Result<(), NoMemory>
    ensures { OnOk result (out.new.items ≡ out.old.items ++ 34 ∷ spelled true units.now ++ (34 ∷ [])) }
{
    out.push(b'"')?;
    spell(units, true, out)?;
    out.push(b'"')?;
    Ok(())
}

fn push_symbol(number: u32, out: &mut Vec<u8>) -> Result<(), NoMemory>
    ensures { OnOk result (out.new.items ≡ out.old.items ++ seen_symbol number) }
{
    push_word("@@", out)?;
    push_number(number, out)
}

fn push_object(number: u32, out: &mut Vec<u8>) -> Result<(), NoMemory>
    ensures { OnOk result (out.new.items ≡ out.old.items ++ 35 ∷ decimal number) }
{
    out.push(b'#')?;
    push_number(number, out)
}

fn push_built_in(place: u16, out: &mut Vec<u8>) -> Result<(), NoMemory>
    ensures { OnOk result (out.new.items ≡ out.old.items ++ 64 ∷ intrinsic_name place) }
{
    out.push(b'@')?;
    if place < 80 {
        push_word(name_of(place), out)
    } else {
        Ok(())
    }
}

fn push_key(w: &World, key: Key, out: &mut Vec<u8>) -> Result<(), NoMemory>
    requires { KeyTold w.now key }
    ensures { OnOk result (out.new.items ≡ out.old.items ++ seen_key (numbered w.now) (key_by w.now.texts key)) }
{
    match key {
        Key::Text { text, .. } => push_text(w, text, out),
        Key::Symbol(symbol) => push_symbol(symbol.0, out),
    }
}

fn push_keys(w: &World, keys: &[Key], out: &mut Vec<u8>) -> Result<(), NoMemory>
    requires { All (KeyTold w.now) keys.now }
    ensures { OnOk result (out.new.items ≡ out.old.items ++
        seen_keys (numbered w.now) (map (key_by w.now.texts) keys.now)) }
{
    out.push(b'[')?;
    push_joined(w, keys, out)?;
    out.push(b']')?;
    Ok(())
}

fn push_joined(w: &World, keys: &[Key], out: &mut Vec<u8>) -> Result<(), NoMemory>
    requires { All (KeyTold w.now) keys.now }
    ensures { OnOk result (out.new.items ≡ out.old.items ++
        join_by (seen_key (numbered w.now)) (44 ∷ []) (map (key_by w.now.texts) keys.now)) }
{
    match keys {
        [] => Ok(()),
        [first, rest @ ..] => {
            push_key(w, *first, out)?;
            push_more_keys(w, rest, out)?;
            Ok(())
        }
    }
}

// Each key with a comma before it.
fn push_more_keys(w: &World, keys: &[Key], out: &mut Vec<u8>) -> Result<(), NoMemory>
    requires { All (KeyTold w.now) keys.now }
    ensures { OnOk result (out.new.items ≡ out.old.items ++
        flat_map (λ key. 44 ∷ seen_key (numbered w.now) (key_by w.now.texts key)) keys.now) }
{
    for key in keys {
        out.push(b',')?;
        push_key(w, *key, out)?;
    }
    Ok(())
}

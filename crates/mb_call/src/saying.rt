// What an entry of the trace gives and answers.
ghost use Rattle.std.specs.Prelude.{◌≡◌, All, IfOk, option_map};
ghost use Rattle.mb_desc.specs.Descriptors.{descriptor_of};
ghost use Rattle.mb_frames.specs.Held.{AreIn, DescIn};
ghost use Rattle.mb_frames.specs.Holding.{answer_held, given_held, outcome_held};
ghost use Rattle.mb_frames.specs.Resolved.{answer_in, given_in, keys_of, outcome_in, real_in};
ghost use Rattle.mb_frames.specs.Real.{IsReal, IsRealAt};
ghost use Rattle.mb_frames.specs.Wholeness.{desc_values};
ghost use Rattle.mb_model.specs.Trace.Entries.{said_answer, said_outcome, said_property};
ghost use Rattle.mb_world.specs.Graph.{SaidKeys};
ghost use Rattle.mb_world.specs.Ids.{DescSeenIn, FullIn, KeyIn, Maybe, ObjIn, SaidIn, SeenIn, ValueIn};
ghost use Rattle.mb_world.specs.Image.{Resolve, desc_in, names_of, object_in, said_in, seen_in};
ghost use Rattle.mb_call.specs.machine.Standing.{AreReal, IsCounted, real_values, values_held};

use mb_base::{NoMemory, ObjId, Value};
use mb_desc::{Desc, Full};
use mb_frames::{Answer, Given, Outcome};
use mb_world::{CellKind, KeyList, Said, Seen, World};

// A value as the trace has it.
fn seen(w: &World, x: Value) -> Seen
    requires value { ValueIn w.now x }
    requires real { IsReal w.now x }
    ensures seen { seen_in w.now.texts result ≡ Resolve (names_of w.now) x }
    ensures within { SeenIn w.now result }
{
    match x {
        Value::Undefined => Seen::Undefined,
        Value::Null => Seen::Null,
        Value::Bool(b) => Seen::Bool(b),
        Value::Whole(n) => Seen::Whole(n),
        Value::Text(text) => Seen::Text(text),
        Value::Symbol(symbol) => Seen::Symbol(symbol.0),
        Value::Object(id) => seen_object(w, id),
    }
}

// What a reference stands for: a built-in, or an object by its number, which is that of the one behind a membrane
// proxy.
pub(crate) fn seen_object(w: &World, id: ObjId) -> Seen
    requires object { ObjIn w.now id }
    requires real { IsRealAt w.now id }
    ensures seen { seen_in w.now.texts result ≡ object_in (names_of w.now) id }
    ensures within { SeenIn w.now result }
{
    match w.cell(id).kind {
        CellKind::BuiltIn(place) => Seen::BuiltIn(place),
        CellKind::Membrane { behind, .. } => numbered(w, behind),
        _ => numbered(w, id),
    }
}

// An object by its number.
fn numbered(w: &World, id: ObjId) -> Seen
    requires { IsCounted w.now id }
    ensures seen { seen_in w.now.texts result ≡ object_in (names_of w.now) id }
    ensures within { SeenIn w.now result }
{
    match w.serial(id) {
        Some(number) => Seen::Object(number),
        None => unreachable!(),
    }
}

fn seen_if(w: &World, x: Option<Value>) -> Option<Seen>
    requires value { Maybe (ValueIn w.now) x }
    requires real { Maybe (IsReal w.now) x }
    ensures seen { option_map (seen_in w.now.texts) result ≡ option_map (Resolve (names_of w.now)) x }
    ensures within { Maybe (SeenIn w.now) result }
{
    match x {
        Some(x) => Some(seen(w, x)),
        None => None,
    }
}

fn seen_desc(w: &World, desc: Desc<Value>) -> Desc<Seen>
    requires within { DescIn w.now desc }
    requires real { AreReal w.now (desc_values desc) }
    ensures seen { desc_in (seen_in w.now.texts) result ≡ desc_in (Resolve (names_of w.now)) desc }
    ensures within { DescSeenIn w.now result }
{
    Desc {
        value: seen_if(w, desc.value),
        writable: desc.writable,
        get: seen_if(w, desc.get),
        set: seen_if(w, desc.set),
        enumerable: desc.enumerable,
        configurable: desc.configurable,
    }
}

// All of a property.
fn descriptor_of(full: Full<Value>) -> Desc<Value>
    ensures { result ≡ descriptor_of full }
{
    match full {
        Full::Datum {
            value,
            writable,
            enumerable,
            configurable,
        } => Desc {
            value: Some(value),
            writable: Some(writable),
            get: None,
            set: None,
            enumerable: Some(enumerable),
            configurable: Some(configurable),
        },
        Full::Accessor {
            get,
            set,
            enumerable,
            configurable,
        } => Desc {
            value: None,
            writable: None,
            get: Some(get),
            set: Some(set),
            enumerable: Some(enumerable),
            configurable: Some(configurable),
        },
    }
}

// What a method was given.
pub(crate) fn said_given(w: &World, given: Given) -> Said
    requires within { AreIn w.now (given_held given) }
    requires real { AreReal w.now (values_held (given_held given)) }
    ensures said { said_in w.now.texts result ≡ given_in (names_of w.now) given }
    ensures within { SaidIn w.now result }
{
    match given {
        Given::Nothing => Said::Nothing,
        Given::Value(x) => Said::Plain(seen(w, x)),
        Given::Desc(desc) => Said::Prop(seen_desc(w, desc)),
        Given::Pair { key, value } => Said::Pair(seen(w, key), seen(w, value)),
    }
}

// How a method ended.
pub(crate) fn said_outcome(w: &World, outcome: &Outcome) -> Result<Said, NoMemory>
    requires within { AreIn w.now (outcome_held outcome.now) }
    requires real { AreReal w.now (values_held (outcome_held outcome.now)) }
    ensures said { IfOk result (λ said.
        said_in w.now.texts said ≡ said_outcome (outcome_in (names_of w.now) outcome.now)) }
    ensures within { IfOk result (SaidIn w.now) }
{
    match outcome {
        Outcome::Normal(answer) => said_answer(w, answer),
        Outcome::Throw(x) => Ok(Said::Thrown(seen(w, *x))),
        _ => Ok(Said::Nothing),
    }
}

// What a method answered.
fn said_answer(w: &World, answer: &Answer) -> Result<Said, NoMemory>
    requires within { AreIn w.now (answer_held answer.now) }
    requires real { AreReal w.now (values_held (answer_held answer.now)) }
    ensures said { IfOk result (λ said.
        said_in w.now.texts said ≡ said_answer (answer_in (names_of w.now) answer.now)) }
    ensures within { IfOk result (SaidIn w.now) }
{
    match answer {
        Answer::Value(x) => Ok(Said::Plain(seen(w, *x))),
        Answer::Flag(b) => Ok(Said::Flag(*b)),
        Answer::Prop(found) => Ok(said_property(w, *found)),
        Answer::Given(desc) => Ok(Said::Prop(seen_desc(w, *desc))),
        Answer::Keys(keys) => said_keys(w, keys),
        Answer::Pair { key, value } => Ok(Said::Pair(seen(w, *key), seen(w, *value))),
        Answer::Empty => Ok(Said::Absent),
        _ => Ok(Said::Nothing),
    }
}

fn said_property(w: &World, found: Option<Full<Value>>) -> Said
    requires within { Maybe (FullIn w.now) found }
    requires real { AreReal w.now (real_values found) }
    ensures said { said_in w.now.texts result ≡ said_property (real_in (names_of w.now) found) }
    ensures within { SaidIn w.now result }
{
    match found {
        Some(property) => Said::Prop(seen_desc(w, descriptor_of(property))),
        None => Said::Absent,
    }
}

fn said_keys(w: &World, keys: &KeyList) -> Result<Said, NoMemory>
    requires { All (KeyIn w.now) keys.now }
    ensures said { IfOk result (λ said. said_in w.now.texts said ≡ SaidKeys (keys_of (names_of w.now) keys.now)) }
    ensures within { IfOk result (SaidIn w.now) }
{
    let copy = keys.items().to_vec(*w.trace().allocator())?;
    Ok(Said::Keys(KeyList::from(copy)))
}

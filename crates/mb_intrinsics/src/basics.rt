// `later`, `labelled`, `String` and `Symbol` (ECMA-262, 9.5, 20.4.1, 22.1.1).
ghost use Rattle.std.specs.Prelude.{◌≡◌, ◌∷◌, ℕ, IfOk, List, []};
ghost use Rattle.mb_frames.specs.Held.{HeldTextIf, HeldValue, HeldValues};
ghost use Rattle.mb_frames.specs.Passing.{Part};
ghost use Rattle.mb_frames.specs.Ready.{KeepsBy};
ghost use Rattle.mb_frames.specs.Resolved.{label_in, values_in};
ghost use Rattle.mb_frames.specs.Sorts.{AValue};
ghost use Rattle.mb_intrinsics.specs.machine.Acting.{Acting};
ghost use Rattle.mb_model.specs.BuiltIns.Basics.{labelled, later, string, symbol, symbol_described, symbol_of, symbol_string, value_string};
ghost use Rattle.mb_model.specs.Meaning.{finished};
ghost use Rattle.mb_world.specs.Graph.{Item};
ghost use Rattle.mb_world.specs.Ids.{HasItsIds, SymbolIn};
ghost use Rattle.mb_world.specs.Image.{Image, Resolve, names_of};
ghost use Rattle.mb_world.specs.Symbols.{symbol_text};
ghost use Rattle.mb_world.specs.Value.{text_of};

use crate::giving::value;
use crate::places::OBJECT_PROTOTYPE;
use mb_base::{NoMemory, Side, StrId, SymId, Value};
use mb_frames::{Halt, Move, Values, built_in};
use mb_parts::{callable, text_from, throws, type_error, word};
use mb_text::TextFault;
use mb_world::{CellKind, ErrorKind, Job, World};

// A function is called by a job of the acting side.
pub(crate) fn later(w: &mut World, home: Side, function: Value) -> Result<Move, Halt>
    requires acting { Acting w.old home (HeldValue function ∷ []) }
    ensures row { (f : ℕ) → Part home result w.old w.new f f
        (later home.0 (Resolve (names_of w.old) function) finished) }
    ensures keeps { KeepsBy home AValue result w.old w.new }
{
    match callable(w, function) {
        Some(_) => {
            w.add_job(home, Job::Call(function))?;
            Ok(value(Value::Undefined))
        }
        None => type_error(w, home),
    }
}

// A new plain object that has a text as its label.
pub(crate) fn labelled(w: &mut World, home: Side, text: Value) -> Result<Move, Halt>
    requires acting { Acting w.old home (HeldValue text ∷ []) }
    ensures row { (f : ℕ) → Part home result w.old w.new f f
        (labelled home.0 (text_of (Resolve (names_of w.old) text)) finished) }
    ensures keeps { KeepsBy home AValue result w.old w.new }
{
    match text {
        Value::Text(label) => {
            let prototype = built_in(w, home, OBJECT_PROTOTYPE);
            let object = w.make(home, CellKind::Plain, prototype, Some(label))?;
            Ok(value(Value::Object(object)))
        }
        _ => type_error(w, home),
    }
}

// The text of a primitive; of a symbol the text that describes it.
pub(crate) fn string(w: &mut World, home: Side, arguments: &Values) -> Result<Move, Halt>
    requires acting { Acting w.old home (HeldValues arguments.now ∷ []) }
    ensures row { (f : ℕ) → Part home result w.old w.new f f
        (string home.0 (values_in (names_of w.old) arguments.now) finished) }
    ensures keeps { KeepsBy home AValue result w.old w.new }
{
    match arguments.at(0) {
        None => Ok(value(Value::Text(word(w, &[])?))),
        Some(x) => match x {
            Value::Symbol(symbol) => described(w, home, symbol),
            _ => value_string(w, home, x),
        },
    }
}

// The text of a value.
fn value_string(w: &mut World, home: Side, x: Value) -> Result<Move, Halt>
    requires acting { Acting w.old home (HeldValue x ∷ []) }
    ensures row { (f : ℕ) → Part home result w.old w.new f f
        (value_string home.0 (Resolve (names_of w.old) x) finished) }
    ensures keeps { KeepsBy home AValue result w.old w.new }
{
    match text_from(w, x)? {
        Some(text) => Ok(value(Value::Text(text))),
        None => type_error(w, home),
    }
}

// The text that describes a symbol.
fn described(w: &mut World, home: Side, symbol: SymId) -> Result<Move, Halt>
    requires acting { Acting w.old home [] }
    requires symbol { SymbolIn w.old symbol }
    ensures row { (f : ℕ) → Part home result w.old w.new f f (symbol_string home.0 symbol.0 finished) }
    ensures keeps { KeepsBy home AValue result w.old w.new }
{
    let units = symbol_text(w, symbol)?;
    match w.intern(&units) {
        Ok(text) => {
            let _texts = w.texts();
            Ok(value(Value::Text(text)))
        }
        Err(TextFault::Long) => throws(w, home, ErrorKind::RangeError),
        Err(TextFault::NoMemory) => Err(Halt::NoMemory),
    }
}

// The units of `Symbol(` and of `)`.
const OPENED: [u16; 7] = [83, 121, 109, 98, 111, 108, 40];

const CLOSED: [u16; 1] = [41];

/// The units of the text that describes a symbol (ECMA-262, 20.4.3.3.1), which may be too long for a text.
pub fn symbol_text(w: &World, symbol: SymId) -> Result<Vec<u16>, NoMemory>
    requires ids { HasItsIds w.now }
    requires symbol { SymbolIn w.now symbol }
    ensures { IfOk result (λ units. (log : List Item) → symbol_text (Image w.now log) symbol.0 ≡ units.items) }
{
    let mut units = Vec::new(*w.trace().allocator());
    units.extend_from_slice(&OPENED)?;
    if let Some(text) = w.description(symbol) {
        units.extend_from_slice(w.texts().units(text))?;
    }
    units.extend_from_slice(&CLOSED)?;
    Ok(units)
}

// A new symbol, with the text of a value as its description.
pub(crate) fn symbol(w: &mut World, home: Side, description: Value) -> Result<Move, Halt>
    requires acting { Acting w.old home (HeldValue description ∷ []) }
    ensures row { (f : ℕ) → Part home result w.old w.new f f
        (symbol home.0 (Resolve (names_of w.old) description) finished) }
    ensures keeps { KeepsBy home AValue result w.old w.new }
{
    match description {
        Value::Undefined => new_symbol(w, home, None),
        _ => symbol_described(w, home, description),
    }
}

// A new symbol that the text of a value describes.
fn symbol_described(w: &mut World, home: Side, x: Value) -> Result<Move, Halt>
    requires acting { Acting w.old home (HeldValue x ∷ []) }
    ensures row { (f : ℕ) → Part home result w.old w.new f f
        (symbol_described home.0 (Resolve (names_of w.old) x) finished) }
    ensures keeps { KeepsBy home AValue result w.old w.new }
{
    match text_from(w, x)? {
        Some(text) => new_symbol(w, home, Some(text)),
        None => type_error(w, home),
    }
}

// A new symbol.
fn new_symbol(w: &mut World, home: Side, description: Option<StrId>) -> Result<Move, Halt>
    requires acting { Acting w.old home (HeldTextIf description ∷ []) }
    ensures row { (f : ℕ) → Part home result w.old w.new f f
        (symbol_of (label_in (names_of w.old) description) finished) }
    ensures keeps { KeepsBy home AValue result w.old w.new }
{
    let symbol = w.make_symbol(description)?;
    Ok(value(Value::Symbol(symbol)))
}

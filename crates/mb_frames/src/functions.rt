// Functions that rows make (ECMA-262, 10.2.3, 10.2.5).
ghost use Rattle.std.specs.Prelude.{◌≡◌, ◌<◌, ◌≤◌, ◌-◌, ◌^◌, ◌∷◌, [], false, is_some, length, pos, true, IfOk, OnOk};
ghost use Rattle.mb_base.specs.declared.value.ObjId.{ObjId as AnObjId};
ghost use Rattle.mb_base.specs.declared.value.Side.{Side as ASide};
ghost use Rattle.mb_base.specs.declared.value.Value.TheVariants.{Whole};
ghost use Rattle.mb_desc.specs.Descriptors.{is_configurable};
ghost use Rattle.mb_desc.specs.declared.descriptor.Full.TheVariants.{Datum};
ghost use Rattle.mb_frames.specs.Going.{Makes};
ghost use Rattle.mb_frames.specs.Held.{HeldFull, HeldPrototype};
ghost use Rattle.mb_frames.specs.Keeping.{KeepsOn, none_held};
ghost use Rattle.mb_frames.specs.Making.{HasPrototypes, IsOpen, Puts, code_held, function_held};
ghost use Rattle.mb_frames.specs.Ready.{MayHold};
ghost use Rattle.mb_frames.specs.Resolved.{label_in};
ghost use Rattle.mb_frames.specs.Running.{CanRun};
ghost use Rattle.mb_frames.specs.machine.Making.{MakesOf};
ghost use Rattle.mb_model.specs.Operations.Makings.{function_thing, make_constructor, make_function};
ghost use Rattle.mb_model.specs.Writing.{make};
ghost use Rattle.mb_text.specs.Index.{index_of};
ghost use Rattle.mb_world.specs.Data.{built_in_of};
ghost use Rattle.mb_world.specs.Ids.{FullIn, HasItsIds, Maybe, ObjIn, ScopeIn, TextIn, ValueIn};
ghost use Rattle.mb_world.specs.Image.{Resolve, code_in, names_of, object_in, text_in};
ghost use Rattle.mb_world.specs.Value.{BuiltIn};

use crate::machine::Halt;
use mb_base::{Key, ObjId, Side, StrId, Value};
use mb_desc::Full;
use mb_text::TextFault;
use mb_world::{CellKind, Code, World};

// The places of Function.prototype and Object.prototype.
const FUNCTION_PROTOTYPE: u16 = 12;

const OBJECT_PROTOTYPE: u16 = 13;

// The units of the texts `length`, `name`, `prototype` and `constructor`.
const LENGTH: [u16; 6] = [108, 101, 110, 103, 116, 104];

const NAME: [u16; 4] = [110, 97, 109, 101];

const PROTOTYPE: [u16; 9] = [112, 114, 111, 116, 111, 116, 121, 112, 101];

const CONSTRUCTOR: [u16; 11] = [99, 111, 110, 115, 116, 114, 117, 99, 116, 111, 114];

/// A function of a node in a scope, with its `length` and `name`, and with a `prototype` where it constructs
/// (ECMA-262, 10.2.3, 10.2.5, 10.2.9, 10.2.10). `params` is the number of the node's Params. `NoMemory` may leave parts
/// of it, which nothing names, and never another halt.
pub fn make_function(
    w: &mut World,
    code: Code,
    label: Option<StrId>,
    params: usize,
    name: StrId,
) -> Result<ObjId, Halt>
    requires world { CanRun w.old code.side }
    requires built_ins { HasPrototypes w.old code.side }
    requires scope { ScopeIn w.old code.scope }
    requires this { Maybe (ValueIn w.old) code.bound_this }
    requires label { Maybe (TextIn w.old) label }
    requires name { TextIn w.old name }
    requires params { params < 2 ^ 53 }
    ensures makes { Makes result w.old w.new (make_function (code_in (names_of w.old) code)
        (label_in (names_of w.old) label) params (text_in (names_of w.old) name)) }
    ensures made { IfOk result (ObjIn w.new) }
    ensures keeps { KeepsOn code.side (code_held code label name) function_held result w.old w.new }
    ensures ids { HasItsIds w.new }
    ensures built_ins { OnOk result (HasPrototypes w.new code.side) }
{
    let function = bare_function(w, code, label, params, name)?;
    let constructs = code.constructs;
    if constructs {
        make_constructor(w, code.side, function)?;
        return Ok(function);
    }
    Ok(function)
}

// A function with its `length` and `name` (ECMA-262, 10.2.3, 10.2.9, 10.2.10).
fn bare_function(
    w: &mut World,
    code: Code,
    label: Option<StrId>,
    params: usize,
    name: StrId,
) -> Result<ObjId, Halt>
    requires world { CanRun w.old code.side }
    requires built_ins { HasPrototypes w.old code.side }
    requires scope { ScopeIn w.old code.scope }
    requires this { Maybe (ValueIn w.old) code.bound_this }
    requires label { Maybe (TextIn w.old) label }
    requires name { TextIn w.old name }
    requires params { params < 2 ^ 53 }
    ensures makes { Makes result w.old w.new (make (function_thing code.side.0 (label_in (names_of w.old) label)
        (code_in (names_of w.old) code) params (text_in (names_of w.old) name))) }
    ensures object { IfOk result (IsOpen w.new code.side) }
    ensures keeps { KeepsOn code.side (code_held code label name) function_held result w.old w.new }
    ensures ids { HasItsIds w.new }
    ensures built_ins { OnOk result (HasPrototypes w.new code.side) }
{
    let _before = w.texts();
    let kind = CellKind::Function(code);
    let prototype = built_in(w, code.side, FUNCTION_PROTOTYPE);
    let function = w.make(code.side, kind, prototype, label)?;
    let _made = w.texts();
    put(w, function, &LENGTH, fixed_value(whole(params)))?;
    put(w, function, &NAME, fixed_value(Value::Text(name)))?;
    Ok(function)
}

// An object that a function constructs has this prototype (ECMA-262, 10.2.5).
fn make_constructor(w: &mut World, home: Side, function: ObjId) -> Result<(), Halt>
    requires world { CanRun w.old home }
    requires built_ins { HasPrototypes w.old home }
    requires function { IsOpen w.old home function }
    ensures makes { (id : AnObjId) → id ≡ function → MakesOf result w.old w.new id
        (make_constructor home.0 true (object_in (names_of w.old) function)) }
    ensures keeps { KeepsOn home [] none_held result w.old w.new }
    ensures ids { HasItsIds w.new }
    ensures object { OnOk result (ObjIn w.new function) }
    ensures built_ins { OnOk result (HasPrototypes w.new home) }
{
    let prototype = built_in(w, home, OBJECT_PROTOTYPE);
    let made = w.make(home, CellKind::Plain, prototype, None)?;
    let _made = w.texts();
    put(
        w,
        function,
        &PROTOTYPE,
        Full::Datum {
            value: Value::Object(made),
            writable: true,
            enumerable: false,
            configurable: false,
        },
    )?;
    put(
        w,
        made,
        &CONSTRUCTOR,
        Full::Datum {
            value: Value::Object(function),
            writable: true,
            enumerable: false,
            configurable: true,
        },
    )?;
    Ok(())
}

// A property that can't be written nor listed.
fn fixed_value(value: Value) -> Full<Value>
    ensures { result ≡ Datum value false false true }
{
    Full::Datum {
        value,
        writable: false,
        enumerable: false,
        configurable: true,
    }
}

// A count as a value.
fn whole(n: usize) -> Value
    requires { n < 2 ^ 53 }
    ensures { result ≡ Whole (pos n) }
{
    Value::Whole(n as i64)
}

/// The built-in of a side at a place of the table, which is there.
pub fn built_in(w: &World, home: Side, place: u16) -> Value
    requires { is_some (built_in_of w.now.joined w.now.cells home place) ≡ true }
    ensures value { Resolve (names_of w.now) result ≡ BuiltIn place }
    ensures ids { ValueIn w.now result }
    ensures held { MayHold w.now home (HeldPrototype result) }
{
    match w.built_in(home, place) {
        Some(id) => Value::Object(id),
        None => unreachable!(),
    }
}

/// Sets a property of that text, which is no index, of an object. `NoMemory` may leave the text in the table, and never
/// another halt.
pub fn put(w: &mut World, object: ObjId, text: &[u16], full: Full<Value>) -> Result<(), Halt>
    requires object { ObjIn w.old object }
    requires full { FullIn w.old full }
    requires short { length text.now ≤ 2 ^ 20 }
    requires name { index_of text.now ≡ 2 ^ 32 - 1 }
    ensures puts { Puts result w.old w.new object text.now full }
    ensures keeps { (home : ASide) → IsOpen w.old home object →
        KeepsOn home (HeldFull full ∷ []) none_held result w.old w.new }
    ensures stays_open { (home : ASide) → IsOpen w.old home object → is_configurable full ≡ true →
        OnOk result (IsOpen w.new home object) }
    ensures ids { HasItsIds w.new }
{
    let _before = w.texts();
    let text = match w.intern(text) {
        Ok(text) => text,
        Err(TextFault::NoMemory) => return Err(Halt::NoMemory),
        Err(TextFault::Long) => unreachable!(),
    };
    let key = Key::Text {
        text,
        index: u32::MAX,
    };
    let _named = w.texts();
    w.put(object, key, full)?;
    let _texts = w.texts();
    Ok(())
}

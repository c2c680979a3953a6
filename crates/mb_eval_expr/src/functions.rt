// Functions of expressions (ECMA-262, 15.2.5, 15.3.4, 15.4.4).
ghost use Rattle.std.specs.Prelude.{◌≡◌, ◌≤◌, ◌<◌, ◌^◌, ◌++◌, ◌∷◌, [], ℕ, IfOk, None, Some, false, length, true};
ghost use Rattle.mb_frames.specs.Passing.{Part, TextsGrew};
ghost use Rattle.mb_frames.specs.Resolved.{context_in, label_in};
ghost use Rattle.mb_model.specs.Meaning.{finished};
ghost use Rattle.mb_model.specs.Nodes.Literals.{function_row, keyed_function};
ghost use Rattle.mb_model.specs.Nodes.Scopes.{code};
ghost use Rattle.mb_model.specs.Operations.Makings.{make_function};
ghost use Rattle.mb_model.specs.Writing.{◌>>=◌ as after_that, is_value};
ghost use Rattle.mb_world.specs.Form.{FunctionParts as TheParts};
ghost use Rattle.mb_world.specs.Symbols.{bracketed, key_name};
ghost use Rattle.mb_world.specs.Ids.{HasItsIds, KeyIn, Maybe, ScopeIn, TextIn, ValueIn};
ghost use Rattle.mb_world.specs.Image.{Resolve, code_in, key_in, names_of, text_in};
ghost use Rattle.mb_eval_expr.specs.machine.Functions.{MakesKeyed, NamedAs, named_row};
ghost use Rattle.mb_parts.specs.Standing.{Acts, ContextIn};
ghost use Rattle.mb_frames.specs.Held.{HeldNode, HeldText};
ghost use Rattle.mb_frames.specs.Making.{code_held, function_held, is_function_of};
ghost use Rattle.mb_frames.specs.Ready.{Changed, Holds, IsReady, Keeps};
ghost use Rattle.mb_frames.specs.Sorts.{AValue};
ghost use Rattle.mb_eval_expr.specs.machine.Keeping.{context_held};

use crate::giving::value;
use mb_base::{Fuel, Key, NoMemory, NodeId, ObjId, Side, StrId, Value};
use mb_frames::{Context, Halt, Move, make_function};
use mb_parts::{initialize, word};
use mb_text::TextFault;
use mb_world::{Bound, Code, Names, Scope, World};
use std::alloc::Global;

// No tree has more nodes, and so no function more Params.
const MOST_PARAMS: usize = 1 << 31;

// An arrow function: it has no `this` of its own.
pub(crate) fn arrow_row(
    w: &mut World,
    home: Side,
    at: Context,
    node: NodeId,
    params: usize,
) -> Result<Move, Halt>
    requires acts { Acts w.old home }
    requires at { ContextIn w.old at }
    ensures row { (f : ℕ) → Part home result w.old w.new f f (after_that (make_function
        (code home.0 node.0 at.scope.0 false (Some (Resolve (names_of w.old) at.this))) None params [])
        is_value finished) }
    ensures keeps { Keeps home AValue (HeldNode (is_function_of false true) node.0 ∷ context_held at) result w.old
        w.new }
{
    let name = word(w, &[])?;
    let code = Code {
        side: home,
        node,
        scope: at.scope,
        constructs: false,
        bound_this: Some(at.this),
    };
    made(w, code, None, params, name)
}

// A function is made, and given.
fn made(
    w: &mut World,
    code: Code,
    label: Option<StrId>,
    params: usize,
    name: StrId,
) -> Result<Move, Halt>
    requires acts { Acts w.old code.side }
    requires scope { ScopeIn w.old code.scope }
    requires this { Maybe (ValueIn w.old) code.bound_this }
    requires label { Maybe (TextIn w.old) label }
    requires name { TextIn w.old name }
    ensures row { (f : ℕ) → Part code.side result w.old w.new f f (after_that (make_function
        (code_in (names_of w.old) code) (label_in (names_of w.old) label) params (text_in (names_of w.old) name))
        is_value finished) }
    ensures keeps { Keeps code.side AValue (code_held code label name) result w.old w.new }
{
    if params > MOST_PARAMS {
        return Err(Halt::NoMemory);
    }
    let function = make_function(w, code, label, params, name)?;
    Ok(value(Value::Object(function)))
}

// A function expression; a named one closes over one more scope, which binds its name for good.
pub(crate) fn function_row(
    w: &mut World,
    fuel: &mut Fuel,
    alloc: Global,
    home: Side,
    at: Context,
    node: NodeId,
    name: Option<StrId>,
    params: usize,
) -> Result<Move, Halt>
    requires acts { Acts w.old home }
    requires at { ContextIn w.old at }
    requires name { Maybe (TextIn w.old) name }
    ensures row { (parts : TheParts) → length parts.params ≡ params → Part home result w.old w.new fuel.old fuel.new
        (function_row (context_in (names_of w.old) home.0 at) node.0 parts (label_in (names_of w.old) name) finished) }
    ensures keeps { Keeps home AValue (HeldNode (is_function_of true false) node.0 ∷ context_held at) result w.old
        w.new }
{
    match name {
        Some(name) => {
            fuel.charge(1)?;
            named_function(w, alloc, home, at, node, name, params)
        }
        None => {
            let name = word(w, &[])?;
            let code = Code {
                side: home,
                node,
                scope: at.scope,
                constructs: true,
                bound_this: None,
            };
            made(w, code, None, params, name)
        }
    }
}

// A named function expression, its name's unit being paid.
fn named_function(
    w: &mut World,
    alloc: Global,
    home: Side,
    at: Context,
    node: NodeId,
    name: StrId,
    params: usize,
) -> Result<Move, Halt>
    requires acts { Acts w.old home }
    requires at { ContextIn w.old at }
    requires name { TextIn w.old name }
    ensures row { (f : ℕ) → Part home result w.old w.new f f
        (named_row home.0 at.scope.0 node.0 params (text_in (names_of w.old) name) finished) }
    ensures keeps { Keeps home AValue (HeldNode (is_function_of true false) node.0 ∷ HeldText name ∷ context_held at)
        result w.old w.new }
{
    if params > MOST_PARAMS {
        return Err(Halt::NoMemory);
    }
    let mut names = Names::new(alloc);
    names.push(Bound {
        name,
        value: None,
        fixed: true,
    })?;
    let scope = w.add_scope(Scope {
        home,
        parent: Some(at.scope),
        names,
    })?;
    let _scoped = w.texts();
    let code = Code {
        side: home,
        node,
        scope,
        constructs: true,
        bound_this: None,
    };
    let function = make_function(w, code, Some(name), params, name)?;
    initialize(w, scope, name, Value::Object(function))?;
    Ok(value(Value::Object(function)))
}

// The function of a method, getter or setter, whose name is a prefix and the key; `None` where that is too long for a
// text.
pub(crate) fn keyed_function(
    w: &mut World,
    home: Side,
    at: Context,
    node: NodeId,
    params: usize,
    prefix: &[u16],
    key: Key,
) -> Result<Option<ObjId>, Halt>
    requires ready { IsReady w.old }
    requires inside { home.0 < w.old.sides }
    requires prefix { length prefix.now ≤ 4 }
    requires key { KeyIn w.old key }
    requires at { ContextIn w.old at }
    requires holds { Holds w.old home (HeldNode (is_function_of false false) node.0 ∷ context_held at) }
    ensures makes { (parts : TheParts) → length parts.params ≡ params → MakesKeyed home result w.old w.new
        (keyed_function (context_in (names_of w.old) home.0 at) node.0 parts prefix.now (key_in (names_of w.old) key)) }
    ensures changed { Changed home w.old w.new }
    ensures holds { IfOk result (λ id. Maybe (λ f. Holds w.new home (function_held f)) id) }
{
    match full_name(w, prefix, key)? {
        Some(name) => {
            if params > MOST_PARAMS {
                return Err(Halt::NoMemory);
            }
            let code = Code {
                side: home,
                node,
                scope: at.scope,
                constructs: false,
                bound_this: None,
            };
            let function = make_function(w, code, None, params, name)?;
            Ok(Some(function))
        }
        None => Ok(None),
    }
}

// A prefix and a key as the name of a function; `None` where they are too long for a text.
fn full_name(w: &mut World, prefix: &[u16], key: Key) -> Result<Option<StrId>, NoMemory>
    requires prefix { length prefix.now ≤ 4 }
    requires key { KeyIn w.old key }
    requires ids { HasItsIds w.old }
    ensures name { IfOk result (λ name. NamedAs w.old w.new name
        (λ g. prefix.now ++ key_name g (key_in (names_of w.old) key))) }
    ensures short { IfOk result (λ name. Maybe (λ t. length (text_in (names_of w.new) t) ≤ 2 ^ 20) name) }
    ensures grew { TextsGrew w.old w.new }
{
    let first = word(w, prefix)?;
    match key_name(w, key)? {
        Some(last) => joined(w, first, last),
        None => Ok(None),
    }
}

// A key as the name of a function (ECMA-262, 10.2.9); `None` where it is too long for a text.
fn key_name(w: &mut World, key: Key) -> Result<Option<StrId>, NoMemory>
    requires key { KeyIn w.old key }
    requires ids { HasItsIds w.old }
    ensures name { IfOk result (λ name. NamedAs w.old w.new name (λ g. key_name g (key_in (names_of w.old) key))) }
    ensures grew { TextsGrew w.old w.new }
{
    match key {
        Key::Text { text, .. } => Ok(Some(text)),
        Key::Symbol(symbol) => match w.description(symbol) {
            Some(description) => bracketed(w, description),
            None => {
                let text = word(w, &[])?;
                Ok(Some(text))
            }
        },
    }
}

// A text in brackets.
fn bracketed(w: &mut World, text: StrId) -> Result<Option<StrId>, NoMemory>
    requires text { TextIn w.old text }
    requires ids { HasItsIds w.old }
    ensures name { IfOk result (λ name. NamedAs w.old w.new name
        (λ g. bracketed (Some (text_in (names_of w.old) text)))) }
    ensures grew { TextsGrew w.old w.new }
{
    let open = word(w, &[91])?;
    match joined(w, open, text)? {
        Some(half) => {
            let close = word(w, &[93])?;
            joined(w, half, close)
        }
        None => Ok(None),
    }
}

// One text and another behind it; `None` where they are too long for a text.
fn joined(w: &mut World, a: StrId, b: StrId) -> Result<Option<StrId>, NoMemory>
    requires first { TextIn w.old a }
    requires second { TextIn w.old b }
    requires ids { HasItsIds w.old }
    ensures name { IfOk result (λ name. NamedAs w.old w.new name
        (λ g. text_in (names_of w.old) a ++ text_in (names_of w.old) b)) }
    ensures short { IfOk result (λ name. Maybe (λ t. length (text_in (names_of w.new) t) ≤ 2 ^ 20) name) }
    ensures grew { TextsGrew w.old w.new }
{
    match w.join(a, b) {
        Ok(text) => {
            let _after = w.texts();
            Ok(Some(text))
        }
        Err(TextFault::Long) => Ok(None),
        Err(TextFault::NoMemory) => Err(NoMemory),
    }
}

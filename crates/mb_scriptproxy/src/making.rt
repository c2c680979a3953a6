// Proxy, Proxy.revocable and what revokes a Proxy (ECMA-262, 10.5.14, 28.2).
ghost use Rattle.std.specs.Prelude.{◌≡◌, ◌&&◌, ◌∷◌, [], ℕ, List, IfOk, IfSome, false, is_some, true};
ghost use Rattle.mb_base.specs.declared.value.Side.{Side as ASide};
ghost use Rattle.mb_base.specs.declared.value.Value.TheVariants as TheValue;
ghost use Rattle.mb_desc.specs.declared.descriptor.Full.TheVariants.{Datum};
ghost use Rattle.mb_frames.specs.Going.{Makes};
ghost use Rattle.mb_frames.specs.Held.{HeldObject, HeldValue, HeldValues};
ghost use Rattle.mb_frames.specs.Keeping.{KeepsAnswer};
ghost use Rattle.mb_frames.specs.Passing.{Part};
ghost use Rattle.mb_frames.specs.Ready.{KeepsBy, MayHold};
ghost use Rattle.mb_frames.specs.Real.{IsRealAt};
ghost use Rattle.mb_frames.specs.Resolved.{values_in};
ghost use Rattle.mb_frames.specs.Sorts.{AValue, AnObject, run_gives};
ghost use Rattle.mb_model.specs.BuiltIns.Arguments.{arg};
ghost use Rattle.mb_model.specs.BuiltIns.ProxyMaking.{may_be_target, proxy_and_revoker, proxy_create, proxy_fn};
ghost use Rattle.mb_model.specs.BuiltIns.ProxyMaking.{revocable, revoker_thing};
ghost use Rattle.mb_model.specs.Meaning.{finished};
ghost use Rattle.mb_model.specs.Writing.{◌>>=◌ as after_that, is_value, make};
ghost use Rattle.mb_world.specs.Data.{Data, cell_at};
ghost use Rattle.mb_world.specs.Graph.{Item};
ghost use Rattle.mb_world.specs.Ids.{ObjIn, TextIn};
ghost use Rattle.mb_world.specs.Image.{Image, Names, Resolve, kind_in, names_of, object_in, text_in};
ghost use Rattle.mb_world.specs.Objects.{is_proxy_kind, shape_of, thing_at, thing_is};
ghost use Rattle.mb_world.specs.Value.{is_object};
ghost use Rattle.mb_call.specs.Ours.{Acts};
ghost use Rattle.mb_scriptproxy.specs.Ours.{IsProxy};
ghost use Rattle.mb_scriptproxy.specs.machine.Making.{is_array_kind, object_held};

use crate::errors::type_error;
use crate::giving::gives;
use mb_base::{ObjId, Side, StrId, Value};
use mb_desc::Full;
use mb_frames::{Answer, Halt, Move, Values, built_in, put};
use mb_parts::{callable, constructor, word};
use mb_world::{CellKind, Shape, World};

// The places of Function.prototype and Object.prototype.
const FUNCTION_PROTOTYPE: u16 = 12;

const OBJECT_PROTOTYPE: u16 = 13;

// The units of the texts `length`, `name`, `proxy` and `revoke`.
const LENGTH: [u16; 6] = [108, 101, 110, 103, 116, 104];

const NAME: [u16; 4] = [110, 97, 109, 101];

const PROXY: [u16; 5] = [112, 114, 111, 120, 121];

const REVOKE: [u16; 6] = [114, 101, 118, 111, 107, 101];

// ---- Proxy

// Proxy (ECMA-262, 28.2.1.1), which only constructs.
pub(crate) fn proxy_fn(
    w: &mut World,
    home: Side,
    arguments: &Values,
    target: Value,
) -> Result<Move, Halt>
    requires acts { Acts w.old home (HeldValues arguments.now ∷ []) }
    ensures part { (f : ℕ) → Part home result w.old w.new f f (proxy_fn home.0
        (values_in (names_of w.old) arguments.now) (Resolve (names_of w.old) target) finished) }
    ensures keeps { KeepsBy home (run_gives target true) result w.old w.new }
{
    match target {
        Value::Undefined => type_error(w, home),
        _ => construct_proxy(w, home, arguments),
    }
}

// A Proxy of the two arguments.
fn construct_proxy(w: &mut World, home: Side, arguments: &Values) -> Result<Move, Halt>
    requires acts { Acts w.old home (HeldValues arguments.now ∷ []) }
    ensures part { (f : ℕ) → Part home result w.old w.new f f (after_that (proxy_create home.0
        (arg (values_in (names_of w.old) arguments.now) 0) (arg (values_in (names_of w.old) arguments.now) 1))
        is_value finished) }
    ensures keeps { KeepsBy home AnObject result w.old w.new }
{
    match proxied(w, home, argument(arguments, 0), argument(arguments, 1)) {
        Some((target, handler)) => {
            let proxy = new_proxy(w, home, target, handler)?;
            Ok(gives(Answer::Value(Value::Object(proxy))))
        }
        None => type_error(w, home),
    }
}

// The argument at a place, or undefined.
fn argument(arguments: &Values, place: usize) -> Value
    ensures means { (n : Names) → arg (values_in n arguments.now) place ≡ Resolve n result }
    ensures held { (d : Data) (home : ASide) → MayHold d home (HeldValues arguments.now) →
        MayHold d home (HeldValue result) }
{
    match arguments.at(place) {
        Some(x) => x,
        None => Value::Undefined,
    }
}

// The two objects of which a Proxy can be made: the target is no Proxy, nor a membrane proxy before one.
fn proxied(w: &World, home: Side, target: Value, handler: Value) -> Option<(ObjId, ObjId)>
    requires acts { Acts w.now home (HeldValue target ∷ HeldValue handler ∷ []) }
    ensures able { (log : List Item) → is_some result ≡ (may_be_target (Image w.now log)
        (Resolve (names_of w.now) target) && is_object (Resolve (names_of w.now) handler)) }
    ensures target { IfSome result (λ parts. target ≡ TheValue.Object parts.0) }
    ensures handler { IfSome result (λ parts. handler ≡ TheValue.Object parts.1) }
{
    match target {
        Value::Object(target) => match handler {
            Value::Object(handler) => {
                if is_proxy(w, target) {
                    None
                } else {
                    Some((target, handler))
                }
            }
            _ => None,
        },
        _ => None,
    }
}

// Whether an object, or the one behind a membrane proxy, is a Proxy.
fn is_proxy(w: &World, object: ObjId) -> bool
    requires object { ObjIn w.now object }
    requires real { IsRealAt w.now object }
    ensures { (log : List Item) →
        thing_is is_proxy_kind (thing_at (Image w.now log) (object_in (names_of w.now) object)) ≡ result }
{
    matches!(real_kind(w, object), CellKind::Proxy { .. })
}

// Whether it is an array.
fn is_array(w: &World, object: ObjId) -> bool
    requires object { ObjIn w.now object }
    requires real { IsRealAt w.now object }
    ensures { (log : List Item) →
        thing_is is_array_kind (thing_at (Image w.now log) (object_in (names_of w.now) object)) ≡ result }
{
    matches!(real_kind(w, object), CellKind::Array)
}

// The kind of an object, or of the one behind a membrane proxy.
fn real_kind(w: &World, object: ObjId) -> &CellKind
    requires object { ObjIn w.now object }
    requires real { IsRealAt w.now object }
    ensures proxy { (log : List Item) →
        thing_is is_proxy_kind (thing_at (Image w.now log) (object_in (names_of w.now) object))
        ≡ is_proxy_kind (kind_in (names_of w.now) [] result.now) }
    ensures array { (log : List Item) →
        thing_is is_array_kind (thing_at (Image w.now log) (object_in (names_of w.now) object))
        ≡ is_array_kind (kind_in (names_of w.now) [] result.now) }
{
    match &w.cell(object).kind {
        CellKind::Membrane { behind, .. } => &w.cell(*behind).kind,
        kind => kind,
    }
}

// What a Proxy of a target is for whoever calls it.
fn shape_of(w: &World, home: Side, target: ObjId) -> Shape
    requires acts { Acts w.now home (HeldObject target ∷ []) }
    requires able { (log : List Item) → may_be_target (Image w.now log) (object_in (names_of w.now) target) ≡ true }
    ensures { (log : List Item) → shape_of (Image w.now log) (object_in (names_of w.now) target) ≡ result }
{
    let object = Value::Object(target);
    if is_array(w, target) {
        Shape::Array
    } else if constructor(w, object).is_some() {
        Shape::Constructs
    } else if callable(w, object).is_some() {
        Shape::Calls
    } else {
        Shape::Plain
    }
}

// ProxyCreate (ECMA-262, 10.5.14).
fn new_proxy(w: &mut World, home: Side, target: ObjId, handler: ObjId) -> Result<ObjId, Halt>
    requires acts { Acts w.old home (HeldObject target ∷ HeldObject handler ∷ []) }
    requires able { (log : List Item) → may_be_target (Image w.old log) (object_in (names_of w.old) target) ≡ true }
    ensures makes { Makes result w.old w.new (proxy_create home.0 (object_in (names_of w.old) target)
        (object_in (names_of w.old) handler)) }
    ensures keeps { KeepsAnswer home object_held result w.old w.new }
    ensures proxy { IfOk result (λ id. IsProxy (cell_at w.new id)) }
{
    let kind = CellKind::Proxy {
        target: Some(target),
        handler: Some(handler),
        shape: shape_of(w, home, target),
    };
    let proxy = w.make(home, kind, Value::Null, None)?;
    Ok(proxy)
}

// ---- Proxy.revocable

// Proxy.revocable (ECMA-262, 28.2.2.1).
pub(crate) fn revocable(w: &mut World, home: Side, arguments: &Values) -> Result<Move, Halt>
    requires acts { Acts w.old home (HeldValues arguments.now ∷ []) }
    ensures part { (f : ℕ) → Part home result w.old w.new f f (revocable home.0
        (values_in (names_of w.old) arguments.now) finished) }
    ensures keeps { KeepsBy home AValue result w.old w.new }
{
    match proxied(w, home, argument(arguments, 0), argument(arguments, 1)) {
        Some((target, handler)) => {
            let proxy = new_proxy(w, home, target, handler)?;
            let revoker = new_revoker(w, home, proxy)?;
            let pair = proxy_and_revoker(w, home, proxy, revoker)?;
            Ok(gives(Answer::Value(Value::Object(pair))))
        }
        None => type_error(w, home),
    }
}

// The function that revokes a Proxy.
fn new_revoker(w: &mut World, home: Side, proxy: ObjId) -> Result<ObjId, Halt>
    requires acts { Acts w.old home (HeldObject proxy ∷ []) }
    requires proxy { IsProxy (cell_at w.old proxy) }
    ensures makes { Makes result w.old w.new (make (revoker_thing home.0 (object_in (names_of w.old) proxy))) }
    ensures keeps { KeepsAnswer home object_held result w.old w.new }
{
    let empty = word(w, &[])?;
    bare_revoker(w, home, proxy, empty)
}

// It has a `length` of 0 and that name.
fn bare_revoker(w: &mut World, home: Side, proxy: ObjId, name: StrId) -> Result<ObjId, Halt>
    requires acts { Acts w.old home (HeldObject proxy ∷ []) }
    requires proxy { IsProxy (cell_at w.old proxy) }
    requires name { TextIn w.old name }
    requires empty { text_in (names_of w.old) name ≡ [] }
    ensures makes { Makes result w.old w.new (make (revoker_thing home.0 (object_in (names_of w.old) proxy))) }
    ensures keeps { KeepsAnswer home object_held result w.old w.new }
{
    let prototype = built_in(w, home, FUNCTION_PROTOTYPE);
    let revoker = w.make(home, CellKind::Revoker(proxy), prototype, None)?;
    let _made = w.texts();
    put(w, revoker, &LENGTH, fixed_value(Value::Whole(0)))?;
    put(w, revoker, &NAME, fixed_value(Value::Text(name)))?;
    Ok(revoker)
}

// A property that can't be written nor listed.
fn fixed_value(value: Value) -> Full<Value>
    ensures { result ≡ Datum value false false true }
{
    Full::Datum {
        value,
        writable: false,
        enumerable: false,
        configurable: true,
    }
}

// The object with `proxy` and `revoke`.
fn proxy_and_revoker(w: &mut World, home: Side, proxy: ObjId, revoker: ObjId) -> Result<ObjId, Halt>
    requires acts { Acts w.old home (HeldObject proxy ∷ HeldObject revoker ∷ []) }
    ensures makes { Makes result w.old w.new (make (proxy_and_revoker home.0 (object_in (names_of w.old) proxy)
        (object_in (names_of w.old) revoker))) }
    ensures keeps { KeepsAnswer home object_held result w.old w.new }
{
    let prototype = built_in(w, home, OBJECT_PROTOTYPE);
    let pair = w.make(home, CellKind::Plain, prototype, None)?;
    let _made = w.texts();
    put(w, pair, &PROXY, open_object(proxy))?;
    put(w, pair, &REVOKE, open_object(revoker))?;
    Ok(pair)
}

// A property that holds an object and can be written, listed and changed.
fn open_object(object: ObjId) -> Full<Value>
    ensures { result ≡ Datum (TheValue.Object object) true true true }
{
    Full::Datum {
        value: Value::Object(object),
        writable: true,
        enumerable: true,
        configurable: true,
    }
}

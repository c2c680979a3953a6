// Descriptors that are read of objects (ECMA-262, 6.2.6.5).
ghost use Rattle.std.specs.Prelude.{◌≡◌, ◌<◌, ◌∷◌, ◌||◌, [], ℕ, List, None, true, is_some, IfOk, IfSome, OnErr, OnOk};
ghost use Rattle.mb_desc.specs.Descriptors.{IsOfOneKind};
ghost use Rattle.mb_frames.specs.Held.{HeldDesc, HeldFields, HeldObject, HeldValue};
ghost use Rattle.mb_frames.specs.Holding.{desc_held};
ghost use Rattle.mb_frames.specs.Passing.{Part, TextsGrew};
ghost use Rattle.mb_frames.specs.Ready.{Holds, IsReady, KeepsBy, Leaves};
ghost use Rattle.mb_frames.specs.Rest.Calls.{after_desc, field_in, fields_after};
ghost use Rattle.mb_frames.specs.Sorts.{desc_gives};
ghost use Rattle.mb_frames.specs.Stepping.{Sure};
ghost use Rattle.mb_frames.specs.declared.task.Method.TheVariants as TheMethod;
ghost use Rattle.mb_frames.specs.declared.task.Task.TheVariants as TheTask;
ghost use Rattle.mb_model.specs.Meaning.{finished};
ghost use Rattle.mb_model.specs.Operations.Descriptors.{field_found, field_key, todesc, todesc_from, with_field};
ghost use Rattle.mb_model.specs.Writing.{◌>>=◌ as after_that, Row};
ghost use Rattle.mb_world.specs.Data.{Data};
ghost use Rattle.mb_world.specs.Formed.{IsCallableOrNot};
ghost use Rattle.mb_world.specs.Graph.{Graph, Item};
ghost use Rattle.mb_world.specs.Ids.{KeyIn};
ghost use Rattle.mb_world.specs.Image.{Image, Resolve, desc_in, key_in, names_of, object_in};
ghost use Rattle.mb_world.specs.Objects.{is_callable};
ghost use Rattle.mb_world.specs.Value.{Val, is_undefined};
ghost use Rattle.mb_call.specs.Ours.{Acts};
ghost use Rattle.mb_call.specs.machine.Descriptors.{desc_or_error, fields_from, fields_past};

use crate::errors::type_error;
use crate::fields::field_units;
use crate::giving::asks;
use crate::parts::key_of_word;
use mb_base::{Key, NoMemory, ObjId, Side, Value};
use mb_desc::{Desc, complete};
use mb_frames::{
    AfterDesc, CallFrame, Field, Frame, Halt, Method, Move, ProxyFrame, ReflectFrame, Task,
};
use mb_parts::{callable, truth};
use mb_world::World;

// No field.
const NONE: Desc<Value> = Desc {
    value: None,
    writable: None,
    get: None,
    set: None,
    enumerable: None,
    configurable: None,
};

/// The descriptor that a value stands for, and what follows: first it is asked for the field `enumerable`.
pub fn todesc(w: &mut World, home: Side, x: Value, after: AfterDesc) -> Result<Move, Halt>
    requires ready { IsReady w.old }
    requires side { home.0 < w.old.sides }
    requires held { Holds w.old home (HeldValue x ∷ desc_held after) }
    ensures part { (f : ℕ) → Part home result w.old w.new f f (after_that (todesc home.0 (Resolve (names_of w.old) x))
        (after_desc (names_of w.old) home.0 after) finished) }
    ensures keeps { KeepsBy home (desc_gives after) result w.old w.new }
{
    match x {
        Value::Object(object) => ask_field(w, home, object, Field::Enumerable, NONE, after),
        _ => type_error(w, home),
    }
}

// The key of a field.
fn field_key(w: &mut World, field: Field) -> Result<Key, NoMemory>
    ensures key { IfOk result (λ k. key_in (names_of w.new) k ≡ field_key (field_in field)) }
    ensures within { IfOk result (KeyIn w.new) }
    ensures grew { OnOk result (TextsGrew w.old w.new) }
    ensures kept { OnErr result (w.new ≡ w.old) }
{
    key_of_word(w, field_units(field))
}

// The object is asked whether it has a field.
fn ask_field(
    w: &mut World,
    home: Side,
    object: ObjId,
    field: Field,
    desc: Desc<Value>,
    after: AfterDesc,
) -> Result<Move, Halt>
    requires acts { Acts w.old home (HeldObject object ∷ HeldFields desc ∷ desc_held after) }
    ensures part { (f : ℕ) → Part home result w.old w.new f f
        (fields_from (names_of w.old) home.0 object field desc after finished) }
    ensures keeps { KeepsBy home (desc_gives after) result w.old w.new }
{
    let key = field_key(w, field)?;
    Ok(Move::Wait(
        Frame::Call(CallFrame::FieldThere {
            object,
            field,
            desc,
            after,
        }),
        asks(home, Method::HasProperty(key), object),
    ))
}

// It told whether it has the field: one that is there is got.
pub(crate) fn field_found(
    w: &mut World,
    home: Side,
    object: ObjId,
    field: Field,
    desc: Desc<Value>,
    after: AfterDesc,
    there: bool,
) -> Result<Move, Halt>
    requires acts { Acts w.old home (HeldObject object ∷ HeldFields desc ∷ desc_held after) }
    ensures part { (f : ℕ) → Part home result w.old w.new f f (after_that (after_that
        (field_found home.0 (object_in (names_of w.old) object) (desc_in (Resolve (names_of w.old)) desc)
        (field_in field) there) (todesc_from home.0 (object_in (names_of w.old) object) (fields_after field)))
        (after_desc (names_of w.old) home.0 after) finished) }
    ensures keeps { KeepsBy home (desc_gives after) result w.old w.new }
{
    if !there {
        return next_field(w, home, object, field, desc, after);
    }
    let key = field_key(w, field)?;
    let receiver = Value::Object(object);
    Ok(Move::Wait(
        Frame::Call(CallFrame::FieldGot {
            object,
            field,
            desc,
            after,
        }),
        asks(home, Method::Get { key, receiver }, object),
    ))
}

// A field was got. A getter or setter that is neither callable nor undefined is refused at once.
pub(crate) fn field_got(
    w: &mut World,
    home: Side,
    object: ObjId,
    field: Field,
    desc: Desc<Value>,
    after: AfterDesc,
    x: Value,
) -> Result<Move, Halt>
    requires acts { Acts w.old home (HeldValue x ∷ HeldObject object ∷ HeldFields desc ∷ desc_held after) }
    ensures part { (f : ℕ) → Part home result w.old w.new f f (after_that (after_that
        (with_field home.0 (desc_in (Resolve (names_of w.old)) desc) (field_in field) (Resolve (names_of w.old) x))
        (todesc_from home.0 (object_in (names_of w.old) object) (fields_after field)))
        (after_desc (names_of w.old) home.0 after) finished) }
    ensures keeps { KeepsBy home (desc_gives after) result w.old w.new }
{
    match with_field(w, home, desc, field, x) {
        Some(desc) => next_field(w, home, object, field, desc, after),
        None => type_error(w, home),
    }
}

// The descriptor with one more field, or `None` where the value can't be one.
fn with_field(
    w: &World,
    home: Side,
    desc: Desc<Value>,
    field: Field,
    x: Value,
) -> Option<Desc<Value>>
    requires acts { Acts w.now home (HeldValue x ∷ HeldFields desc ∷ []) }
    ensures field { (log : List Item) (k : Desc Val → Graph → Row) →
        with_field home.0 (desc_in (Resolve (names_of w.now)) desc) (field_in field) (Resolve (names_of w.now) x) k
        (Image w.now log) ≡ desc_or_error (names_of w.now) home.0 result k (Image w.now log) }
    ensures held { IfSome result (λ given. Holds w.now home (HeldFields given ∷ [])) }
{
    match field {
        Field::Enumerable => Some(Desc {
            enumerable: Some(truth(w, x)),
            ..desc
        }),
        Field::Configurable => Some(Desc {
            configurable: Some(truth(w, x)),
            ..desc
        }),
        Field::Value => Some(Desc {
            value: Some(x),
            ..desc
        }),
        Field::Writable => Some(Desc {
            writable: Some(truth(w, x)),
            ..desc
        }),
        Field::Get => {
            let get = accessor_part(w, home, x)?;
            Some(Desc {
                get: Some(get),
                ..desc
            })
        }
        Field::Set => {
            let set = accessor_part(w, home, x)?;
            Some(Desc {
                set: Some(set),
                ..desc
            })
        }
    }
}

// A getter or setter is callable or undefined.
fn accessor_part(w: &World, home: Side, x: Value) -> Option<Value>
    requires acts { Acts w.now home (HeldValue x ∷ []) }
    ensures part { (log : List Item) → is_some result
        ≡ (is_callable (Image w.now log) (Resolve (names_of w.now) x) || is_undefined (Resolve (names_of w.now) x)) }
    ensures same { IfSome result (λ y. y ≡ x) }
    ensures callable { IfSome result (IsCallableOrNot w.now) }
{
    match x {
        Value::Undefined => Some(x),
        _ => match callable(w, x) {
            Some(_) => Some(x),
            None => None,
        },
    }
}

// The field that is read after a field.
fn after_field(field: Field) -> Option<Field>
    ensures next { IfSome result (λ next. fields_after field ≡ field_in next ∷ fields_after next) }
    ensures last { result ≡ None → fields_after field ≡ [] }
{
    match field {
        Field::Enumerable => Some(Field::Configurable),
        Field::Configurable => Some(Field::Value),
        Field::Value => Some(Field::Writable),
        Field::Writable => Some(Field::Get),
        Field::Get => Some(Field::Set),
        Field::Set => None,
    }
}

// The fields after this one; behind the last one the descriptor must be of one kind.
fn next_field(
    w: &mut World,
    home: Side,
    object: ObjId,
    field: Field,
    desc: Desc<Value>,
    after: AfterDesc,
) -> Result<Move, Halt>
    requires acts { Acts w.old home (HeldObject object ∷ HeldFields desc ∷ desc_held after) }
    ensures part { (f : ℕ) → Part home result w.old w.new f f
        (fields_past (names_of w.old) home.0 object field desc after finished) }
    ensures keeps { KeepsBy home (desc_gives after) result w.old w.new }
{
    match after_field(field) {
        Some(next) => ask_field(w, home, object, next, desc, after),
        None => {
            if desc.is_data() && desc.is_accessor() {
                type_error(w, home)
            } else {
                Ok(after_desc(home, after, desc))
            }
        }
    }
}

// What follows where a descriptor was read.
fn after_desc(home: Side, after: AfterDesc, desc: Desc<Value>) -> Move
    requires kind { IsOfOneKind desc }
    ensures sure { (d : Data) → Acts d home (HeldDesc desc ∷ desc_held after) →
        Sure home d (after_desc (names_of d) home.0 after (desc_in (Resolve (names_of d)) desc) finished) result }
    ensures leaves { (d : Data) → Acts d home (HeldDesc desc ∷ desc_held after) →
        Leaves d home (desc_gives after) result }
{
    match after {
        AfterDesc::ObjectDefine { object, key } => Move::Wait(
            Frame::Reflect(ReflectFrame::GivenBack { object }),
            define(home, object, key, desc),
        ),
        AfterDesc::ReflectDefine { object, key } => Move::Wait(
            Frame::Reflect(ReflectFrame::Truth),
            define(home, object, key, desc),
        ),
        AfterDesc::Own { target, key } => {
            let said = complete(desc);
            Move::Wait(
                Frame::Proxy(ProxyFrame::OwnRead { target, said }),
                asks(home, Method::GetOwnProperty(key), target),
            )
        }
    }
}

fn define(home: Side, object: ObjId, key: Key, desc: Desc<Value>) -> Task
    ensures { result ≡ TheTask.Perform (TheMethod.DefineOwnProperty key desc) object home true }
{
    asks(home, Method::DefineOwnProperty(key, desc), object)
}

// What an object is asked.
ghost use Rattle.std.specs.Prelude.{◌≡◌, All, IfOk, IfSome, Some};
ghost use Rattle.mb_base.specs.declared.value.Value.TheVariants.{Undefined};
ghost use Rattle.std.specs.Map.{keys_of};
ghost use Rattle.mb_props.specs.KeyOrder.{IsInKeyOrder};
ghost use Rattle.mb_props.specs.Table.{found};
ghost use Rattle.mb_world.specs.Data.{cell_at, property_at};
ghost use Rattle.mb_world.specs.Ids.{ValueIn, FullIn, KeyIn};
ghost use Rattle.mb_world.specs.Image.{names_of, Resolve};
ghost use Rattle.mb_ordinary.specs.Objects.{IsOrdinary, object_at, property_of};
ghost use Rattle.mb_ordinary.specs.Lookups.{own_in, keys_in, own_keys, look_from, LookIn, look_in, looked_at, step_from, StepIn, step_in, written_at};

use crate::answers::{Look, SetStep};
use mb_base::{Key, NoMemory, ObjId, Value};
use mb_desc::Full;
use mb_world::World;

/// OrdinaryGetPrototypeOf (ECMA-262, 10.1.1.1).
pub fn proto(w: &World, o: ObjId) -> Value
    requires { IsOrdinary (cell_at w.now o) }
    ensures value { IfSome (cell_at w.now o) (λ c. result ≡ c.proto) }
    ensures meant { IfSome (object_at w.now o) (λ t. Resolve (names_of w.now) result ≡ t.prototype) }
    ensures within { ValueIn w.now result }
{
    w.cell(o).proto
}

/// OrdinaryIsExtensible (ECMA-262, 10.1.3.1).
pub fn extensible(w: &World, o: ObjId) -> bool
    requires { IsOrdinary (cell_at w.now o) }
    ensures value { IfSome (cell_at w.now o) (λ c. result ≡ c.extensible) }
    ensures meant { IfSome (object_at w.now o) (λ t. result ≡ t.extensible) }
{
    w.cell(o).extensible
}

/// OrdinaryGetOwnProperty (ECMA-262, 10.1.5.1).
pub fn own(w: &World, o: ObjId, key: Key) -> Option<Full<Value>>
    requires object { IsOrdinary (cell_at w.now o) }
    requires key { KeyIn w.now key }
    ensures value { result ≡ property_at w.now o key }
    ensures meant { IfSome (object_at w.now o) (λ t. own_in w.now result ≡ property_of w.now key t) }
    ensures within { IfSome result (FullIn w.now) }
{
    w.cell(o).props.get(key)
}

/// What OrdinaryHasProperty and OrdinaryGet do first (ECMA-262, 10.1.7.1, 10.1.8.1).
pub fn look(w: &World, o: ObjId, key: Key) -> Look
    requires object { IsOrdinary (cell_at w.now o) }
    requires key { KeyIn w.now key }
    ensures value { IfSome (cell_at w.now o) (λ c. result ≡ look_from c.proto (found c.props key)) }
    ensures meant { IfSome (object_at w.now o) (λ t. look_in w.now result ≡ looked_at w.now key t) }
    ensures within { LookIn w.now result }
{
    match own(w, o, key) {
        Some(property) => Look::Found(property),
        None => Look::Up(proto(w, o)),
    }
}

/// What OrdinarySetWithOwnDescriptor does first (ECMA-262, 10.1.9.2, steps 1 to 3). A setter that is no object is none.
pub fn set_step(w: &World, o: ObjId, key: Key) -> SetStep
    requires object { IsOrdinary (cell_at w.now o) }
    requires key { KeyIn w.now key }
    ensures value { IfSome (cell_at w.now o) (λ c. result ≡ step_from c.proto (found c.props key)) }
    ensures meant { IfSome (object_at w.now o) (λ t. step_in w.now result ≡ written_at w.now key t) }
    ensures within { StepIn w.now result }
{
    match own(w, o, key) {
        Some(property) => step_of(property),
        None => match proto(w, o) {
            Value::Object(above) => SetStep::Up(Value::Object(above)),
            _ => SetStep::Store,
        },
    }
}

// What a write over this property does.
fn step_of(property: Full<Value>) -> SetStep
    ensures { result ≡ step_from Undefined (Some property) }
{
    match property {
        Full::Datum { writable: true, .. } => SetStep::Store,
        Full::Datum { .. } => SetStep::Refuse,
        Full::Accessor { set, .. } => match set {
            Value::Object(setter) => SetStep::Setter(setter),
            _ => SetStep::Refuse,
        },
    }
}

/// OrdinaryOwnPropertyKeys (ECMA-262, 10.1.11.1).
pub fn keys(w: &World, o: ObjId) -> Result<Vec<Key>, NoMemory>
    requires { IsOrdinary (cell_at w.now o) }
    ensures order { IfOk result (λ ks. IfSome (cell_at w.now o) (λ c. IsInKeyOrder (keys_of c.props) ks.items)) }
    ensures meant { IfOk result (λ ks. IfSome (object_at w.now o) (λ t. keys_in w.now ks.items ≡ own_keys t)) }
    ensures within { IfOk result (λ ks. All (KeyIn w.now) ks.items) }
{
    w.cell(o).props.keys_in_order()
}

// Object.keys, Object.getOwnPropertySymbols and Reflect.ownKeys (ECMA-262, 20.1.2.11, 20.1.2.18, 28.1.11).
ghost use Rattle.std.specs.Prelude.{◌≡◌, ◌∷◌, [], IfOk, drop};
ghost use Rattle.mb_base.specs.declared.value.Side.{Side as ASide};
ghost use Rattle.mb_call.specs.Ours.{Acts};
ghost use Rattle.mb_desc.specs.Descriptors.{is_enumerable, property_is};
ghost use Rattle.mb_frames.specs.Held.{HeldKey, HeldKeys, HeldObject, HeldValues};
ghost use Rattle.mb_frames.specs.Passing.{Part};
ghost use Rattle.mb_frames.specs.Ready.{Holds, KeepsBy};
ghost use Rattle.mb_frames.specs.Resolved.{keys_of, real_in, values_in};
ghost use Rattle.mb_frames.specs.Sorts.{AValue};
ghost use Rattle.mb_model.specs.BuiltIns.ObjectMembers.{enumerable_keys, symbols_array, with_key};
ghost use Rattle.mb_model.specs.BuiltIns.ReflectMembers.{keys_array};
ghost use Rattle.mb_model.specs.Meaning.{finished};
ghost use Rattle.mb_world.specs.Data.{Data};
ghost use Rattle.mb_world.specs.Image.{Names, key_in, names_of, object_in};
ghost use Rattle.mb_world.specs.Key.{texts_only};

use crate::arrays::array_of;
use crate::giving::waits;
use crate::keys::{
    after, charge_each, key_at, symbols_only, texts_only, value_of_key, values_of_keys,
};
use mb_base::{Fuel, Key, NoMemory, ObjId, Side, Value};
use mb_desc::Full;
use mb_frames::{Halt, Method, Move, ReflectFrame, Values};
use mb_world::{KeyList, World};

// Object.keys has the keys, of which it visits the texts.
pub(crate) fn keys_listed(
    w: &mut World,
    fuel: &mut Fuel,
    home: Side,
    object: ObjId,
    keys: &KeyList,
) -> Result<Move, Halt>
    requires acts { Acts w.old home (HeldObject object ∷ HeldKeys keys.now ∷ []) }
    ensures part { Part home result w.old w.new fuel.old fuel.new (enumerable_keys home.0
        (object_in (names_of w.old) object) [] (texts_only (keys_of (names_of w.old) keys.now)) finished) }
    ensures keeps { KeepsBy home AValue result w.old w.new }
{
    let alloc = *w.trace().allocator();
    let texts = KeyList::from(texts_only(alloc, keys.items())?);
    let none = Values::new(alloc);
    enumerate_from(w, fuel, home, object, texts, 0, none)
}

// The keys from the next on, after those that were found: a unit for each, and in the end their array.
fn enumerate_from(
    w: &mut World,
    fuel: &mut Fuel,
    home: Side,
    object: ObjId,
    keys: KeyList,
    next: u32,
    found: Values,
) -> Result<Move, Halt>
    requires acts { Acts w.old home (HeldObject object ∷ HeldKeys keys ∷ HeldValues found ∷ []) }
    ensures part { Part home result w.old w.new fuel.old fuel.new (enumerable_keys home.0
        (object_in (names_of w.old) object) (values_in (names_of w.old) found)
        (drop next (keys_of (names_of w.old) keys)) finished) }
    ensures keeps { KeepsBy home AValue result w.old w.new }
{
    match key_at(&keys, next) {
        None => array_of(w, home, found.items()),
        Some(key) => {
            fuel.charge(1)?;
            let next = after(next)?;
            Ok(waits(
                home,
                ReflectFrame::KeyRead {
                    object,
                    key,
                    keys,
                    next,
                    found,
                },
                Method::GetOwnProperty(key),
                object,
            ))
        }
    }
}

// What the object has at a key was read: one that is listed is found.
pub(crate) fn key_read(
    w: &mut World,
    fuel: &mut Fuel,
    home: Side,
    object: ObjId,
    key: Key,
    keys: KeyList,
    next: u32,
    found: Values,
    property: Option<Full<Value>>,
) -> Result<Move, Halt>
    requires acts { Acts w.old home (HeldObject object ∷ HeldKey key ∷ HeldKeys keys ∷ HeldValues found ∷ []) }
    ensures part { Part home result w.old w.new fuel.old fuel.new (enumerable_keys home.0
        (object_in (names_of w.old) object) (with_key (key_in (names_of w.old) key)
        (values_in (names_of w.old) found) (real_in (names_of w.old) property))
        (drop next (keys_of (names_of w.old) keys)) finished) }
    ensures keeps { KeepsBy home AValue result w.old w.new }
{
    let found = with_key(found, key, property)?;
    enumerate_from(w, fuel, home, object, keys, next, found)
}

// One more key, where it has a property that is listed.
fn with_key(found: Values, key: Key, property: Option<Full<Value>>) -> Result<Values, NoMemory>
    ensures found { IfOk result (λ more. (n : Names) →
        values_in n more ≡ with_key (key_in n key) (values_in n found) (real_in n property)) }
    ensures holds { IfOk result (λ more. (d : Data) (home : ASide) →
        Holds d home (HeldKey key ∷ HeldValues found ∷ []) → Holds d home (HeldValues more ∷ [])) }
{
    if !is_listed(property) {
        return Ok(found);
    }
    let mut more = found;
    more.push(value_of_key(key))?;
    Ok(more)
}

fn is_listed(property: Option<Full<Value>>) -> bool
    ensures { (n : Names) → result ≡ property_is is_enumerable (real_in n property) }
{
    match property {
        Some(Full::Datum { enumerable, .. }) => enumerable,
        Some(Full::Accessor { enumerable, .. }) => enumerable,
        None => false,
    }
}

// Object.getOwnPropertySymbols has the keys: a unit for each, and then the array of the symbols.
pub(crate) fn symbols_listed(
    w: &mut World,
    fuel: &mut Fuel,
    home: Side,
    keys: &KeyList,
) -> Result<Move, Halt>
    requires acts { Acts w.old home (HeldKeys keys.now ∷ []) }
    ensures part { Part home result w.old w.new fuel.old fuel.new
        (symbols_array home.0 (keys_of (names_of w.old) keys.now) finished) }
    ensures keeps { KeepsBy home AValue result w.old w.new }
{
    charge_each(fuel, keys.items().len())?;
    let alloc = *w.trace().allocator();
    let symbols = symbols_only(alloc, keys.items())?;
    let values = values_of_keys(alloc, &symbols)?;
    array_of(w, home, &values)
}

// Reflect.ownKeys has the keys: a unit for each, and then their array.
pub(crate) fn own_keys_listed(
    w: &mut World,
    fuel: &mut Fuel,
    home: Side,
    keys: &KeyList,
) -> Result<Move, Halt>
    requires acts { Acts w.old home (HeldKeys keys.now ∷ []) }
    ensures part { Part home result w.old w.new fuel.old fuel.new
        (keys_array home.0 (keys_of (names_of w.old) keys.now) finished) }
    ensures keeps { KeepsBy home AValue result w.old w.new }
{
    charge_each(fuel, keys.items().len())?;
    let alloc = *w.trace().allocator();
    let values = values_of_keys(alloc, keys.items())?;
    array_of(w, home, &values)
}

// What the call asks is found out before it.
ghost use Rattle.std.specs.Prelude.{◌≡◌, true, Some, IfOk};
ghost use Rattle.std.specs.List.{list_all};
ghost use Rattle.mb_desc.specs.Descriptors.{IsOfOneKind};
ghost use Rattle.mb_world.specs.Data.{cell_at, is_array};
ghost use Rattle.mb_world.specs.Formed.{option_values};
ghost use Rattle.mb_world.specs.Ids.{ObjIn, KeyIn};
ghost use Rattle.mb_world.specs.declared.cell.Cell.{Cell};
ghost use Rattle.mb_ordinary.specs.Definitions.{TellsApart, compared, property_values, DescIn};
ghost use Rattle.mb_array.specs.Define.{HasItsLength, table_in};
ghost use Rattle.mb_array.specs.machine.Tried.{is_plain, are_plain, is_length, is_below};

use crate::is_array;
use crate::length::{asked_length, parts};
use mb_base::{Key, ObjId, StrId, Value};
use mb_desc::{Desc, Full};
use mb_world::World;
use std::process::Abort;
use std::test::Fail;

// The units of the text `length`.
pub const LENGTH: [u16; 6] = [108, 101, 110, 103, 116, 104];

pub fn there(rt: &impl Abort, w: &World, o: ObjId)
    ensures { ObjIn w.now o }
{
    assert!(rt; o.0 < w.cells());
}

pub fn key(rt: &impl Abort, w: &World, text: StrId) -> Key
    ensures { KeyIn w.now result }
{
    assert!(rt; (text.0 as usize) < w.texts().len());
    w.texts().key(text)
}

fn is_plain(x: Value) -> bool
    ensures { result ≡ is_plain x }
{
    !matches!(x, Value::Object(_))
}

fn is_plain_field(x: Option<Value>) -> bool
    ensures { result ≡ are_plain (option_values x) }
{
    match x {
        None => true,
        Some(x) => is_plain(x),
    }
}

fn plain_field(rt: &impl Abort, x: Option<Value>)
    ensures { are_plain (option_values x) ≡ true }
{
    assert!(rt; is_plain_field(x));
}

fn is_plain_property(property: Option<Full<Value>>) -> bool
    ensures { result ≡ are_plain (property_values property) }
{
    match property {
        None => true,
        Some(Full::Datum { value, .. }) => is_plain(value),
        Some(Full::Accessor { get, set, .. }) => is_plain(get) && is_plain(set),
    }
}

fn plain_property(rt: &impl Abort, property: Option<Full<Value>>)
    ensures { are_plain (property_values property) ≡ true }
{
    assert!(rt; is_plain_property(property));
}

fn is_length(property: Option<Full<Value>>) -> bool
    ensures { result ≡ is_length property }
{
    match property {
        Some(
            Full::Datum {
                value,
                enumerable,
                configurable,
                ..
            },
        ) => !enumerable && !configurable && asked_length(value).is_ok(),
        _ => false,
    }
}

// A descriptor of data, of a number or a truth value.
pub fn plain(rt: &impl Abort, w: &World, desc: Desc<Value>)
    ensures within { DescIn w.now desc }
    ensures kind { IsOfOneKind desc }
{
    assert!(rt; desc.get.is_none() && desc.set.is_none());
    assert!(rt; matches!(desc.value, None | Some(Value::Whole(_) | Value::Bool(_))));
}

pub fn apart(rt: &impl Abort, w: &World, o: ObjId, key: Key, desc: Desc<Value>)
    requires { ObjIn w.now o }
    ensures { TellsApart w.now (compared w.now o key desc) }
{
    let property = w.cell(o).props.get(key);
    plain_field(rt, desc.value);
    plain_field(rt, desc.get);
    plain_field(rt, desc.set);
    plain_property(rt, property);
}

// Whether the key is no index, or one below that length.
fn is_below(key: Key, n: u32) -> bool
    ensures { result ≡ is_below n key }
{
    match key {
        Key::Text { index, .. } => index == u32::MAX || index < n,
        Key::Symbol(_) => true,
    }
}

fn are_below(keys: &[Key], n: u32) -> bool
    ensures { result ≡ list_all (is_below n) keys.now }
{
    keys.iter().all(|key| is_below(*key, n))
}

fn fits_length(rt: &impl Abort, property: Option<Full<Value>>)
    ensures { is_length property ≡ true }
{
    assert!(rt; is_length(property));
}

fn all_below(rt: &impl Abort, keys: &[Key], n: u32)
    ensures { list_all (is_below n) keys.now ≡ true }
{
    assert!(rt; are_below(keys, n));
}

fn has_length(rt: &impl Abort, w: &World, o: ObjId) -> Result<(), Fail>
    requires { ObjIn w.now o }
    ensures { IfOk result (λ x. HasItsLength w.now.texts (table_in (cell_at w.now o))) }
{
    let cell = w.cell(o);
    let Some(text) = w.texts().find(&LENGTH) else {
        panic!(rt; "no length")
    };
    let key = Key::Text {
        text,
        index: u32::MAX,
    };
    let property = cell.props.get(key);
    fits_length(rt, property);
    let keys = cell.props.keys_in_order()?;
    all_below(rt, &keys, parts(property).0);
    Ok(())
}

pub fn length_of_an_array(rt: &impl Abort, w: &World, o: ObjId) -> Result<(), Fail>
    requires { ObjIn w.now o }
    ensures { IfOk result (λ x. (c : Cell) → cell_at w.now o ≡ Some c → is_array c.kind ≡ true
        → HasItsLength w.now.texts c.props) }
{
    if is_array(&w.cell(o).kind) {
        has_length(rt, w, o)?;
    }
    Ok(())
}

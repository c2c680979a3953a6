// What stands in the fields of a row.
ghost use Rattle.std.specs.Prelude.{◌≡◌, ◌<◌, ◌≤◌, ◌^◌, ◌++◌, Ok, Err, Some, length, option_map, IfOk, OnOk};
ghost use Rattle.std.specs.Char.Escape.{encode_utf16};
ghost use Rattle.std.specs.Option.{option_copied};
ghost use Rattle.mb_text.specs.Texts.{text_at as text_of, KeepsIds};
ghost use Rattle.mb_world.specs.Formed.{is_whole as whole_in_range};
ghost use Rattle.mb_world.specs.Ids.{Maybe};
ghost use Rattle.mb_world.specs.Image.{side_in};
ghost use Rattle.mb_policy.specs.Fields.{text_units, str_at, units_at, text_constant as text_constant_of, constant_of, constant_at as constant_of_row, side_of, side_in_field, side_at as side_of_row};
ghost use Rattle.mb_policy.specs.machine.Names.{plain_constant_of};
ghost use Rattle.mb_policy.specs.Rules.{constant_by, IsText, IsConstant, IsSide};
ghost use Rattle.toml.specs.View.{view, table_view};

use mb_base::{NoMemory, Side, StrId, Value};
use mb_text::{TextFault, Texts};
use std::alloc::{AllocError, Global};
use toml::Table;

// The text in a field.
pub(crate) fn text_at<'a>(row: &'a Table, field: &str) -> Option<&'a str>
    ensures { option_copied result ≡ str_at field.now (table_view row.now) }
{
    match row.get(field) {
        Some(value) => value.as_str(),
        None => None,
    }
}

// The id of the text in a field.
pub(crate) fn id_at(
    alloc: Global,
    row: &Table,
    field: &str,
    texts: &mut Texts,
) -> Result<Option<StrId>, NoMemory>
    ensures text { IfOk result (λ id. option_map (text_of texts.new) id ≡ units_at field.now (table_view row.now)) }
    ensures within { IfOk result (Maybe (IsText texts.new)) }
    ensures kept { KeepsIds texts.old texts.new }
{
    match text_at(row, field) {
        Some(text) => match intern(alloc, text, texts) {
            Ok(id) => Ok(Some(id)),
            // No file that is short enough to be read has so long a text.
            Err(_) => Err(NoMemory),
        },
        None => Ok(None),
    }
}

// The constant in a field.
pub(crate) fn constant_at(
    alloc: Global,
    row: &Table,
    field: &str,
    texts: &mut Texts,
) -> Result<Option<Value>, NoMemory>
    ensures value { IfOk result (λ x. option_map (constant_by texts.new) x
        ≡ constant_of_row field.now (table_view row.now)) }
    ensures within { IfOk result (Maybe (IsConstant texts.new)) }
    ensures kept { KeepsIds texts.old texts.new }
{
    match row.get(field) {
        Some(value) => constant(alloc, value, texts),
        None => Ok(None),
    }
}

// The constant that a value of the file is.
fn constant(
    alloc: Global,
    value: &toml::Value,
    texts: &mut Texts,
) -> Result<Option<Value>, NoMemory>
    ensures value { IfOk result (λ x. option_map (constant_by texts.new) x ≡ constant_of (view value.now)) }
    ensures within { IfOk result (Maybe (IsConstant texts.new)) }
    ensures kept { KeepsIds texts.old texts.new }
{
    match value.as_str() {
        Some(text) => text_constant(alloc, text, texts),
        None => Ok(plain_constant(value)),
    }
}

// The constant that a text is.
fn text_constant(alloc: Global, text: &str, texts: &mut Texts) -> Result<Option<Value>, NoMemory>
    ensures value { IfOk result (λ x. option_map (constant_by texts.new) x
        ≡ text_constant_of (text_units text.now)) }
    ensures within { IfOk result (Maybe (IsConstant texts.new)) }
    ensures kept { KeepsIds texts.old texts.new }
{
    match intern(alloc, text, texts) {
        Ok(id) => Ok(Some(Value::Text(id))),
        Err(TextFault::Long) => Ok(None),
        Err(TextFault::NoMemory) => Err(NoMemory),
    }
}

// The constant that a value other than a text is.
fn plain_constant(value: &toml::Value) -> Option<Value>
    ensures { result ≡ plain_constant_of (view value.now) }
{
    match value.as_bool() {
        Some(truth) => Some(Value::Bool(truth)),
        None => match value.as_integer() {
            Some(number) if is_whole(number) => Some(Value::Whole(number)),
            _ => None,
        },
    }
}

// Whether the number has an absolute value below 2^53.
fn is_whole(number: i64) -> bool
    ensures { result ≡ whole_in_range number }
{
    (-9_007_199_254_740_991..=9_007_199_254_740_991).contains(&number)
}

// The side that a field names, or every side where the field isn't there.
pub(crate) fn side_at(row: &Table, field: &str) -> Option<Option<Side>>
    ensures value { option_map side_in result ≡ side_of_row field.now (table_view row.now) }
    ensures within { Maybe (Maybe IsSide) result }
{
    match row.get(field) {
        Some(value) => match value.as_str() {
            Some(text) => named(side(text)),
            None => None,
        },
        None => Some(None),
    }
}

fn named(side: Option<Side>) -> Option<Option<Side>>
    ensures { result ≡ option_map Some side }
{
    match side {
        Some(side) => Some(Some(side)),
        None => None,
    }
}

// The side of a letter.
fn side(text: &str) -> Option<Side>
    ensures value { side_in result ≡ side_of text.now }
    ensures within { Maybe IsSide result }
{
    match text.as_bytes() {
        [letter @ b'A'..=b'H'] => Some(Side(*letter - b'A')),
        _ => None,
    }
}

// The id of a text.
fn intern(alloc: Global, text: &str, texts: &mut Texts) -> Result<StrId, TextFault>
    ensures text { IfOk result (λ id. text_of texts.new id ≡ text_units text.now) }
    ensures within { IfOk result (IsText texts.new) }
    ensures short { IfOk result (λ _. length (text_units text.now) ≤ 2 ^ 20) }
    ensures long { result ≡ Err TextFault.Long → 2 ^ 20 < length (text_units text.now) }
    ensures kept { KeepsIds texts.old texts.new }
{
    let units = match units(alloc, text) {
        Ok(units) => units,
        Err(_) => return Err(TextFault::NoMemory),
    };
    texts.intern(&units)
}

// The code units of a text.
fn units(alloc: Global, text: &str) -> Result<Vec<u16>, AllocError>
    ensures { IfOk result (λ units. units.items ≡ text_units text.now) }
{
    let mut units = Vec::new(alloc);
    for ch in text.chars() {
        add_char(&mut units, ch)?;
    }
    Ok(units)
}

fn add_char(units: &mut Vec<u16>, ch: char) -> Result<(), AllocError>
    ensures { OnOk result (units.new.items ≡ units.old.items ++ encode_utf16 ch) }
{
    let mut pair = [0; 2];
    units.extend_from_slice(ch.encode_utf16(&mut pair))
}

// A definition on an array (ECMA-262, 10.4.2.1).
ghost use Rattle.std.specs.Prelude.{◌≡◌, ◌<◌, ◌-◌, ◌^◌, ◌&&◌, not};
ghost use Rattle.mb_world.specs.Data.{cell_at};
ghost use Rattle.mb_world.specs.Image.{names_of};
ghost use Rattle.mb_world.specs.Arrays.{array_length, array_defined, element_defined, length_defined, length_below, length_as, length_key, without_writable};
ghost use Rattle.mb_world.specs.Ordinary.{validated};
ghost use Rattle.mb_desc.specs.Descriptors.{denies, is_writable};
ghost use Rattle.mb_array.specs.Define.{HasItsLength, on_object, table_in};
ghost use Rattle.mb_array.specs.machine.Cutting.{put_off};
ghost use Rattle.mb_array.specs.machine.Done.{CanDefine, LengthIs, Ends};

use crate::cutting::{cut, index_of};
use crate::indices::indices_from;
use crate::length::{Length, asked_length, length_of, length_property};
use crate::{Defined, plain};
use mb_base::{Key, NoMemory, ObjId, Value};
use mb_desc::{Desc, Full};
use mb_world::World;

/// A definition on an array that has its `length`.
pub(crate) fn define(
    w: &mut World,
    o: ObjId,
    key: Key,
    desc: Desc<Value>,
) -> Result<Defined, NoMemory>
    requires can { CanDefine w.old o key desc }
    requires length { HasItsLength w.old.texts (table_in (cell_at w.old o)) }
    ensures { Ends w.old o desc (on_object array_defined (names_of w.old) key desc (cell_at w.old o)) result w.new }
{
    let length = length_of(w, o);
    match index_of(key) {
        Some(index) => define_element(w, o, key, desc, index, length),
        None if key == length.key => define_length(w, o, desc, length),
        None => plain::define(w, o, key, desc),
    }
}

// An element: none past a `length` that can't be written, which grows where it must.
fn define_element(
    w: &mut World,
    o: ObjId,
    key: Key,
    desc: Desc<Value>,
    index: u32,
    length: Length,
) -> Result<Defined, NoMemory>
    requires can { CanDefine w.old o key desc }
    requires length { LengthIs w.old o length.key length.value length.writable }
    requires index { index < 2 ^ 32 - 1 }
    ensures { Ends w.old o desc
        (on_object (λ t k x. element_defined t k x index (array_length t)) (names_of w.old) key desc (cell_at w.old o))
        result w.new }
{
    if length.refuses(index) {
        return Ok(Defined::Answer(false));
    }
    match plain::accepted(w, o, key, desc) {
        None => Ok(Defined::Answer(false)),
        Some(full) => {
            let grown = length_property(length.value.max(index + 1), length.writable);
            w.put(o, key, full)?;
            w.put(o, length.key, grown)?;
            Ok(Defined::Answer(true))
        }
    }
}

// `length`: without a value as any property, else what can be a length, or one of the two errors (ECMA-262, 10.4.2.4).
fn define_length(
    w: &mut World,
    o: ObjId,
    desc: Desc<Value>,
    length: Length,
) -> Result<Defined, NoMemory>
    requires can { CanDefine w.old o length.key desc }
    requires length { LengthIs w.old o length.key length.value length.writable }
    ensures { Ends w.old o desc
        (on_object (λ t k x. length_defined t x x.value) (names_of w.old) length.key desc (cell_at w.old o))
        result w.new }
{
    let Some(value) = desc.value else {
        return plain::define(w, o, length.key, desc);
    };
    match asked_length(value) {
        Ok(n) => set_length(w, o, desc, n, length),
        Err(refusal) => Ok(refusal),
    }
}

// `length` with a value that can be one.
fn set_length(
    w: &mut World,
    o: ObjId,
    desc: Desc<Value>,
    n: u32,
    length: Length,
) -> Result<Defined, NoMemory>
    requires can { CanDefine w.old o length.key desc }
    requires length { LengthIs w.old o length.key length.value length.writable }
    ensures { Ends w.old o desc
        (on_object (λ t k x. length_below t x n (array_length t)) (names_of w.old) length.key desc (cell_at w.old o))
        result w.new }
{
    if length.value <= n {
        plain::define(w, o, length.key, desc)
    } else if length.writable {
        shorten(w, o, desc, n, length)
    } else {
        Ok(Defined::Answer(false))
    }
}

// A shorter `length`. What takes memory comes before the first change.
fn shorten(
    w: &mut World,
    o: ObjId,
    desc: Desc<Value>,
    n: u32,
    length: Length,
) -> Result<Defined, NoMemory>
    requires can { CanDefine w.old o length.key desc }
    requires length { LengthIs w.old o length.key length.value length.writable }
    requires shorter { n < length.value }
    ensures { Ends w.old o desc
        (on_object (λ t k x. length_as t n (denies x.writable) (validated t length_key (without_writable x)))
        (names_of w.old) length.key desc (cell_at w.old o)) result w.new }
{
    match plain::accepted(w, o, length.key, put_off(desc)) {
        None => Ok(Defined::Answer(false)),
        Some(full) => {
            let keys = indices_from(w, o, n, length.value)?;
            let least = cut(w, o, n, keys);
            let writable = is_writable_last(full, desc.writable);
            w.put(o, length.key, length_property(least, writable))?;
            Ok(Defined::Answer(least == n))
        }
    }
}

// The descriptor with writable false left out: it is put off until the elements are gone.
fn put_off(desc: Desc<Value>) -> Desc<Value>
    ensures { result ≡ put_off desc }
{
    if desc.writable == Some(false) {
        Desc {
            writable: None,
            ..desc
        }
    } else {
        desc
    }
}

// Whether `length` can be written in the end: writable false is applied last.
fn is_writable_last(full: Full<Value>, asked: Option<bool>) -> bool
    ensures { result ≡ (is_writable full && not (denies asked)) }
{
    is_writable(full) && asked != Some(false)
}

fn is_writable(full: Full<Value>) -> bool
    ensures { result ≡ is_writable full }
{
    matches!(full, Full::Datum { writable: true, .. })
}

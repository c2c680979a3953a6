// An array's `length`.
ghost use Rattle.std.specs.Prelude.{◌≡◌, ◌&&◌, not, nat_le, false, pos};
ghost use Rattle.mb_base.specs.declared.value.Value.TheVariants.{Whole};
ghost use Rattle.mb_desc.specs.declared.descriptor.Full.TheVariants.{Datum};
ghost use Rattle.mb_world.specs.Arrays.{as_length};
ghost use Rattle.mb_world.specs.Data.{cell_at};
ghost use Rattle.mb_world.specs.Ids.{ObjIn};
ghost use Rattle.mb_array.specs.Define.{HasItsLength, table_in};
ghost use Rattle.mb_array.specs.machine.Done.{LengthIs, length_parts, asked_length};

use crate::Defined;
use mb_base::{Key, ObjId, Value};
use mb_desc::Full;
use mb_world::World;

// The units of the text `length`.
const LENGTH: [u16; 6] = [108, 101, 110, 103, 116, 104];

// The greatest length of an array.
const MOST: i64 = 0xFFFF_FFFF;

/// The `length` of an array: its key, its value, and whether it can be written.
#[derive(Clone, Copy)]
pub(crate) struct Length {
    pub(crate) key: Key,
    pub(crate) value: u32,
    pub(crate) writable: bool,
}

impl Length {
    /// Whether an element at that index would be past a `length` that can't be written.
    pub(crate) fn refuses(self, index: u32) -> bool
        ensures { result ≡ (nat_le self.value index && not self.writable) }
    {
        self.value <= index && !self.writable
    }
}

/// The `length` that an array has.
pub(crate) fn length_of(w: &World, o: ObjId) -> Length
    requires object { ObjIn w.now o }
    requires length { HasItsLength w.now.texts (table_in (cell_at w.now o)) }
    ensures { LengthIs w.now o result.key result.value result.writable }
{
    let cell = w.cell(o);
    let Some(text) = w.texts().find(&LENGTH) else {
        unreachable!()
    };
    let key = Key::Text {
        text,
        index: u32::MAX,
    };
    let (value, writable) = parts(cell.props.get(key));
    Length {
        key,
        value,
        writable,
    }
}

/// The value and the writable flag of a `length`.
pub(crate) fn parts(property: Option<Full<Value>>) -> (u32, bool)
    ensures { result ≡ length_parts property }
{
    match property {
        Some(
            Full::Datum {
                value: Value::Whole(value),
                writable,
                ..
            },
        ) => (as_length(value).unwrap_or(0), writable),
        _ => (0, false),
    }
}

/// The length that a value asks for, or why it can't be one.
pub(crate) fn asked_length(value: Value) -> Result<u32, Defined>
    ensures { result ≡ asked_length value }
{
    match value {
        Value::Whole(n) => match as_length(n) {
            Some(n) => Ok(n),
            None => Err(Defined::Range),
        },
        _ => Err(Defined::Kind),
    }
}

// The length that a whole number can be.
fn as_length(n: i64) -> Option<u32>
    ensures { result ≡ as_length n }
{
    if (0..=MOST).contains(&n) {
        Some(n as u32)
    } else {
        None
    }
}

/// The property `length` with that value.
pub(crate) fn length_property(value: u32, writable: bool) -> Full<Value>
    ensures { result ≡ Datum (Whole (pos value)) writable false false }
{
    Full::Datum {
        value: Value::Whole(i64::from(value)),
        writable,
        enumerable: false,
        configurable: false,
    }
}

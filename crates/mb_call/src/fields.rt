// The names of a descriptor's fields (ECMA-262, 6.2.6.4).
ghost use Rattle.std.specs.Prelude.{◌≡◌};
ghost use Rattle.mb_call.specs.machine.Descriptors.{field_units};

use mb_frames::Field;

const ENUMERABLE: [u16; 10] = [101, 110, 117, 109, 101, 114, 97, 98, 108, 101];

const CONFIGURABLE: [u16; 12] = [99, 111, 110, 102, 105, 103, 117, 114, 97, 98, 108, 101];

const VALUE: [u16; 5] = [118, 97, 108, 117, 101];

const WRITABLE: [u16; 8] = [119, 114, 105, 116, 97, 98, 108, 101];

const GET: [u16; 3] = [103, 101, 116];

const SET: [u16; 3] = [115, 101, 116];

// The units of a field's name.
pub(crate) fn field_units(field: Field) -> &'static [u16]
    ensures { result.now ≡ field_units field }
{
    match field {
        Field::Enumerable => &ENUMERABLE,
        Field::Configurable => &CONFIGURABLE,
        Field::Value => &VALUE,
        Field::Writable => &WRITABLE,
        Field::Get => &GET,
        Field::Set => &SET,
    }
}

// The values that the fields of a property hold.
ghost use Rattle.std.specs.Prelude.{◌≡◌, true};
ghost use Rattle.mb_desc.specs.Values.{same_value};
ghost use Rattle.mb_base.specs.declared.value.Value.TheVariants.{Undefined};

use mb_base::Value;

/// A value that a field of a property may hold. Its `==` is SameValue (ECMA-262, 7.2).
pub trait Slot: Copy + Eq {
    ghost undefined_value: { Self };

    /// The value that a field has by default (ECMA-262, 6.1.7.1, the table of default values).
    fn undefined() -> Self
        ensures { result ≡ undefined_value };

    ghost same: { (x y : Self) → Self.eq x y ≡ true → x ≡ y };
}

impl Slot for Value {
    ghost undefined_value = { Undefined };

    ghost same = { same_value };

    fn undefined() -> Value {
        Value::Undefined
    }
}

// Which descriptors a property accepts (ECMA-262, 10.1.6.3).
ghost use Rattle.std.specs.Prelude.{◌≡◌, is_some};
ghost use Rattle.mb_desc.specs.Descriptors.{is_accessor_descriptor, is_data_descriptor, is_generic_descriptor, has_no_fields, is_accessor_property, is_enumerable, is_configurable, IsOfOneKind, Complete};
ghost use Rattle.mb_desc.specs.Validate.{changes, refuses, refuses_fields, Applied, Validate};

use crate::{Desc, Full, Slot};

/// ValidateAndApplyPropertyDescriptor (ECMA-262, 10.1.6.3): the property after `desc` is defined over
/// `current`, or `None` where it is refused. `ext` tells whether the object is extensible.
#[tactic(auto, unfolding(crate::specs::Validate::Validate))]
pub fn validate<V: Slot>(ext: bool, current: Option<Full<V>>, desc: Desc<V>) -> Option<Full<V>>
    requires { IsOfOneKind desc }
    ensures { result ≡ Validate V.eq V.undefined_value ext current desc }
{
    match current {
        None if ext => Some(complete(desc)),
        None => None,
        Some(property) => {
            if desc.has_no_field() {
                Some(property)
            } else if !property.is_configurable() && is_refused(&property, &desc) {
                None
            } else {
                Some(applied(property, desc))
            }
        }
    }
}

/// IsCompatiblePropertyDescriptor (ECMA-262, 10.1.6.2): whether `validate` accepts `desc`.
pub fn compatible<V: Slot>(ext: bool, desc: Desc<V>, current: Option<Full<V>>) -> bool
    requires { IsOfOneKind desc }
    ensures { result ≡ is_some (Validate V.eq V.undefined_value ext current desc) }
{
    validate(ext, current, desc).is_some()
}

/// CompletePropertyDescriptor (ECMA-262, 6.2.6.6): absent fields are undefined or false.
/// Without a field of a kind of its own the property is a data property.
pub fn complete<V: Slot>(desc: Desc<V>) -> Full<V>
    requires { IsOfOneKind desc }
    ensures { result ≡ Complete V.undefined_value desc }
{
    let enumerable = desc.enumerable.unwrap_or(false);
    let configurable = desc.configurable.unwrap_or(false);
    if desc.is_accessor() {
        Full::Accessor {
            get: desc.get.unwrap_or(V::undefined()),
            set: desc.set.unwrap_or(V::undefined()),
            enumerable,
            configurable,
        }
    } else {
        Full::Datum {
            value: desc.value.unwrap_or(V::undefined()),
            writable: desc.writable.unwrap_or(false),
            enumerable,
            configurable,
        }
    }
}

impl<V: Copy> Desc<V> {
    /// IsAccessorDescriptor (ECMA-262, 6.2.6.1): there is a getter or a setter.
    pub fn is_accessor(&self) -> bool
        ensures { result ≡ is_accessor_descriptor self.now }
    {
        self.get.is_some() || self.set.is_some()
    }

    /// IsDataDescriptor (ECMA-262, 6.2.6.2): there is a value or a writable flag.
    pub fn is_data(&self) -> bool
        ensures { result ≡ is_data_descriptor self.now }
    {
        self.value.is_some() || self.writable.is_some()
    }

    /// IsGenericDescriptor (ECMA-262, 6.2.6.3): there is no field of either kind.
    pub fn is_generic(&self) -> bool
        ensures { result ≡ is_generic_descriptor self.now }
    {
        !self.is_accessor() && !self.is_data()
    }

    fn has_no_field(&self) -> bool
        ensures { result ≡ has_no_fields self.now }
    {
        self.is_generic() && self.enumerable.is_none() && self.configurable.is_none()
    }
}

impl<V: Copy> Full<V> {
    fn is_accessor(&self) -> bool
        ensures { result ≡ is_accessor_property self.now }
    {
        matches!(self, Full::Accessor { .. })
    }

    fn is_enumerable(&self) -> bool
        ensures { result ≡ is_enumerable self.now }
    {
        match self {
            Full::Datum { enumerable, .. } | Full::Accessor { enumerable, .. } => *enumerable,
        }
    }

    fn is_configurable(&self) -> bool
        ensures { result ≡ is_configurable self.now }
    {
        match self {
            Full::Datum { configurable, .. } | Full::Accessor { configurable, .. } => *configurable,
        }
    }
}

// Whether the field is given with another value than the one there.
fn is_changed<A: Copy + Eq>(given: Option<A>, there: A) -> bool
    ensures { result ≡ changes A.eq given there }
{
    match given {
        Some(value) => value != there,
        None => false,
    }
}

// Whether a property that isn't configurable refuses the fields of its kind.
fn refuses_its_fields<V: Slot>(current: &Full<V>, desc: &Desc<V>) -> bool
    ensures { result ≡ refuses_fields V.eq current.now desc.now }
{
    match *current {
        Full::Accessor { get, set, .. } => is_changed(desc.get, get) || is_changed(desc.set, set),
        Full::Datum {
            value,
            writable,
            ..
        } => { !writable && (desc.writable == Some(true) || is_changed(desc.value, value)) }
    }
}

// Whether a property that isn't configurable refuses the descriptor.
fn is_refused<V: Slot>(current: &Full<V>, desc: &Desc<V>) -> bool
    ensures { result ≡ refuses V.eq current.now desc.now }
{
    desc.configurable == Some(true)
        || is_changed(desc.enumerable, current.is_enumerable())
        || (!desc.is_generic() && desc.is_accessor() != current.is_accessor())
        || refuses_its_fields(current, desc)
}

// The property with the descriptor's fields put over it.
fn applied<V: Slot>(current: Full<V>, desc: Desc<V>) -> Full<V>
    requires { IsOfOneKind desc }
    ensures { result ≡ Applied V.undefined_value current desc }
{
    let enumerable = desc.enumerable.unwrap_or(current.is_enumerable());
    let configurable = desc.configurable.unwrap_or(current.is_configurable());
    match current {
        Full::Datum {
            value,
            writable,
            ..
        } if !desc.is_accessor() => Full::Datum {
            value: desc.value.unwrap_or(value),
            writable: desc.writable.unwrap_or(writable),
            enumerable,
            configurable,
        },
        Full::Accessor { get, set, .. } if !desc.is_data() => Full::Accessor {
            get: desc.get.unwrap_or(get),
            set: desc.set.unwrap_or(set),
            enumerable,
            configurable,
        },
        _ => complete(Desc {
            enumerable: Some(enumerable),
            configurable: Some(configurable),
            ..desc
        }),
    }
}

// The rules on prototypes, flags, properties and values.
ghost use Rattle.std.specs.Prelude.{◌≡◌};
ghost use Rattle.mb_base.specs.declared.value.Value.TheVariants.{Undefined};
ghost use Rattle.mb_check.specs.Rules as rule;
ghost use Rattle.mb_check.specs.Values.{is_object};
ghost use Rattle.mb_desc.specs.Descriptors as descriptor;
ghost use Rattle.mb_desc.specs.Descriptors.{descriptor_of, is_configurable, IsOfOneKind};
ghost use Rattle.mb_desc.specs.Values.{equal};

use crate::Verdict;
use mb_base::Value;
use mb_desc::{Desc, Full, compatible};

/// getPrototypeOf (ECMA-262, 10.5.1): the trap gave `said`; `real` is the target's prototype where the target isn't
/// extensible. The rule is 2.
pub fn get_prototype(said: Value, real: Option<Value>) -> Verdict
    ensures { result ≡ rule.get_prototype equal said real }
{
    match real {
        Some(prototype) if said != prototype => Verdict::Broken(2),
        _ => Verdict::Pass,
    }
}

/// setPrototypeOf (ECMA-262, 10.5.2): the trap answered true for `given`; `real` is the target's prototype where the
/// target isn't extensible. The rule is 3.
pub fn set_prototype(given: Value, real: Option<Value>) -> Verdict
    ensures { result ≡ rule.set_prototype equal given real }
{
    match real {
        Some(prototype) if given != prototype => Verdict::Broken(3),
        _ => Verdict::Pass,
    }
}

/// isExtensible (ECMA-262, 10.5.3): the trap gave `said`, and the target is extensible or not. The rule is 4.
pub fn is_extensible(said: bool, real: bool) -> Verdict
    ensures { result ≡ rule.is_extensible said real }
{
    if said == real {
        Verdict::Pass
    } else {
        Verdict::Broken(4)
    }
}

/// preventExtensions (ECMA-262, 10.5.4): the trap answered true. The rule is 5.
pub fn prevent_extensions(extensible: bool) -> Verdict
    ensures { result ≡ rule.prevent_extensions extensible }
{
    if extensible {
        Verdict::Broken(5)
    } else {
        Verdict::Pass
    }
}

/// getOwnPropertyDescriptor (ECMA-262, 10.5.5) where the trap gave undefined. The rules are 7 and 8.
pub fn own_absent(real: Option<Full<Value>>, extensible: bool) -> Verdict
    ensures { result ≡ rule.own_absent real extensible }
{
    match real {
        Some(property) if is_fixed(property) => Verdict::Broken(7),
        Some(_) if !extensible => Verdict::Broken(8),
        _ => Verdict::Pass,
    }
}

/// getOwnPropertyDescriptor (ECMA-262, 10.5.5) where the trap gave a descriptor, which was completed to `said`. The
/// rules are 9 to 11.
pub fn own_present(said: Full<Value>, real: Option<Full<Value>>, extensible: bool) -> Verdict
    ensures { result ≡ rule.own_present equal Undefined said real extensible }
{
    if !compatible(extensible, whole(said), real) {
        return Verdict::Broken(9);
    }
    if !is_fixed(said) {
        return Verdict::Pass;
    }
    match real {
        Some(property) if is_fixed(property) => {
            if is_unwritable(said) && is_writable(property) {
                Verdict::Broken(11)
            } else {
                Verdict::Pass
            }
        }
        _ => Verdict::Broken(10),
    }
}

/// defineProperty (ECMA-262, 10.5.6): the trap answered true for `given`. The rules are 12 and 13 where the target
/// lacks the property, and else 14 to 16.
pub fn define(given: Desc<Value>, real: Option<Full<Value>>, extensible: bool) -> Verdict
    requires { IsOfOneKind given }
    ensures { result ≡ rule.define equal Undefined given real extensible }
{
    let fixes = given.configurable == Some(false);
    let Some(property) = real else {
        return if !extensible {
            Verdict::Broken(12)
        } else if fixes {
            Verdict::Broken(13)
        } else {
            Verdict::Pass
        };
    };
    if !compatible(extensible, given, real) {
        Verdict::Broken(14)
    } else if fixes && !is_fixed(property) {
        Verdict::Broken(15)
    } else if given.writable == Some(false) && is_writable(property) && is_fixed(property) {
        Verdict::Broken(16)
    } else {
        Verdict::Pass
    }
}

/// has (ECMA-262, 10.5.7) where the trap answered false. The rule is 17.
pub fn has_not(real: Option<Full<Value>>, extensible: bool) -> Verdict
    ensures { result ≡ rule.has_not real extensible }
{
    match real {
        Some(property) if is_fixed(property) || !extensible => Verdict::Broken(17),
        _ => Verdict::Pass,
    }
}

/// get (ECMA-262, 10.5.8): the trap gave `said`. The rule is 18.
pub fn get(said: Value, real: Option<Full<Value>>) -> Verdict
    ensures { result ≡ rule.get equal Undefined said real }
{
    match real {
        Some(
            Full::Datum {
                value,
                writable: false,
                configurable: false,
                ..
            },
        ) if said != value => Verdict::Broken(18),
        Some(
            Full::Accessor {
                get,
                configurable: false,
                ..
            },
        ) if get == Value::Undefined && said != Value::Undefined => Verdict::Broken(18),
        _ => Verdict::Pass,
    }
}

/// set (ECMA-262, 10.5.9): the trap answered true for `given`. The rule is 19.
pub fn set(given: Value, real: Option<Full<Value>>) -> Verdict
    ensures { result ≡ rule.set equal Undefined given real }
{
    match real {
        Some(
            Full::Datum {
                value,
                writable: false,
                configurable: false,
                ..
            },
        ) if given != value => Verdict::Broken(19),
        Some(
            Full::Accessor {
                set,
                configurable: false,
                ..
            },
        ) if set == Value::Undefined => Verdict::Broken(19),
        _ => Verdict::Pass,
    }
}

/// deleteProperty (ECMA-262, 10.5.10) where the trap answered true. The rule is 20.
pub fn delete(real: Option<Full<Value>>, extensible: bool) -> Verdict
    ensures { result ≡ rule.delete real extensible }
{
    match real {
        Some(property) if is_fixed(property) || !extensible => Verdict::Broken(20),
        _ => Verdict::Pass,
    }
}

/// construct (ECMA-262, 10.5.13): the trap gave `said`. The rule is 24.
pub fn construct(said: Value) -> Verdict
    ensures { result ≡ rule.construct is_object said }
{
    match said {
        Value::Object(_) => Verdict::Pass,
        _ => Verdict::Broken(24),
    }
}

// A property that isn't configurable.
fn is_fixed(property: Full<Value>) -> bool
    ensures { result ≡ descriptor.is_fixed property }
{
    match property {
        Full::Datum { configurable, .. } | Full::Accessor { configurable, .. } => !configurable,
    }
}

// A data property that can be written.
fn is_writable(property: Full<Value>) -> bool
    ensures { result ≡ descriptor.is_writable property }
{
    matches!(property, Full::Datum { writable: true, .. })
}

// A data property that can't be written.
fn is_unwritable(property: Full<Value>) -> bool
    ensures { result ≡ descriptor.is_unwritable property }
{
    matches!(
        property,
        Full::Datum {
            writable: false,
            ..
        }
    )
}

// The descriptor with all fields of a property.
fn whole(property: Full<Value>) -> Desc<Value>
    ensures descriptor { result ≡ descriptor_of property }
    ensures kind { IsOfOneKind result }
{
    match property {
        Full::Datum {
            value,
            writable,
            enumerable,
            configurable,
        } => Desc {
            value: Some(value),
            writable: Some(writable),
            get: None,
            set: None,
            enumerable: Some(enumerable),
            configurable: Some(configurable),
        },
        Full::Accessor {
            get,
            set,
            enumerable,
            configurable,
        } => Desc {
            value: None,
            writable: None,
            get: Some(get),
            set: Some(set),
            enumerable: Some(enumerable),
            configurable: Some(configurable),
        },
    }
}

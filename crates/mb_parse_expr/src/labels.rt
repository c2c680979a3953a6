// Nodes and their names and numbers.
ghost use Rattle.std.specs.Prelude.{◌≡◌, ◌<◌, ◌^◌};
ghost use Rattle.mb_tree.specs.declared.kind.Kind.TheVariants as k;
ghost use Rattle.mb_tree.specs.Roses as roses;
ghost use Rattle.mb_grammar.specs.Labels.{named_property, whole_property, computed_property, value_label, made_label};
ghost use Rattle.mb_parse_expr.specs.machine.Machine.{extra_of, made_extra};

use mb_base::StrId;
use mb_grammar::{Maker, Property};
use mb_tree::{Kind, Label, PropKey};

pub fn numbered(whole: i64) -> Label
    ensures { result ≡ roses.numbered k.Number whole }
{
    Label {
        kind: Kind::Number,
        name: None,
        whole,
    }
}

pub fn word_property(name: StrId) -> Property
    ensures { result ≡ named_property name }
{
    Property {
        key: PropKey::Named,
        name: Some(name),
        whole: 0,
    }
}

pub fn number_property(whole: i64) -> Property
    ensures { result ≡ whole_property whole }
{
    Property {
        key: PropKey::Whole,
        name: None,
        whole,
    }
}

pub fn bracket_property() -> Property
    ensures { result ≡ computed_property }
{
    Property {
        key: PropKey::Computed,
        name: None,
        whole: 0,
    }
}

// The node of a property with a value.
pub fn valued(property: Property) -> Label
    ensures { result ≡ value_label property }
{
    Label {
        kind: Kind::Value(property.key),
        name: property.name,
        whole: property.whole,
    }
}

// The node of what has so many parameters and a body in braces.
pub fn made(maker: Maker, params: usize) -> Label
    requires { params < 2 ^ 32 }
    ensures { result ≡ made_label maker params }
{
    let params = params as u32;
    match maker {
        Maker::Arrow => Label::bare(Kind::Arrow {
            params,
            block: true,
        }),
        Maker::Function(name) => Label {
            kind: Kind::Function { params },
            name,
            whole: 0,
        },
        Maker::Method(property) => Label {
            kind: Kind::Method {
                key: property.key,
                params,
            },
            name: property.name,
            whole: property.whole,
        },
        Maker::Getter(property) => Label {
            kind: Kind::Getter(property.key),
            name: property.name,
            whole: property.whole,
        },
        Maker::Setter(property) => Label {
            kind: Kind::Setter(property.key),
            name: property.name,
            whole: property.whole,
        },
    }
}

// How many operands a property's name is.
pub fn extra(property: Property) -> usize
    ensures { result ≡ extra_of property }
{
    match property.key {
        PropKey::Computed => 1,
        _ => 0,
    }
}

// How many operands stand before the parameters.
pub fn extra_before(maker: Maker) -> usize
    ensures { result ≡ made_extra maker }
{
    match maker {
        Maker::Arrow | Maker::Function(_) => 0,
        Maker::Method(property) | Maker::Getter(property) | Maker::Setter(property) => {
            extra(property)
        }
    }
}

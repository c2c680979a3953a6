// What the properties of an object literal are.
ghost use Rattle.std.specs.Prelude.{◌≡◌, IfSome, None, Some, false, slice_get};
ghost use Rattle.mb_base.specs.declared.value.Side.{Side as ASide};
ghost use Rattle.mb_frames.specs.Grammatical.{HasItsParts};
ghost use Rattle.mb_frames.specs.Kinds.{is_prop_form};
ghost use Rattle.mb_frames.specs.Running.{CanRun};
ghost use Rattle.mb_frames.specs.Standing.{forms_at};
ghost use Rattle.mb_frames.specs.Told.{FormIn, IsNodeOf, NameIn, told_at};
ghost use Rattle.mb_tree.specs.Seen.{seen, seen_name};
ghost use Rattle.mb_world.specs.Data.{Data};
ghost use Rattle.mb_eval_expr.specs.machine.Literals.{HasItsNodes, IsProp, described_by};

use mb_base::{NodeId, Side, Value};
use mb_desc::Desc;
use mb_frames::form_at;
use mb_parts::open_desc;
use mb_tree::{Form, PropName};
use mb_world::World;

// What a property has: the node of its value, or so many Params.
#[derive(Clone, Copy)]
pub(crate) enum Definition {
    Value(NodeId),
    Method(usize),
    Getter(usize),
    Setter(usize),
}

// How a property is named, and what it has; `None` for a node that is none.
fn definition_of(form: Form<'_>) -> Option<(PropName, Definition)>
    ensures prop { (home : ASide) (d : Data) →
        IfSome result (λ p. IsProp d (Some (told_at d home (seen form.entry))) p.0 p.1) }
    ensures none { result ≡ None → (home : ASide) (d : Data) → is_prop_form (Some (told_at d home (seen form.entry)))
        ≡ false }
    ensures names { (d : Data) → FormIn d (seen form.entry) → IfSome result (λ p. NameIn d (seen_name p.0)) }
    ensures nodes { (home : ASide) (d : Data) → HasItsParts (IsNodeOf d home) (seen form.entry) →
        IfSome result (λ p. HasItsNodes d home p.0 p.1) }
{
    match form {
        Form::Value { key, value } => Some((key, Definition::Value(value))),
        Form::Method { key, parts } => Some((key, Definition::Method(parts.params.len()))),
        Form::Getter { key, parts } => Some((key, Definition::Getter(parts.params.len()))),
        Form::Setter { key, parts } => Some((key, Definition::Setter(parts.params.len()))),
        _ => None,
    }
}

// So of a node.
pub(crate) fn definition_at(
    w: &World,
    home: Side,
    property: NodeId,
) -> Option<(PropName, Definition)>
    requires { CanRun w.now home }
    ensures prop { IfSome result (λ p. IsProp w.now (slice_get (forms_at w.now home) property.0) p.0 p.1) }
    ensures none { result ≡ None → is_prop_form (slice_get (forms_at w.now home) property.0) ≡ false }
    ensures names { IfSome result (λ p. NameIn w.now (seen_name p.0)) }
    ensures nodes { IfSome result (λ p. HasItsNodes w.now home p.0 p.1) }
{
    match form_at(w, home, property) {
        Some(form) => definition_of(form),
        None => None,
    }
}

// The descriptor of a method, getter or setter.
pub(crate) fn method_desc(definition: Definition, function: Value) -> Desc<Value>
    ensures { result ≡ described_by definition function }
{
    match definition {
        Definition::Getter(_) => Desc {
            value: None,
            writable: None,
            get: Some(function),
            set: None,
            enumerable: Some(true),
            configurable: Some(true),
        },
        Definition::Setter(_) => Desc {
            value: None,
            writable: None,
            get: None,
            set: Some(function),
            enumerable: Some(true),
            configurable: Some(true),
        },
        _ => open_desc(function),
    }
}

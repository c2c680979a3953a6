// Functions by the forms of their nodes.
ghost use Rattle.std.specs.Prelude.{◌≡◌, None, Some, false, true, slice_get, IfSome};
ghost use Rattle.mb_base.specs.declared.value.Side.{Side as ASide};
ghost use Rattle.mb_frames.specs.Kinds.{is_function_form};
ghost use Rattle.mb_frames.specs.Running.{CanRun};
ghost use Rattle.mb_frames.specs.Standing.{forms_at};
ghost use Rattle.mb_frames.specs.Told.{told_at};
ghost use Rattle.mb_tree.specs.Seen.{seen};
ghost use Rattle.mb_world.specs.Data.{Data};
ghost use Rattle.mb_call.specs.machine.Functions.{IsShape};

use mb_base::{NodeId, Side};
use mb_frames::form_at;
use mb_tree::Form;
use mb_world::World;

/// Whether a function has a name that stands in a scope of its own, and whether its body is statements.
#[derive(Clone, Copy)]
pub(crate) struct FunctionShape {
    pub(crate) named: bool,
    pub(crate) block: bool,
}

// The shape of a node that is a function.
pub(crate) fn shape_of(w: &World, home: Side, node: NodeId) -> Option<FunctionShape>
    requires { CanRun w.now home }
    ensures shape { IfSome result (IsShape (slice_get (forms_at w.now home) node.0)) }
    ensures none { result ≡ None → is_function_form (slice_get (forms_at w.now home) node.0) ≡ false }
{
    match form_at(w, home, node) {
        Some(form) => shape_by(form),
        None => None,
    }
}

fn shape_by(form: Form<'_>) -> Option<FunctionShape>
    ensures shape { (home : ASide) (d : Data) →
        IfSome result (IsShape (Some (told_at d home (seen form.entry)))) }
    ensures none { (home : ASide) (d : Data) → result ≡ None →
        is_function_form (Some (told_at d home (seen form.entry))) ≡ false }
{
    match form {
        Form::FunctionDecl { .. } => Some(statements(false)),
        Form::Function { name, .. } => Some(statements(name.is_some())),
        Form::Arrow { block, .. } => Some(FunctionShape {
            named: false,
            block,
        }),
        Form::Method { .. } => Some(statements(false)),
        Form::Getter { .. } => Some(statements(false)),
        Form::Setter { .. } => Some(statements(false)),
        _ => None,
    }
}

// A body of statements.
fn statements(named: bool) -> FunctionShape
    ensures { result ≡ record { named = named; block = true } }
{
    FunctionShape { named, block: true }
}

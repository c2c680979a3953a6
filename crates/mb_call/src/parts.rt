// The parts of a function's node, and keys that are words.
ghost use Rattle.std.specs.Prelude.{◌≡◌, ◌≤◌, ◌^◌, Some, length, option_map, slice_get, All, IfOk, IfSome, OnErr, OnOk};
ghost use Rattle.mb_base.specs.declared.value.Side.{Side as ASide};
ghost use Rattle.mb_tree.specs.Seen.{seen};
ghost use Rattle.mb_frames.specs.Grammatical.{HasItsParts};
ghost use Rattle.mb_frames.specs.Passing.{TextsGrew};
ghost use Rattle.mb_frames.specs.Rest.Parts.{body_at, body_of};
ghost use Rattle.mb_frames.specs.Running.{CanRun};
ghost use Rattle.mb_frames.specs.Standing.{forms_at};
ghost use Rattle.mb_frames.specs.Told.{HasNames, IsNodeOf, number_if, numbers_of, params_of, shapes_of, told_at};
ghost use Rattle.mb_world.specs.Data.{Data, program_of};
ghost use Rattle.mb_world.specs.FormOf.{names_at};
ghost use Rattle.mb_world.specs.Ids.{KeyIn, Maybe, TextIn};
ghost use Rattle.mb_world.specs.Image.{key_in, names_of, nodes_in, text_in};
ghost use Rattle.mb_world.specs.Key.{Named};
ghost use Rattle.mb_call.specs.machine.Functions.{has_block, params_at, params_of as params_by, sort_by_block};

use mb_base::{Key, NoMemory, NodeId, Side, StrId};
use mb_frames::{form_at, name_of};
use mb_parts::word;
use mb_tree::Form;
use mb_world::World;

// The body of a node that is a function.
fn body_of(form: Form<'_>) -> &[NodeId]
    ensures parts { (home : ASide) (d : Data) →
        numbers_of result.now ≡ body_of (Some (told_at d home (seen form.entry))) }
    ensures sorts { (home : ASide) (d : Data) → HasItsParts (IsNodeOf d home) (seen form.entry) →
        All (IsNodeOf d home (sort_by_block (has_block (Some (told_at d home (seen form.entry)))))) result.now }
{
    match form {
        Form::FunctionDecl { parts, .. } => parts.body,
        Form::Function { parts, .. } => parts.body,
        Form::Arrow { parts, .. } => parts.body,
        Form::Method { parts, .. } => parts.body,
        Form::Getter { parts, .. } => parts.body,
        Form::Setter { parts, .. } => parts.body,
        _ => &[],
    }
}

// The Params of a node that is a function.
fn params_of(form: Form<'_>) -> &[NodeId]
    ensures names { (home : ASide) (d : Data) → names_at (nodes_in d.texts (shapes_of (program_of d home)))
        (numbers_of result.now) ≡ params_by (Some (told_at d home (seen form.entry))) }
    ensures named { (home : ASide) (d : Data) → HasNames d home (params_of (seen form.entry)) →
        HasNames d home result.now }
{
    match form {
        Form::FunctionDecl { parts, .. } => parts.params,
        Form::Function { parts, .. } => parts.params,
        Form::Arrow { parts, .. } => parts.params,
        Form::Method { parts, .. } => parts.params,
        Form::Getter { parts, .. } => parts.params,
        Form::Setter { parts, .. } => parts.params,
        _ => &[],
    }
}

// How many parts a function's body has.
pub(crate) fn body_count(w: &World, home: Side, node: NodeId) -> usize
    requires { CanRun w.now home }
    ensures { result ≡ length (body_at (forms_at w.now home) node.0) }
{
    match form_at(w, home, node) {
        Some(form) => body_of(form).len(),
        None => 0,
    }
}

// The part at that place of a function's body.
pub(crate) fn body_part(w: &World, home: Side, node: NodeId, place: usize) -> Option<NodeId>
    requires { CanRun w.now home }
    ensures part { number_if result ≡ slice_get (body_at (forms_at w.now home) node.0) place }
    ensures sort { IfSome result (λ id.
        IsNodeOf w.now home (sort_by_block (has_block (slice_get (forms_at w.now home) node.0))) id) }
{
    let form = form_at(w, home, node)?;
    body_of(form).get(place).copied()
}

// How many parameters a function has.
pub(crate) fn param_count(w: &World, home: Side, node: NodeId) -> usize
    requires { CanRun w.now home }
    ensures { result ≡ length (params_at (forms_at w.now home) node.0) }
{
    match form_at(w, home, node) {
        Some(form) => params_of(form).len(),
        None => 0,
    }
}

// The name of the parameter at that place.
pub(crate) fn param_name(w: &World, home: Side, node: NodeId, place: usize) -> Option<StrId>
    requires { CanRun w.now home }
    ensures name { option_map (text_in (names_of w.now)) result
        ≡ slice_get (params_at (forms_at w.now home) node.0) place }
    ensures text { Maybe (TextIn w.now) result }
{
    let form = form_at(w, home, node)?;
    match params_of(form).get(place) {
        Some(param) => Some(name_of(w, home, *param)),
        None => None,
    }
}

/// The key that a word spells, which is added to the texts where it isn't there yet.
pub fn key_of_word(w: &mut World, units: &[u16]) -> Result<Key, NoMemory>
    requires units { length units.now ≤ 2 ^ 20 }
    ensures key { IfOk result (λ k. key_in (names_of w.new) k ≡ Named units.now) }
    ensures within { IfOk result (KeyIn w.new) }
    ensures grew { OnOk result (TextsGrew w.old w.new) }
    ensures kept { OnErr result (w.new ≡ w.old) }
{
    let text = word(w, units)?;
    Ok(w.texts().key(text))
}

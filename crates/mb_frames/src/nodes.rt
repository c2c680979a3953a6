// The nodes of a side's script, by the parts that rows read.
ghost use Rattle.std.specs.Prelude.{◌≡◌, ◌+◌, All, IfOk, IfSome, Some, length, option_map, slice_get};
ghost use Rattle.mb_base.specs.declared.value.Side.{Side as ASide};
ghost use Rattle.mb_tree.specs.Seen.{seen};
ghost use Rattle.mb_frames.specs.Grammatical.{HasItsParts};
ghost use Rattle.mb_frames.specs.Resolved.{node_in};
ghost use Rattle.mb_frames.specs.Rest.Parts.{parts_at, parts_of};
ghost use Rattle.mb_frames.specs.Rest.Statements.{lets_of};
ghost use Rattle.mb_frames.specs.Running.{CanRun};
ghost use Rattle.mb_frames.specs.Standing.{forms_at};
ghost use Rattle.mb_frames.specs.Told.{FormIn, HasNames, IsNamed, IsNodeOf, number_if, numbers_of, params_of, shapes_of, sort_of_parts, told_at};
ghost use Rattle.mb_world.specs.Data.{Data, program_of};
ghost use Rattle.mb_world.specs.FormOf.{name_at};
ghost use Rattle.mb_world.specs.Ids.{TextIn};
ghost use Rattle.mb_world.specs.Image.{names_of, nodes_in, text_in};

use mb_base::{NoMemory, NodeId, Side, StrId};
use mb_tree::Form;
use mb_world::World;

/// The node of that number with its parts by name, or `None` where the side's script has no such node.
pub fn form_at(w: &World, home: Side, node: NodeId) -> Option<Form<'_>>
    requires { CanRun w.now home }
    ensures form { option_map (told_at w.now home) (option_map seen result) ≡ slice_get (forms_at w.now home) node.0 }
    ensures parts { IfSome result (λ form. HasItsParts (IsNodeOf w.now home) (seen form)) }
    ensures named { IfSome result (λ form. HasNames w.now home (params_of (seen form))) }
    ensures texts { IfSome result (λ form. FormIn w.now (seen form)) }
{
    let program = w.program(home)?;
    let node = program.tree.nodes.get(node.0 as usize)?;
    node.form()
}

// The parts of a node whose row goes through them.
fn list_of(form: Form<'_>) -> &[NodeId]
    ensures parts { (home : ASide) (d : Data) →
        numbers_of result.now ≡ parts_of (Some (told_at d home (seen form.entry))) }
    ensures sorts { (home : ASide) (d : Data) → HasItsParts (IsNodeOf d home) (seen form.entry) →
        All (IsNodeOf d home (sort_of_parts (Some (told_at d home (seen form.entry))))) result.now }
{
    match form {
        Form::Script { statements } | Form::Block { statements } => statements,
        Form::Let { decls } | Form::Const { decls } => decls,
        Form::Call { arguments, .. } | Form::New { arguments, .. } => arguments,
        Form::ArrayLit { elements } => elements,
        Form::ObjectLit { properties } => properties,
        Form::Seq { values } => values,
        _ => &[],
    }
}

/// How many parts a node has whose row goes through them: statements, declarations, arguments, elements, properties or
/// expressions; 0 for any other node.
pub fn count_of(w: &World, home: Side, node: NodeId) -> usize
    requires { CanRun w.now home }
    ensures { result ≡ length (parts_at (forms_at w.now home) node.0) }
{
    match form_at(w, home, node) {
        Some(form) => list_of(form).len(),
        None => 0,
    }
}

/// The part at that place, from 0 on, of a node whose row goes through them; `None` past the last one.
pub fn part_at(w: &World, home: Side, node: NodeId, place: usize) -> Option<NodeId>
    requires { CanRun w.now home }
    ensures part { number_if result ≡ slice_get (parts_at (forms_at w.now home) node.0) place }
    ensures sort { IfSome result (λ id.
        IsNodeOf w.now home (sort_of_parts (slice_get (forms_at w.now home) node.0)) id) }
{
    let form = form_at(w, home, node)?;
    list_of(form).get(place).copied()
}

/// Whether that part is there and declares names with `let` (ECMA-262, 14.7.4).
pub fn declares(w: &World, home: Side, first: Option<NodeId>) -> bool
    requires { CanRun w.now home }
    ensures { result ≡ lets_of (forms_at w.now home) (node_in first) }
{
    match first {
        Some(first) => matches!(form_at(w, home, first), Some(Form::Let { .. })),
        None => false,
    }
}

/// The place of the next part; `NoMemory` where it has no place below 2^32.
pub fn after(place: usize) -> Result<u32, NoMemory>
    ensures { IfOk result (λ next. next ≡ place + 1) }
{
    if place < u32::MAX as usize {
        Ok(place as u32 + 1)
    } else {
        Err(NoMemory)
    }
}

/// The name of a Param.
pub fn name_of(w: &World, home: Side, param: NodeId) -> StrId
    requires world { CanRun w.now home }
    requires named { IsNamed (slice_get (shapes_of (program_of w.now home)) param.0) }
    ensures name { text_in (names_of w.now) result
        ≡ name_at (slice_get (nodes_in w.now.texts (shapes_of (program_of w.now home))) param.0) }
    ensures text { TextIn w.now result }
{
    match w.program(home) {
        Some(program) => match program.tree.nodes.get(param.0 as usize) {
            Some(node) => match node.name {
                Some(name) => name,
                None => unreachable!(),
            },
            None => unreachable!(),
        },
        None => unreachable!(),
    }
}

// Literals of arrays (ECMA-262, 13.2.4).
ghost use Rattle.std.specs.Prelude.{◌+◌, ◌∷◌, [], ℕ, drop};
ghost use Rattle.mb_frames.specs.Held.{HeldArray, HeldNode, HeldValue};
ghost use Rattle.mb_frames.specs.Ready.{Holds, IsReady, Keeps};
ghost use Rattle.mb_frames.specs.Resolved.{context_in};
ghost use Rattle.mb_frames.specs.Rest.Parts.{parts_at};
ghost use Rattle.mb_frames.specs.Standing.{forms_at};
ghost use Rattle.mb_model.specs.Meaning.{finished};
ghost use Rattle.mb_model.specs.Nodes.Literals.{elements};
ghost use Rattle.mb_model.specs.Objects.Methods.{store_element};
ghost use Rattle.mb_model.specs.Operations.Makings.{make_array};
ghost use Rattle.mb_model.specs.Writing.{◌>>=◌ as after_that};
ghost use Rattle.mb_world.specs.Ids.{ObjIn};
ghost use Rattle.mb_world.specs.Image.{Resolve, names_of, object_in};
ghost use Rattle.mb_frames.specs.Passing.{Part};
ghost use Rattle.mb_parts.specs.Standing.{Acts, ContextIn};
ghost use Rattle.mb_frames.specs.Holding.{expr_held};
ghost use Rattle.mb_frames.specs.Kinds.{is_array_form};
ghost use Rattle.mb_frames.specs.Sorts.{AValue};
ghost use Rattle.mb_frames.specs.declared.expressions.ExprFrame.TheVariants as TheFrame;
ghost use Rattle.mb_eval_expr.specs.machine.Keeping.{context_held};

use crate::giving::value;
use mb_base::{NodeId, ObjId, Side, Value};
use mb_frames::{Context, ExprFrame, Frame, Halt, Move, Task, part_at};
use mb_parts::{empty_array, store_element};
use mb_world::World;

// An array literal begins.
pub(crate) fn array_row(w: &mut World, home: Side, at: Context, node: NodeId) -> Result<Move, Halt>
    requires acts { Acts w.old home }
    requires at { ContextIn w.old at }
    ensures row { (f : ℕ) → Part home result w.old w.new f f (after_that (make_array home.0 [])
        (λ a. elements (context_in (names_of w.old) home.0 at) a 0 (parts_at (forms_at w.old home) node.0)) finished) }
    ensures keeps { Keeps home AValue (HeldNode is_array_form node.0 ∷ context_held at) result w.old w.new }
{
    let array = empty_array(w, home)?;
    elements_from(w, home, at, node, array, 0)
}

// The elements of an array literal from the next on.
fn elements_from(
    w: &World,
    home: Side,
    at: Context,
    node: NodeId,
    array: ObjId,
    place: u32,
) -> Result<Move, Halt>
    requires acts { Acts w.now home }
    requires at { ContextIn w.now at }
    requires array { ObjIn w.now array }
    ensures row { (f : ℕ) → Part home result w.now w.now f f (elements (context_in (names_of w.now) home.0 at)
        (object_in (names_of w.now) array) place (drop place (parts_at (forms_at w.now home) node.0)) finished) }
    ensures keeps { Keeps home AValue (expr_held (TheFrame.Element at node array place)) result w.now w.now }
{
    match part_at(w, home, node, place as usize) {
        Some(part) => Ok(Move::Wait(
            Frame::Expr(ExprFrame::Element {
                at,
                node,
                array,
                place,
            }),
            Task::Evaluate { node: part, at },
        )),
        None => Ok(value(Value::Object(array))),
    }
}

// An element of an array literal is there.
pub(crate) fn element_got(
    w: &mut World,
    home: Side,
    at: Context,
    node: NodeId,
    array: ObjId,
    place: u32,
    x: Value,
) -> Result<Move, Halt>
    requires acts { Acts w.old home }
    requires ready { IsReady w.old }
    requires at { ContextIn w.old at }
    requires holds { Holds w.old home (HeldArray array ∷ HeldValue x ∷ []) }
    ensures row { (f : ℕ) → Part home result w.old w.new f f (after_that
        (store_element home.0 (object_in (names_of w.old) array) place (Resolve (names_of w.old) x))
        (λ b. elements (context_in (names_of w.old) home.0 at) (object_in (names_of w.old) array) (place + 1)
        (drop (place + 1) (parts_at (forms_at w.old home) node.0))) finished) }
    ensures keeps { Keeps home AValue (HeldValue x ∷ expr_held (TheFrame.Element at node array place)) result w.old
        w.new }
{
    if place >= u32::MAX - 1 {
        return Err(Halt::NoMemory);
    }
    store_element(w, home, array, place, x)?;
    elements_from(w, home, at, node, array, place + 1)
}

// `let` and `const` (ECMA-262, 14.3.1).
ghost use Rattle.std.specs.Prelude.{◌≡◌, ℕ, Bool, None, Some, drop, slice_get, IfSome, ◌++◌, ◌∷◌, []};
ghost use Rattle.mb_frames.specs.Resolved.{context_in, node_in};
ghost use Rattle.mb_frames.specs.Rest.Parts.{parts_at};
ghost use Rattle.mb_frames.specs.Standing.{forms_at};
ghost use Rattle.mb_frames.specs.Stepping.{Step, Written};
ghost use Rattle.mb_model.specs.Meaning.{finished};
ghost use Rattle.mb_model.specs.Nodes.Scopes.{initialize as initialized};
ghost use Rattle.mb_model.specs.Nodes.Evaluation.{Context as AContext};
ghost use Rattle.mb_model.specs.Nodes.Statements.{decl_of, give_each};
ghost use Rattle.mb_model.specs.Task.{Nothing};
ghost use Rattle.mb_model.specs.Writing.{◌>>=◌ as after_that, give};
ghost use Rattle.mb_world.specs.Form.{DeclForm};
ghost use Rattle.mb_world.specs.Ids.{HasItsIds, ScopeIn, TextIn, ValueIn, Maybe};
ghost use Rattle.mb_world.specs.Image.{Resolve, names_of, text_in};
ghost use Rattle.mb_world.specs.Value.{Val};
ghost use Rattle.mb_frames.specs.Running.{CanRun};
ghost use Rattle.mb_eval_stmt.specs.machine.Declaring.{Declares};
ghost use Rattle.mb_parts.specs.Standing.{ContextIn};
ghost use Rattle.mb_frames.specs.Held.{HeldNode, HeldValue};
ghost use Rattle.mb_frames.specs.Holding.{stmt_held};
ghost use Rattle.mb_frames.specs.Kinds.{Expression, is_declaring_form};
ghost use Rattle.mb_frames.specs.Ready.{Keeps};
ghost use Rattle.mb_frames.specs.Told.{IsNodeOf};
ghost use Rattle.mb_frames.specs.Sorts.{ACompletion};
ghost use Rattle.mb_frames.specs.declared.statements.StmtFrame.TheVariants as stmt;
ghost use Rattle.mb_frames.specs.Keeping.{KeepsOn, scope_held};
ghost use Rattle.mb_eval_stmt.specs.machine.Keeping.{context_held, declared_held};

use mb_base::{NodeId, ScopeId, Side, StrId, Value};
use mb_frames::{
    Answer, Context, Frame, Halt, Move, Outcome, StmtFrame, Task, after, count_of, form_at, part_at,
};
use mb_parts::initialize;
use mb_tree::Form;
use mb_world::World;

// The declarations of a list from that place on, up to the next one that has a value.
pub(crate) fn give_each(
    w: &mut World,
    home: Side,
    at: Context,
    node: NodeId,
    next: u32,
) -> Result<Move, Halt>
    requires world { CanRun w.old home }
    requires context { ContextIn w.old at }
    ensures row { (begun : Bool) (f : ℕ) (l : Written) → Step home begun result w.old w.new f f l l
        (give_each (context_in (names_of w.old) home.0 at)
        (drop next (parts_at (forms_at w.old home) node.0)) finished) }
    ensures keeps { Keeps home ACompletion (context_held at ++ HeldNode is_declaring_form node.0 ∷ []) result
        w.old w.new }
{
    for place in next as usize..count_of(w, home, node) {
        match part_at(w, home, node, place) {
            Some(decl) => {
                match give_one(w, home, at.scope, decl)? {
                    Some((name, value)) => {
                        let next = after(place)?;
                        let declared = StmtFrame::Declared {
                            at,
                            node,
                            name,
                            next,
                        };
                        let task = Task::Evaluate { node: value, at };
                        return Ok(Move::Wait(Frame::Stmt(declared), task));
                    }
                    None => {}
                }
            }
            None => unreachable!(),
        }
    }
    Ok(Move::Done(Outcome::Normal(Answer::Nothing)))
}

// Gives the name of a declaration without a value; of one with a value the name and the value are told.
fn give_one(
    w: &mut World,
    home: Side,
    scope: ScopeId,
    decl: NodeId,
) -> Result<Option<(StrId, NodeId)>, Halt>
    requires world { CanRun w.old home }
    requires scope { ScopeIn w.old scope }
    ensures gives { (this : Val) → Declares result w.old w.new (slice_get (forms_at w.old home) decl.0)
        (record { side = home.0; scope = scope.0; this = this }) }
    ensures keeps { KeepsOn home (scope_held scope) declared_held result w.old w.new }
    ensures ids { HasItsIds w.new }
{
    match decl_parts(w, home, decl) {
        Some((name, Some(value))) => {
            let _texts = w.texts();
            Ok(Some((name, value)))
        }
        Some((name, None)) => {
            initialize(w, scope, name, Value::Undefined)?;
            Ok(None)
        }
        None => {
            let _texts = w.texts();
            Ok(None)
        }
    }
}

// The name and the value of a node that is a declaration.
fn decl_parts(w: &World, home: Side, decl: NodeId) -> Option<(StrId, Option<NodeId>)>
    requires { CanRun w.now home }
    ensures parts { IfSome result (λ parts.
        slice_get (forms_at w.now home) decl.0 ≡ Some (DeclForm (text_in (names_of w.now) parts.0) (node_in parts.1))) }
    ensures text { IfSome result (λ parts. TextIn w.now parts.0) }
    ensures sort { IfSome result (λ parts. Maybe (IsNodeOf w.now home Expression) parts.1) }
    ensures none { result ≡ None → (c : AContext) → decl_of c (slice_get (forms_at w.now home) decl.0) ≡ give Nothing }
{
    match form_at(w, home, decl) {
        Some(Form::Decl { name, value }) => Some((name, value)),
        _ => None,
    }
}

// The value of a declaration is there, and the next ones follow.
pub(crate) fn declared(
    w: &mut World,
    home: Side,
    at: Context,
    node: NodeId,
    name: StrId,
    next: u32,
    x: Value,
) -> Result<Move, Halt>
    requires world { CanRun w.old home }
    requires context { ContextIn w.old at }
    requires name { TextIn w.old name }
    requires value { ValueIn w.old x }
    ensures row { (begun : Bool) (f : ℕ) (l : Written) → Step home begun result w.old w.new f f l l
        (after_that (initialized at.scope.0 (text_in (names_of w.old) name) (Resolve (names_of w.old) x))
        (λ given. give_each (context_in (names_of w.old) home.0 at)
        (drop next (parts_at (forms_at w.old home) node.0))) finished) }
    ensures keeps { Keeps home ACompletion (stmt_held (stmt.Declared at node name next) ++ HeldValue x ∷ []) result
        w.old w.new }
{
    initialize(w, at.scope, name, x)?;
    give_each(w, home, at, node, next)
}

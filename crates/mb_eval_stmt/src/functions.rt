// Functions of declarations (ECMA-262, 10.2, 14.2.3).
ghost use Rattle.std.specs.Prelude.{OnOk};
ghost use Rattle.mb_frames.specs.Going.{Changes};
ghost use Rattle.mb_frames.specs.Keeping.{KeepsOn, none_held, scope_held};
ghost use Rattle.mb_frames.specs.Making.{HasPrototypes};
ghost use Rattle.mb_frames.specs.Rest.Parts.{parts_at};
ghost use Rattle.mb_frames.specs.Running.{CanRun};
ghost use Rattle.mb_frames.specs.Standing.{forms_at};
ghost use Rattle.mb_model.specs.Nodes.Scopes.{declare};
ghost use Rattle.mb_world.specs.Ids.{HasItsIds, ScopeIn};

use mb_base::{NodeId, ScopeId, Side};
use mb_frames::{Halt, count_of, part_at};
use mb_parts::declare_one;
use mb_world::World;

// The functions of the declarations among the statements of a node are made, in order.
pub(crate) fn declare(w: &mut World, home: Side, scope: ScopeId, node: NodeId) -> Result<(), Halt>
    requires world { CanRun w.old home }
    requires built_ins { HasPrototypes w.old home }
    requires scope { ScopeIn w.old scope }
    ensures changes { Changes result w.old w.new
        (declare home.0 scope.0 (parts_at (forms_at w.old home) node.0)) }
    ensures keeps { KeepsOn home (scope_held scope) none_held result w.old w.new }
    ensures ids { HasItsIds w.new }
    ensures built_ins { OnOk result (HasPrototypes w.new home) }
{
    for place in 0..count_of(w, home, node) {
        match part_at(w, home, node, place) {
            Some(statement) => declare_one(w, home, scope, statement)?,
            None => unreachable!(),
        }
    }
    let _texts = w.texts();
    Ok(())
}

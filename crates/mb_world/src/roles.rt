// Which cell is a side's proxy of an object, and which is its built-in: the index behind both questions.
ghost use Rattle.std.specs.Prelude.{◌≡◌, ◌<◌, ◌≤◌, ◌+◌, IsOk, OnOk, OnErr};
ghost use Rattle.indexmap.specs.IndexMap.{spare};
ghost use Rattle.mb_world.specs.Data.{kind_stand, AtPlace};
ghost use Rattle.mb_world.specs.machine.Roles.{noted, plays_by, same_role};
ghost use Rattle.mb_world.specs.machine.Firsts.{or_if};
ghost use Rattle.mb_world.specs.declared.roles.Role.{Role};

use crate::cell::CellKind;
use indexmap::IndexMap;
use mb_base::{NoMemory, ObjId, Side};

/// What the first cell is looked up for: to be a side's proxy of an object, a side's built-in at a place of the
/// table, or any side's.
#[derive(Clone, Copy, Debug, PartialEq, Eq, Hash)]
pub(crate) enum Role {
    ProxyOf(Side, ObjId),
    BuiltInOf(Side, u16),
    BuiltIn(u16),
}

// The first cell that was noted for a role.
pub(crate) fn first(roles: &IndexMap<Role, ObjId>, role: Role) -> Option<ObjId>
    ensures { result ≡ noted roles.now.entries role }
{
    match roles.get(&role) {
        Some(id) => Some(*id),
        None => None,
    }
}

// Notes the cell for the role, unless another was noted before.
fn note(roles: &mut IndexMap<Role, ObjId>, role: Role, id: ObjId) -> Result<(), NoMemory>
    ensures noted { OnOk result ((r : Role)
        → noted roles.new.entries r ≡ or_if (same_role r role) id (noted roles.old.entries r)) }
    ensures kept { OnErr result (roles.new.entries ≡ roles.old.entries) }
    ensures succeeds { 0 < spare roles.old → IsOk result }
    ensures room { spare roles.old ≤ spare roles.new + 1 }
{
    if roles.contains_key(&role) {
        return Ok(());
    }
    roles.insert(role, id)?;
    Ok(())
}

// Notes a new cell of that home and kind for each role that it plays.
pub(crate) fn note_all(
    roles: &mut IndexMap<Role, ObjId>,
    home: Side,
    kind: &CellKind,
    id: ObjId,
) -> Result<(), NoMemory>
    ensures noted { OnOk result ((r : Role)
        → noted roles.new.entries r ≡ or_if (plays_by r home (kind_stand kind.now)) id (noted roles.old.entries r)) }
    ensures kept { OnErr result (roles.new.entries ≡ roles.old.entries) }
{
    match *kind {
        CellKind::Membrane { behind, .. } => note(roles, Role::ProxyOf(home, behind), id),
        CellKind::BuiltIn(place) => note_built_in(roles, home, place, id),
        _ => Ok(()),
    }
}

// Notes a new built-in, for its side and for all sides.
fn note_built_in(
    roles: &mut IndexMap<Role, ObjId>,
    home: Side,
    place: u16,
    id: ObjId,
) -> Result<(), NoMemory>
    ensures noted { OnOk result ((r : Role)
        → noted roles.new.entries r ≡ or_if (plays_by r home (AtPlace place)) id (noted roles.old.entries r)) }
    ensures kept { OnErr result (roles.new.entries ≡ roles.old.entries) }
{
    roles.reserve(2)?;
    note(roles, Role::BuiltInOf(home, place), id)?;
    note(roles, Role::BuiltIn(place), id)?;
    Ok(())
}

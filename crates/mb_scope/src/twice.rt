// Names that are bound twice.
ghost use Rattle.std.specs.Prelude.{◌≡◌, IfOk, OnOk, true, not, nat_eq};
ghost use Rattle.std.specs.HashSet.{contains, Updates};
ghost use Rattle.mb_tree.specs.Roses.{shapes};
ghost use Rattle.mb_tree.specs.Heights.{IsWhole};
ghost use Rattle.mb_scope.specs.machine.First.{IsFirst};
ghost use Rattle.mb_scope.specs.Bindings.{Repeats, IsTwice};

use crate::binding::{Binding, bound_together};
use crate::fault::first_of;
use mb_base::{NoMemory, NodeId, StrId};
use mb_tree::Tree;
use std::alloc::Global;
use std::collections::HashSet;

// Adds a name, and tells whether it is new.
fn add_name(seen: &mut HashSet<u32>, name: StrId) -> Result<bool, NoMemory>
    ensures new { IfOk result (λ new. new ≡ not (contains nat_eq seen.old name.0)) }
    ensures added { OnOk result (Updates nat_eq seen.old seen.new name.0 true) }
{
    Ok(seen.insert(name.0)?)
}

// The first node that binds a name which an earlier one of these binds.
fn first_repeat(alloc: Global, bindings: &[Binding]) -> Result<Option<NodeId>, NoMemory>
    ensures { IfOk result (IsFirst (λ id. id.0) (Repeats bindings.now)) }
{
    let mut seen = HashSet::new(alloc);
    let mut first = None;
    for binding in bindings {
        if !add_name(&mut seen, binding.name)? {
            first = first_of(first, Some(binding.node));
        }
    }
    Ok(first)
}

// The first node that binds a name a second time.
pub fn first_twice(alloc: Global, tree: &Tree) -> Result<Option<NodeId>, NoMemory>
    requires { IsWhole (shapes tree.now) }
    ensures { IfOk result (IsFirst (λ id. id.0) (IsTwice (shapes tree.now))) }
{
    let mut first = None;
    for node in &tree.nodes {
        let bindings = bound_together(alloc, tree, node)?;
        first = first_of(first, first_repeat(alloc, &bindings)?);
    }
    Ok(first)
}

// The names of all scopes.
ghost use Rattle.std.specs.Prelude.{◌≡◌, ◌<◌, ◌^◌, ◌++◌, IfOk, OnOk, vec_len};
ghost use Rattle.mb_tree.specs.Roses.{shapes, view};
ghost use Rattle.mb_tree.specs.Heights.{IsWhole};
ghost use Rattle.mb_tree.specs.machine.Below.{AreAmong};
ghost use Rattle.mb_scope.specs.Kinds.{names_itself};
ghost use Rattle.mb_scope.specs.Names.{own_name, scope_names, names_of};

use crate::binding::add_bindings;
use mb_base::{NoMemory, NodeId, StrId};
use mb_tree::{Kind, Node, Scopes, Tree};
use std::alloc::Global;

fn names_itself(kind: Kind) -> bool
    ensures { result ≡ names_itself kind }
{
    matches!(kind, Kind::Function { .. })
}

// Adds the own name of a function expression.
fn add_own_name(
    scope: NodeId,
    node: &Node,
    names: &mut Vec<(NodeId, StrId, bool)>,
) -> Result<(), NoMemory>
    ensures { OnOk result (names.new.items ≡ names.old.items ++ own_name scope (view node.now)) }
{
    if names_itself(node.kind) {
        if let Some(name) = node.name {
            names.push((scope, name, true))?;
        }
    }
    Ok(())
}

// Adds the names that a node's scope binds.
fn add_names(
    alloc: Global,
    tree: &Tree,
    scope: NodeId,
    node: &Node,
    names: &mut Vec<(NodeId, StrId, bool)>,
) -> Result<(), NoMemory>
    requires whole { IsWhole (shapes tree.now) }
    requires there { AreAmong node.now.children.items (vec_len tree.now.nodes) }
    ensures { OnOk result (names.new.items ≡ names.old.items ++ scope_names (shapes tree.now) scope (view node.now)) }
{
    add_own_name(scope, node, names)?;
    let mut bindings = Vec::new(alloc);
    add_bindings(tree, &node.children, &mut bindings)?;
    for binding in &bindings {
        names.push((scope, binding.name, binding.fixed))?;
    }
    Ok(())
}

// The names that each node's scope binds.
pub fn scopes(alloc: Global, tree: &Tree) -> Result<Scopes, NoMemory>
    requires whole { IsWhole (shapes tree.now) }
    requires few { vec_len tree.now.nodes < 2 ^ 32 }
    ensures { IfOk result (λ scopes. scopes ≡ names_of (shapes tree.now)) }
{
    let mut names = Vec::new(alloc);
    for (place, node) in tree.nodes.iter().enumerate() {
        add_names(alloc, tree, NodeId(place as u32), node, &mut names)?;
    }
    Scopes::new(alloc, names)
}

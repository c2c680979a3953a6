//! The static rules of a script's tree, and the names that its scopes bind.
#![tactic(auto)]

mod binding;
mod fault;
mod jump;
mod laws;
mod names;
mod target;
#[cfg(test)]
mod tests;
mod twice;

ghost use Rattle.std.specs.Prelude.{◌≡◌, ◌<◌, ◌^◌, ◌⊎◌, IfOk, IfErr, vec_len};
ghost use Rattle.mb_tree.specs.Roses.{shapes};
ghost use Rattle.mb_tree.specs.Heights.{IsWhole};
ghost use Rattle.mb_scope.specs.Names.{names_of};
ghost use Rattle.mb_scope.specs.Faults.{IsRight, IsLeast};

pub use fault::NameFault;
use fault::first_fault;
use jump::first_stray;
pub use laws::{a_tree_has_one_least_fault, a_tree_is_right_or_has_a_least_fault};
use mb_tree::{Scopes, Tree};
use names::scopes;
use std::alloc::Global;
use target::first_bad_target;
use twice::first_twice;

/// The names that the scopes of a script bind (ECMA-262, 8.2), or the least node that breaks a rule of [`NameFault`].
/// Scopes stand in ascending order of their nodes, names in source order, with `true` for those that can't be assigned.
/// The time is linear in the nodes.
pub fn check(alloc: Global, tree: &Tree) -> Result<Scopes, NameFault>
    requires whole { IsWhole (shapes tree.now) }
    requires few { vec_len tree.now.nodes < 2 ^ 32 }
    ensures names { IfOk result (λ scopes. scopes ≡ names_of (shapes tree.now)) }
    ensures right { IfOk result (λ scopes. IsRight (shapes tree.now)) }
    ensures fault { IfErr result (λ fault. (fault ≡ NameFault.NoMemory) ⊎ IsLeast (shapes tree.now) fault) }
{
    let twice = first_twice(alloc, tree)?;
    let stray = first_stray(alloc, tree)?;
    let target = first_bad_target(tree);
    match first_fault(twice, stray, target) {
        Some(fault) => Err(fault),
        None => Ok(scopes(alloc, tree)?),
    }
}

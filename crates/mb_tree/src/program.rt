// A script that has been read.
ghost use Rattle.std.specs.Prelude.{◌≡◌, ◌+◌, ◌-◌, ◌++◌, IfOk, OnOk, replicate, length};
ghost use Rattle.std.specs.List.Sorted.{IsNonDecreasingBy};
ghost use Rattle.mb_tree.specs.Names.{node_of, names_at};
ghost use Rattle.mb_tree.specs.machine.Starts.{before, IsIndexed};

use crate::tree::Tree;
use mb_base::{NoMemory, NodeId, StrId};
use std::alloc::Global;
use std::marker::Model;

/// What each scope node binds: the node, the name, and whether the name is fixed. The nodes ascend, and the names of
/// one node stand in source order. They are found in constant time.
#[derive(Debug, Drop)]
pub struct Scopes {
    names: Vec<(NodeId, StrId, bool)>,
    // for each node up to the last that binds a name, how many names stand before its own
    starts: Vec<usize>,
}

impl Model for Scopes {
    ghost use Rattle.std.specs.Prelude.{List};
    ghost use Rattle.mb_tree.specs.Names.{Binds};
    ghost use Rattle.mb_tree.specs.machine.Starts.{IsIndexed};

    ghost Value = { List Binds };

    ghost view = { λ scopes. scopes.names.items };

    ghost invariant = { λ scopes. IsIndexed scopes.names.items scopes.starts.items };
}

impl Scopes {
    /// These names. The time is linear in them and in the last node.
    pub fn new(alloc: Global, names: Vec<(NodeId, StrId, bool)>) -> Result<Scopes, NoMemory>
        requires { IsNonDecreasingBy node_of names.items }
        ensures { IfOk result (λ scopes. scopes ≡ names.items) }
    {
        let starts = starts_of(alloc, &names)?;
        Ok(Scopes { names, starts })
    }

    /// The names of all nodes.
    pub fn names(&self) -> &[(NodeId, StrId, bool)]
        ensures { result.now ≡ self.now }
    {
        &self.names
    }

    /// The names that the scope of a node binds.
    pub fn names_at(&self, node: NodeId) -> &[(NodeId, StrId, bool)]
        ensures { result.now ≡ names_at node self.now }
    {
        let place = node.0 as usize;
        let from = self.start(place);
        let to = self.start(place + 1);
        &self.names[from..to]
    }

    // How many names stand before those of the node at that place.
    fn start(&self, place: usize) -> usize
        ensures { result ≡ before place self.now }
    {
        match self.starts.get(place) {
            Some(start) => *start,
            None => self.names().len(),
        }
    }
}

// For each node up to the last that binds a name, how many names stand before its own.
fn starts_of(alloc: Global, names: &[(NodeId, StrId, bool)]) -> Result<Vec<usize>, NoMemory>
    requires { IsNonDecreasingBy node_of names.now }
    ensures { IfOk result (λ starts. IsIndexed names.now starts.items) }
{
    let mut starts = Vec::new(alloc);
    for (place, row) in names.iter().enumerate() {
        start_at(&mut starts, row.0, place)?;
    }
    Ok(starts)
}

// Makes that place the start of each node up to this one that has none yet.
fn start_at(starts: &mut Vec<usize>, node: NodeId, at: usize) -> Result<(), NoMemory>
    ensures { OnOk result (starts.new.items ≡ starts.old.items ++ replicate (node.0 + 1 - length starts.old.items) at) }
{
    let up_to = node.0 as usize + 1;
    if starts.len() < up_to {
        starts.resize(up_to, at)?;
    }
    Ok(())
}

/// A script's tree, and what its scopes bind.
#[derive(Debug, Drop)]
pub struct Program {
    pub tree: Tree,
    pub scopes: Scopes,
}

// Trees.
ghost use Rattle.std.specs.Prelude.{◌≡◌, ◌+◌, ◌<◌, ◌≤◌, ◌^◌, List, [], ◌∷◌, ◌++◌, length, EachIndex, IfOk, OnErr, OnOk, vec_len};
ghost use Rattle.mb_tree.specs.Roses.{Rose, write, shapes, shape, id_of, bare, named};
ghost use Rattle.mb_tree.specs.Heights.{height_of, IsWhole};
ghost use Rattle.mb_tree.specs.machine.Below.{most_at, AreAmong};

use crate::kind::Kind;
use mb_base::{NoMemory, NodeId, StrId};
use std::alloc::Global;

/// The most nodes of a tree, whose ids have 32 bits.
pub const MOST_NODES: usize = 1 << 31;

/// What a node is without its parts.
#[derive(Clone, Copy, Debug, PartialEq, Eq)]
pub struct Label {
    pub kind: Kind,
    pub name: Option<StrId>,
    pub whole: i64,
}

impl Label {
    /// A node without a name and a number.
    pub fn bare(kind: Kind) -> Label
        ensures { result ≡ bare kind }
    {
        Label {
            kind,
            name: None,
            whole: 0,
        }
    }

    /// A node with a name.
    pub fn named(kind: Kind, name: StrId) -> Label
        ensures { result ≡ named kind name }
    {
        Label {
            kind,
            name: Some(name),
            whole: 0,
        }
    }
}

/// A node. What the source names keeps that text in `name`: names, texts, properties behind a dot, what is declared or
/// is a parameter, functions with a name, and a property's key that is a word or a text. A number, also one that is a
/// key, is in `whole`. Every other node has `None` and 0 there.
#[derive(Debug, Drop)]
pub struct Node {
    pub kind: Kind,
    pub name: Option<StrId>,
    pub whole: i64,
    pub children: Vec<NodeId>,
}

/// The nodes of a tree, each behind those of its parts, which stand in source order. An id is a place among them.
/// While a script is parsed, they are those of several trees, one after the other.
#[derive(Debug, Drop)]
pub struct Tree {
    pub nodes: Vec<Node>,
}

impl Tree {
    /// Adds a node whose parts are the last `count` of these trees, and puts it in their place. A tree of
    /// [`MOST_NODES`] nodes takes no more: that is `NoMemory`.
    pub fn build(
        &mut self,
        alloc: Global,
        label: Label,
        operands: &mut Vec<NodeId>,
        count: usize,
    ) -> Result<(), NoMemory>
        requires { count ≤ vec_len operands.old }
        ensures few { OnOk result (vec_len self.new.nodes ≤ 2 ^ 31) }
        ensures built { (front kids : List NodeId) → operands.old.items ≡ front ++ kids → length kids ≡ count →
            OnOk result ((operands.new.items ≡ front ++ id_of (length (shapes self.old)) ∷ [])
            × (shapes self.new ≡ shapes self.old ++ shape label kids ∷ [])) }
        ensures kept { OnErr result (
            (operands.new.items ≡ operands.old.items) × (shapes self.new ≡ shapes self.old)) }
    {
        if self.nodes.len() >= MOST_NODES {
            return Err(NoMemory);
        }
        let from = operands.len() - count;
        let id = NodeId(self.nodes.len() as u32);
        let children = Vec::from_slice(alloc, &operands[from..])?;
        operands.reserve(1)?;
        self.nodes.push(Node {
            kind: label.kind,
            name: label.name,
            whole: label.whole,
            children,
        })?;
        operands.truncate(from);
        operands.push(id)?;
        Ok(())
    }

    /// How many nodes the longest way from the root down to a leaf has; 0 of an empty tree.
    pub fn height(&self, alloc: Global) -> Result<u32, NoMemory>
        requires whole { IsWhole (shapes self.now) }
        requires few { vec_len self.now.nodes < 2 ^ 32 }
        ensures empty { shapes self.now ≡ [] → IfOk result (λ n. n ≡ 0) }
        ensures longest { (tree : Rose) → shapes self.now ≡ write [] tree → IfOk result (λ n. n ≡ height_of tree) }
    {
        let mut heights = Vec::new(alloc);
        for node in &self.nodes {
            let below = most(&heights, &node.children);
            heights.push(below + 1)?;
        }
        Ok(heights.last().copied().unwrap_or(0))
    }
}

// The greatest of the heights at these places, 0 where there are none.
fn most(heights: &[u32], places: &[NodeId]) -> u32
    requires { AreAmong places.now (length heights.now) }
    ensures { result ≡ most_at heights.now places.now }
{
    let mut most = 0;
    for id in places {
        most = most.max(heights[id.0 as usize]);
    }
    most
}

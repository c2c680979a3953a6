// `return`, `break` and `continue`, and what stands around them.
ghost use Rattle.std.specs.Prelude.{◌≡◌, ◌<◌, ◌^◌, IfOk, length, replicate, vec_len};
ghost use Rattle.mb_tree.specs.Roses.{shapes};
ghost use Rattle.mb_tree.specs.Heights.{IsWhole};
ghost use Rattle.mb_tree.specs.machine.Below.{AreAmong};
ghost use Rattle.mb_scope.specs.machine.First.{IsFirst};
ghost use Rattle.mb_scope.specs.Kinds.{is_function, is_loop, jump_of};
ghost use Rattle.mb_scope.specs.Jumps.{IsStray};
ghost use Rattle.mb_scope.specs.machine.Around.{allows_of, inside_of, outside, either, IsPutAround};

use mb_base::{NoMemory, NodeId};
use mb_tree::{Kind, Tree};
use std::alloc::Global;

/// What a statement leaves.
#[derive(Clone, Copy, Debug, PartialEq, Eq)]
pub enum Jump {
    /// The function around it.
    FromFunction,
    /// The loop around it, or the loop's turn.
    FromLoop,
    Nothing,
}

impl Jump {
    fn of(kind: Kind) -> Jump
        ensures { result ≡ jump_of kind }
    {
        match kind {
            Kind::Return => Jump::FromFunction,
            Kind::Break | Kind::Continue => Jump::FromLoop,
            _ => Jump::Nothing,
        }
    }
}

fn is_function(kind: Kind) -> bool
    ensures { result ≡ is_function kind }
{
    matches!(
        kind,
        Kind::FunctionDecl { .. }
            | Kind::Arrow { .. }
            | Kind::Function { .. }
            | Kind::Method { .. }
            | Kind::Getter(_)
            | Kind::Setter(_)
    )
}

fn is_loop(kind: Kind) -> bool
    ensures { result ≡ is_loop kind }
{
    matches!(kind, Kind::While | Kind::DoWhile | Kind::For { .. })
}

/// What stands around a node: a function, and a loop within the same function.
#[derive(Clone, Copy, Debug, PartialEq, Eq)]
pub struct Around {
    pub function: bool,
    pub repeated: bool,
}

impl Around {
    // Whether a node of this kind may stand here.
    fn allows(self, kind: Kind) -> bool
        ensures { result ≡ allows_of self (jump_of kind) }
    {
        match Jump::of(kind) {
            Jump::FromFunction => self.function,
            Jump::FromLoop => self.repeated,
            Jump::Nothing => true,
        }
    }

    // What stands around a node where this or that does.
    fn or(self, other: Around) -> Around
        ensures { result ≡ either self other }
    {
        Around {
            function: self.function || other.function,
            repeated: self.repeated || other.repeated,
        }
    }

    // What stands around the parts of a node of this kind.
    fn inside(self, kind: Kind) -> Around
        ensures { result ≡ inside_of self (is_function kind) (is_loop kind) }
    {
        Around {
            function: is_function(kind) || self.function,
            repeated: is_loop(kind) || (!is_function(kind) && self.repeated),
        }
    }
}

// Puts this around these nodes.
fn put_around(known: &mut [Around], parts: &[NodeId], around: Around)
    requires { AreAmong parts.now (length known.old) }
    ensures { IsPutAround known.old known.new parts.now around }
{
    for part in parts {
        let place = part.0 as usize;
        known[place] = known[place].or(around);
    }
}

// Nothing around each of so many nodes.
fn nothing_around(alloc: Global, count: usize) -> Result<Vec<Around>, NoMemory>
    ensures { IfOk result (λ known. known.items ≡ replicate count outside) }
{
    let mut known = Vec::new(alloc);
    for _ in 0..count {
        known.push(Around {
            function: false,
            repeated: false,
        })?;
    }
    Ok(known)
}

// The first `return` outside of functions, or `break` or `continue` outside of loops. Each node comes before its parts.
pub fn first_stray(alloc: Global, tree: &Tree) -> Result<Option<NodeId>, NoMemory>
    requires whole { IsWhole (shapes tree.now) }
    requires few { vec_len tree.now.nodes < 2 ^ 32 }
    ensures { IfOk result (IsFirst (λ id. id.0) (IsStray (shapes tree.now))) }
{
    let mut known = nothing_around(alloc, tree.nodes.len())?;
    let mut first = None;
    for place in (0..tree.nodes.len()).rev() {
        let node = &tree.nodes[place];
        let around = known[place];
        if !around.allows(node.kind) {
            first = Some(NodeId(place as u32));
        }
        put_around(&mut known, &node.children, around.inside(node.kind));
    }
    Ok(first)
}

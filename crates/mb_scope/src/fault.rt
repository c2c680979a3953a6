// What breaks a rule, and which stands first.
ghost use Rattle.std.specs.Prelude.{◌≡◌};
ghost use Rattle.mb_scope.specs.machine.First.{sooner};
ghost use Rattle.mb_scope.specs.Faults.{fault_place};
ghost use Rattle.mb_scope.specs.machine.FirstFault.{first_fault_of};

use mb_base::{NoMemory, NodeId};

/// The node that breaks a static rule.
#[derive(Clone, Copy, Debug, PartialEq, Eq)]
pub enum NameFault {
    /// The declaration, parameter or function declaration that binds a name that an earlier one binds beside it: among
    /// the parameters and the top of one function, in one block, the script, one head of a `for`, or a catch's name and
    /// its block (ECMA-262, 14.2.1, 14.3.1.1, 14.7.4.1, 14.15.1, 15.1.1, 15.2.1, 16.1.1).
    Twice { node: NodeId },
    /// A `return` outside of functions, or a `break` or `continue` with no loop around it in its function (ECMA-262,
    /// 14.8.1, 14.9.1, 14.10.1).
    Stray { node: NodeId },
    /// The operator that changes what isn't a name or a property, or deletes what isn't a property (ECMA-262, 13.4.1,
    /// 13.5.1.1, 13.15.1).
    BadTarget { node: NodeId },
    /// Memory ran out.
    NoMemory,
}

impl From<NoMemory> for NameFault {
    ghost use Rattle.std.specs.Prelude.{◌≡◌};
    ghost use Rattle.mb_scope.specs.declared.fault.NameFault.TheVariants.{NoMemory as no_memory};

    ghost from_gives = { λ _ fault. fault ≡ no_memory };

    fn from(_: NoMemory) -> NameFault {
        NameFault::NoMemory
    }
}

// The first of two nodes.
pub fn first_of(a: Option<NodeId>, b: Option<NodeId>) -> Option<NodeId>
    ensures { result ≡ sooner (λ id. id.0) a b }
{
    match (a, b) {
        (Some(first), Some(second)) => Some(if second.0 < first.0 { second } else { first }),
        (None, other) => other,
        (some, None) => some,
    }
}

// The place of a fault's node, 0 where memory ran out.
fn place(fault: NameFault) -> u32
    ensures { result ≡ fault_place fault }
{
    match fault {
        NameFault::Twice { node } | NameFault::Stray { node } | NameFault::BadTarget { node } =>
            node.0,
        NameFault::NoMemory => 0,
    }
}

// The first of two faults.
fn sooner_fault(a: Option<NameFault>, b: Option<NameFault>) -> Option<NameFault>
    ensures { result ≡ sooner fault_place a b }
{
    match (a, b) {
        (Some(first), Some(second)) => Some(if place(second) < place(first) {
            second
        } else {
            first
        }),
        (None, other) => other,
        (some, None) => some,
    }
}

// The first of the nodes that break the three rules.
pub fn first_fault(
    twice: Option<NodeId>,
    stray: Option<NodeId>,
    target: Option<NodeId>,
) -> Option<NameFault>
    ensures { result ≡ first_fault_of twice stray target }
{
    let twice = twice.map(|node| NameFault::Twice { node });
    let stray = stray.map(|node| NameFault::Stray { node });
    let target = target.map(|node| NameFault::BadTarget { node });
    sooner_fault(sooner_fault(twice, stray), target)
}

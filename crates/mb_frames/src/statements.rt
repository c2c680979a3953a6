// Statements that wait.
use crate::task::{Context, Outcome};
use mb_base::{NodeId, StrId};

/// A statement that waits for how a part ends (ECMA-262, 14).
#[derive(Drop)]
pub enum StmtFrame {
    /// A statement of a list; `next` is the place of the one after it.
    Each {
        at: Context,
        node: NodeId,
        next: u32,
    },
    /// The value of a declaration; `next` is the place of the one after it.
    Declared {
        at: Context,
        node: NodeId,
        name: StrId,
        next: u32,
    },
    /// The expression of a statement.
    Expression,
    If {
        at: Context,
        main: NodeId,
        other: Option<NodeId>,
    },
    WhileTest {
        at: Context,
        node: NodeId,
        body: NodeId,
    },
    WhileBody {
        at: Context,
        node: NodeId,
    },
    DoBody {
        at: Context,
        node: NodeId,
        test: NodeId,
    },
    DoTest {
        at: Context,
        node: NodeId,
    },
    ForFirst {
        at: Context,
        node: NodeId,
    },
    ForTest {
        at: Context,
        node: NodeId,
    },
    ForBody {
        at: Context,
        node: NodeId,
    },
    ForLast {
        at: Context,
        node: NodeId,
    },
    Return,
    Throw,
    /// The block of a `try`.
    Try {
        at: Context,
        node: NodeId,
    },
    /// The handler of a `try`.
    Handler {
        at: Context,
        ending: Option<NodeId>,
    },
    /// The `finally` block; `outcome` is how the rest ended.
    Ending {
        outcome: Outcome,
    },
}

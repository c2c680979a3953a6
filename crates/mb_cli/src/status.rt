// How a call of `serve` ends.
ghost use Rattle.std.specs.Prelude.{◌≡◌};
ghost use Rattle.mb_cli.specs.ExitCode.{code_of};

use mb_base::{NodeId, Side};
use mb_words::WordsKind;
use std::fmt;

/// What is wrong with a script. A place is an offset of bytes, and a node is a place in the script's tree.
#[derive(Clone, Copy, Debug, PartialEq, Eq)]
pub enum ScriptKind {
    /// The bytes aren't UTF-8; the longest front that is ends here.
    Utf8 { at: u32 },
    /// No token stands here (ECMA-262, 12).
    Token { at: u32 },
    /// A digit stands here, but no number.
    Number { at: u32 },
    /// The tokens are no script (ECMA-262, 16.1).
    Shape,
    /// The script's tree is too high.
    Deep,
    /// This node binds a name a second time (ECMA-262, 14.2.1, 14.7.4.1, 14.15.1, 15.1.1, 15.2.1, 16.1.1).
    Twice { node: NodeId },
    /// This `return`, `break` or `continue` has nothing to leave (ECMA-262, 14.8.1, 14.9.1, 14.10.1).
    Stray { node: NodeId },
    /// The operand of this operator can't be assigned, or not deleted (ECMA-262, 13.4.1, 13.5.1.1, 13.15.1).
    BadTarget { node: NodeId },
}

impl fmt::Display for ScriptKind {
    fn fmt<W: fmt::Write>(&self, f: &mut fmt::Formatter<W>) -> fmt::Result {
        match self {
            ScriptKind::Utf8 { at } => write!(f, "utf8 at {at}"),
            ScriptKind::Token { at } => write!(f, "token at {at}"),
            ScriptKind::Number { at } => write!(f, "number at {at}"),
            ScriptKind::Shape => f.write_str("shape"),
            ScriptKind::Deep => f.write_str("deep"),
            ScriptKind::Twice { node } => write!(f, "twice at node {}", node.0),
            ScriptKind::Stray { node } => write!(f, "stray at node {}", node.0),
            ScriptKind::BadTarget { node } => write!(f, "target at node {}", node.0),
        }
    }
}

/// The text that is too long.
#[derive(Clone, Copy, Debug, PartialEq, Eq)]
pub enum Which {
    /// The script of that side; the one that `check` reads is a left one.
    Script(Side),
}

/// How a call of [`serve`](crate::serve) ended.
#[derive(Clone, Copy, Debug, PartialEq, Eq)]
pub enum Status {
    /// The whole text was put, and no script threw what none caught.
    Done,
    /// The whole text was put; in some turn a script threw what none caught.
    Uncaught,
    /// The words are refused, or ask for what the program can't do yet.
    BadWords(WordsKind),
    /// A text wasn't there, or couldn't be read to its end.
    ReadFault,
    /// The sink didn't take all bytes; a prefix of the text was put.
    WriteFault,
    /// The script of that side is refused.
    BadScript { side: Side, kind: ScriptKind },
    /// A charge was above what was left of the budget; the whole text was put.
    Spent,
    /// That text has too many bytes.
    TooLong(Which),
    /// Memory ran out.
    NoMemory,
}

impl Status {
    /// The exit number of the process.
    pub fn code(&self) -> u8
        ensures { result ≡ code_of self.now }
    {
        match self {
            Status::Done => 0,
            Status::Uncaught => 1,
            Status::BadWords(_) => 2,
            Status::ReadFault => 3,
            Status::WriteFault => 4,
            Status::BadScript { .. } => 5,
            Status::Spent => 7,
            Status::TooLong(_) => 8,
            Status::NoMemory => 9,
        }
    }
}

// Frames, each of which stands for the rest of a row, and what a step does.
use crate::arrays::ArrayFrame;
use crate::calls::CallFrame;
use crate::collections::CollectFrame;
use crate::crossing::MembraneFrame;
use crate::expressions::ExprFrame;
use crate::proxies::ProxyFrame;
use crate::reflecting::ReflectFrame;
use crate::statements::StmtFrame;
use crate::task::{Outcome, Task};
use mb_base::{Key, ObjId, Value};
use mb_desc::Desc;
use mb_world::Op;

/// What a method or an access was given, as its entry tells it.
#[derive(Clone, Copy, Debug, PartialEq, Eq)]
pub enum Given {
    Nothing,
    Value(Value),
    Desc(Desc<Value>),
    Pair { key: Value, value: Value },
}

/// An entry of the trace, which is made where what stands above ends: a method of an object, or an access of a
/// collection. `began` is how many entries were complete when it began.
#[derive(Clone, Copy, Debug, PartialEq, Eq)]
pub struct Entering {
    pub began: u32,
    pub object: ObjId,
    pub op: Op,
    pub key: Option<Key>,
    pub given: Given,
}

/// What waits. The first three are on top alone: a task that begins, one that has begun and has still to pay its unit,
/// and a row that starts anew, with no charge.
#[derive(Drop)]
pub enum Frame {
    Begin(Task),
    Begun(Task),
    Anew(Task),
    Expr(ExprFrame),
    Stmt(StmtFrame),
    Call(CallFrame),
    Reflect(ReflectFrame),
    Array(ArrayFrame),
    Proxy(ProxyFrame),
    Collect(CollectFrame),
    Membrane(MembraneFrame),
    Entry(Entering),
}

/// What a step does once it took the frame that it is about.
#[derive(Drop)]
pub enum Move {
    /// It ended.
    Done(Outcome),
    /// A frame waits for a task.
    Wait(Frame, Task),
    /// A task takes its place.
    Next(Task),
    /// A row starts anew in its place, with no charge.
    Anew(Task),
    /// A frame stands below a task that has begun.
    Entered(Frame, Task),
}

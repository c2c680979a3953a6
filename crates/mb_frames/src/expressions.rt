// Expressions that wait.
use crate::task::Context;
use crate::values::Values;
use mb_base::{Key, NodeId, ObjId, StrId, Value};
use mb_tree::Sign;

/// A reference (ECMA-262, 6.2.5): a name, or a base with its key.
#[derive(Clone, Copy, Debug, PartialEq, Eq)]
pub enum Reference {
    Name(StrId),
    Place { base: Value, key: Key },
}

/// What follows where a reference is there.
#[derive(Clone, Copy, Debug, PartialEq, Eq)]
pub enum After {
    Get,
    Assign { value: NodeId },
    Compound { sign: Sign, value: NodeId },
    Update { plus: bool, prefix: bool },
    Call { node: NodeId },
    Delete,
}

/// An expression that waits for what a part gives (ECMA-262, 13).
#[derive(Drop)]
pub enum ExprFrame {
    /// An element of an array literal was evaluated.
    Element {
        at: Context,
        node: NodeId,
        array: ObjId,
        place: u32,
    },
    /// The computed key of a property of an object literal.
    PropKey {
        at: Context,
        node: NodeId,
        object: ObjId,
        property: NodeId,
        place: u32,
    },
    /// The value of a property of an object literal.
    PropValue {
        at: Context,
        node: NodeId,
        object: ObjId,
        place: u32,
        key: Key,
    },
    /// The base of `base.name`.
    MemberBase {
        at: Context,
        name: StrId,
        after: After,
    },
    /// The base of `base[key]`.
    IndexBase {
        at: Context,
        key: NodeId,
        after: After,
    },
    /// The key of `base[key]`.
    IndexKey {
        at: Context,
        base: Value,
        after: After,
    },
    /// What a reference refers to was got.
    Got,
    /// The value of an assignment.
    AssignValue {
        at: Context,
        to: Reference,
    },
    /// What the target of a compound assignment had.
    CompoundOld {
        at: Context,
        sign: Sign,
        value: NodeId,
        to: Reference,
    },
    /// The right side of a compound assignment.
    CompoundValue {
        at: Context,
        sign: Sign,
        old: Value,
        to: Reference,
    },
    /// What the operand of `++` or `--` had.
    UpdateOld {
        at: Context,
        plus: bool,
        prefix: bool,
        to: Reference,
    },
    /// A reference was written; the expression gives `gives`.
    Put {
        gives: Value,
    },
    /// The function of a call.
    Callee {
        at: Context,
        node: NodeId,
        this: Value,
    },
    /// An argument of a call, after `done`.
    Argument {
        at: Context,
        node: NodeId,
        callee: Value,
        this: Value,
        done: Values,
    },
    /// The constructor of `new`.
    Constructor {
        at: Context,
        node: NodeId,
    },
    /// An argument of `new`, after `done`.
    NewArgument {
        at: Context,
        node: NodeId,
        callee: Value,
        done: Values,
    },
    Or {
        at: Context,
        right: NodeId,
    },
    And {
        at: Context,
        right: NodeId,
    },
    Cond {
        at: Context,
        main: NodeId,
        other: NodeId,
    },
    Seq {
        at: Context,
        node: NodeId,
        next: u32,
    },
    Not,
    Negate,
    Typeof,
    /// `delete` was asked of an object.
    Deleted,
    Left {
        at: Context,
        sign: Sign,
        right: NodeId,
    },
    Right {
        sign: Sign,
        left: Value,
    },
    /// `in` was asked of an object.
    Has,
    /// `instanceof` got the `prototype` of its right side.
    InstancePrototype {
        object: ObjId,
    },
    /// `instanceof` got the next prototype.
    Chain {
        prototype: ObjId,
    },
}

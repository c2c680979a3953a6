// A node's parts by name.
ghost use Rattle.std.specs.Prelude.{◌≡◌};
ghost use Rattle.std.specs.Option.{option_map};
ghost use Rattle.mb_tree.specs.Roses.{view, label_of};
ghost use Rattle.mb_tree.specs.Form as spec;
ghost use Rattle.mb_tree.specs.Seen.{seen};

use crate::kind::{Fixed, Kind, Sign};
use crate::parts::{
    at_most_one, cond_form, first_and_rest, for_form, function_parts, if_form, key_and_rest, leaf,
    one, try_form, two,
};
use crate::tree::Node;
use mb_base::{NodeId, StrId};

/// How a property of an object literal is named: by a word or a text, by a number, or by an expression in brackets.
#[derive(Clone, Copy)]
pub enum PropName {
    Written(StrId),
    Whole(i64),
    Computed(NodeId),
}

/// What a function has: its Params, and the statements of its body, or the expression that is an arrow function's.
#[derive(Clone, Copy)]
pub struct FunctionParts<'a> {
    pub params: &'a [NodeId],
    pub body: &'a [NodeId],
}

/// A node, with its parts by name. What may be left out is an `Option`.
#[derive(Clone, Copy)]
pub enum Form<'a> {
    Script {
        statements: &'a [NodeId],
    },
    Let {
        decls: &'a [NodeId],
    },
    Const {
        decls: &'a [NodeId],
    },
    Decl {
        name: StrId,
        value: Option<NodeId>,
    },
    FunctionDecl {
        name: StrId,
        parts: FunctionParts<'a>,
    },
    Block {
        statements: &'a [NodeId],
    },
    Empty,
    ExprStmt {
        value: NodeId,
    },
    If {
        test: NodeId,
        then: NodeId,
        otherwise: Option<NodeId>,
    },
    While {
        test: NodeId,
        body: NodeId,
    },
    DoWhile {
        body: NodeId,
        test: NodeId,
    },
    For {
        first: Option<NodeId>,
        test: Option<NodeId>,
        last: Option<NodeId>,
        body: NodeId,
    },
    Return {
        value: Option<NodeId>,
    },
    Throw {
        value: NodeId,
    },
    Break,
    Continue,
    /// `caught` is the Param of `catch`, `handler` its Block, and `ending` that of `finally`.
    Try {
        block: NodeId,
        caught: Option<NodeId>,
        handler: Option<NodeId>,
        ending: Option<NodeId>,
    },
    Param {
        name: StrId,
    },
    Seq {
        values: &'a [NodeId],
    },
    Assign {
        target: NodeId,
        value: NodeId,
    },
    Compound {
        sign: Sign,
        target: NodeId,
        value: NodeId,
    },
    /// Where `block`, the body is statements, else one expression.
    Arrow {
        parts: FunctionParts<'a>,
        block: bool,
    },
    Cond {
        test: NodeId,
        then: NodeId,
        otherwise: NodeId,
    },
    Or {
        left: NodeId,
        right: NodeId,
    },
    And {
        left: NodeId,
        right: NodeId,
    },
    Binary {
        sign: Sign,
        left: NodeId,
        right: NodeId,
    },
    Unary {
        sign: Sign,
        operand: NodeId,
    },
    Update {
        plus: bool,
        prefix: bool,
        target: NodeId,
    },
    New {
        callee: NodeId,
        arguments: &'a [NodeId],
    },
    Member {
        base: NodeId,
        name: StrId,
    },
    Index {
        base: NodeId,
        key: NodeId,
    },
    Call {
        callee: NodeId,
        arguments: &'a [NodeId],
    },
    This,
    Name {
        name: StrId,
    },
    Number {
        whole: i64,
    },
    Text {
        text: StrId,
    },
    Literal {
        fixed: Fixed,
    },
    ArrayLit {
        elements: &'a [NodeId],
    },
    ObjectLit {
        properties: &'a [NodeId],
    },
    Function {
        name: Option<StrId>,
        parts: FunctionParts<'a>,
    },
    Group {
        inner: NodeId,
    },
    Value {
        key: PropName,
        value: NodeId,
    },
    Method {
        key: PropName,
        parts: FunctionParts<'a>,
    },
    Getter {
        key: PropName,
        parts: FunctionParts<'a>,
    },
    Setter {
        key: PropName,
        parts: FunctionParts<'a>,
    },
}

fn property_form(node: &Node) -> Option<Form<'_>>
    ensures { option_map seen result ≡ spec.property_form node.now.kind (label_of node.now) node.now.children.items }
{
    match node.kind {
        Kind::Value(key) => {
            let (key, rest) = key_and_rest(key, node)?;
            let value = one(rest)?;
            Some(Form::Value { key, value })
        }
        Kind::Method { key, params } => {
            let (key, rest) = key_and_rest(key, node)?;
            let parts = function_parts(params, rest)?;
            Some(Form::Method { key, parts })
        }
        Kind::Getter(key) => {
            let (key, rest) = key_and_rest(key, node)?;
            let parts = function_parts(0, rest)?;
            Some(Form::Getter { key, parts })
        }
        Kind::Setter(key) => {
            let (key, rest) = key_and_rest(key, node)?;
            let parts = function_parts(1, rest)?;
            Some(Form::Setter { key, parts })
        }
        _ => None,
    }
}

fn operand_form(node: &Node) -> Option<Form<'_>>
    ensures { option_map seen result ≡ spec.operand_form node.now.kind (label_of node.now) node.now.children.items }
{
    let parts = node.children.as_slice();
    Some(match node.kind {
        Kind::New => {
            let (callee, arguments) = first_and_rest(parts)?;
            Form::New { callee, arguments }
        }
        Kind::Member => {
            let name = node.name?;
            let base = one(parts)?;
            Form::Member { base, name }
        }
        Kind::Index => {
            let (base, key) = two(parts)?;
            Form::Index { base, key }
        }
        Kind::Call => {
            let (callee, arguments) = first_and_rest(parts)?;
            Form::Call { callee, arguments }
        }
        Kind::This => return leaf(parts, Form::This),
        Kind::Name => {
            let name = node.name?;
            return leaf(parts, Form::Name { name });
        }
        Kind::Number => return leaf(parts, Form::Number { whole: node.whole }),
        Kind::Text => {
            let text = node.name?;
            return leaf(parts, Form::Text { text });
        }
        Kind::Literal(fixed) => return leaf(parts, Form::Literal { fixed }),
        Kind::ArrayLit => Form::ArrayLit { elements: parts },
        Kind::ObjectLit => Form::ObjectLit { properties: parts },
        Kind::Function { params } => {
            let parts = function_parts(params, parts)?;
            Form::Function {
                name: node.name,
                parts,
            }
        }
        Kind::Group => Form::Group { inner: one(parts)? },
        _ => return property_form(node),
    })
}

fn expression_form(node: &Node) -> Option<Form<'_>>
    ensures { option_map seen result ≡ spec.expression_form node.now.kind (label_of node.now) node.now.children.items }
{
    let parts = node.children.as_slice();
    Some(match node.kind {
        Kind::Seq => Form::Seq { values: parts },
        Kind::Assign => {
            let (target, value) = two(parts)?;
            Form::Assign { target, value }
        }
        Kind::Compound(sign) => {
            let (target, value) = two(parts)?;
            Form::Compound {
                sign,
                target,
                value,
            }
        }
        Kind::Arrow { params, block } => {
            let parts = function_parts(params, parts)?;
            Form::Arrow { parts, block }
        }
        Kind::Cond => return cond_form(parts),
        Kind::Or => {
            let (left, right) = two(parts)?;
            Form::Or { left, right }
        }
        Kind::And => {
            let (left, right) = two(parts)?;
            Form::And { left, right }
        }
        Kind::Binary(sign) => {
            let (left, right) = two(parts)?;
            Form::Binary { sign, left, right }
        }
        Kind::Unary(sign) => Form::Unary {
            sign,
            operand: one(parts)?,
        },
        Kind::Update { plus, prefix } => Form::Update {
            plus,
            prefix,
            target: one(parts)?,
        },
        _ => return operand_form(node),
    })
}

fn statement_form(node: &Node) -> Option<Form<'_>>
    ensures { option_map seen result ≡ spec.statement_form node.now.kind (label_of node.now) node.now.children.items }
{
    let parts = node.children.as_slice();
    Some(match node.kind {
        Kind::Decl => {
            let name = node.name?;
            let value = at_most_one(parts)?;
            Form::Decl { name, value }
        }
        Kind::FunctionDecl { params } => {
            let name = node.name?;
            let parts = function_parts(params, parts)?;
            Form::FunctionDecl { name, parts }
        }
        Kind::ExprStmt => Form::ExprStmt { value: one(parts)? },
        Kind::While => {
            let (test, body) = two(parts)?;
            Form::While { test, body }
        }
        Kind::DoWhile => {
            let (body, test) = two(parts)?;
            Form::DoWhile { body, test }
        }
        Kind::Return => Form::Return {
            value: at_most_one(parts)?,
        },
        Kind::Throw => Form::Throw { value: one(parts)? },
        Kind::Param => {
            let name = node.name?;
            return leaf(parts, Form::Param { name });
        }
        _ => return expression_form(node),
    })
}

impl Node {
    /// The node with its parts by name. `None` comes exactly for a node that is none of the grammar's: one with too few
    /// or too many children, or without its name.
    pub fn form(&self) -> Option<Form<'_>>
        ensures { option_map seen result ≡ spec.form_of (view self.now) }
    {
        let parts = self.children.as_slice();
        Some(match self.kind {
            Kind::Script => Form::Script { statements: parts },
            Kind::Let => Form::Let { decls: parts },
            Kind::Const => Form::Const { decls: parts },
            Kind::Block => Form::Block { statements: parts },
            Kind::Empty => return leaf(parts, Form::Empty),
            Kind::Break => return leaf(parts, Form::Break),
            Kind::Continue => return leaf(parts, Form::Continue),
            Kind::If => return if_form(parts),
            Kind::For { first, test, last } => return for_form(first, test, last, parts),
            Kind::Try {
                caught,
                named,
                ended,
            } => return try_form(caught, named, ended, parts),
            _ => return statement_form(self),
        })
    }
}

// What a node is.

/// An operator (ECMA-262, 13.4 to 13.15), named as its token is. `Plus` and `Minus` stand for the operators of two
/// operands and of one.
#[derive(Clone, Copy, Debug, PartialEq, Eq)]
pub enum Sign {
    /// `===`
    TripleEqual,
    /// `!==`
    NotDoubleEqual,
    /// `<`
    Less,
    /// `>`
    Greater,
    /// `<=`
    LessEqual,
    /// `>=`
    GreaterEqual,
    /// `in`
    In,
    /// `instanceof`
    Instanceof,
    /// `+`, `+=`
    Plus,
    /// `-`, `-=`
    Minus,
    /// `*`, `*=`
    Times,
    /// `/`
    Slash,
    /// `%`
    Percent,
    /// `!`
    Not,
    /// `typeof`
    Typeof,
    /// `delete`
    Delete,
}

/// A word that stands for a value.
#[derive(Clone, Copy, Debug, PartialEq, Eq)]
pub enum Fixed {
    True,
    False,
    Null,
    Undefined,
}

/// How a property of an object literal is named: by the node's name, by its number, or by an expression in brackets,
/// which is then the node's first child.
#[derive(Clone, Copy, Debug, PartialEq, Eq)]
pub enum PropKey {
    Named,
    Whole,
    Computed,
}

/// What a node is. The parts are its children, in source order.
#[derive(Clone, Copy, Debug, PartialEq, Eq)]
pub enum Kind {
    /// Statements.
    Script,
    /// Decls.
    Let,
    /// Decls.
    Const,
    /// A name, and perhaps its first value.
    Decl,
    /// Params, so many, and then the body's statements.
    FunctionDecl {
        params: u32,
    },
    /// Statements.
    Block,
    Empty,
    ExprStmt,
    /// A test, a statement, and perhaps one for `else`.
    If,
    /// A test and a statement.
    While,
    /// A statement and a test.
    DoWhile,
    /// What is there of the three parts of the head, and a statement.
    For {
        first: bool,
        test: bool,
        last: bool,
    },
    /// Perhaps a value.
    Return,
    Throw,
    Break,
    Continue,
    /// A Block; for `catch` perhaps a Param, and a Block; for `finally` a Block.
    Try {
        caught: bool,
        named: bool,
        ended: bool,
    },
    Param,
    /// Two or more expressions with commas between.
    Seq,
    /// A target and a value.
    Assign,
    /// A target and a value.
    Compound(Sign),
    /// Params, so many, and then the statements of a block or one expression.
    Arrow {
        params: u32,
        block: bool,
    },
    /// A test and two choices.
    Cond,
    Or,
    And,
    Binary(Sign),
    Unary(Sign),
    /// `++` where `plus`, else `--`; before its target where `prefix`.
    Update {
        plus: bool,
        prefix: bool,
    },
    /// A constructor and its arguments.
    New,
    /// An object; the property is the node's name.
    Member,
    /// An object and an expression for the property.
    Index,
    /// A function and its arguments.
    Call,
    This,
    Name,
    Number,
    Text,
    Literal(Fixed),
    ArrayLit,
    /// Value, Method, Getter and Setter nodes.
    ObjectLit,
    /// Params, so many, and then the body's statements; perhaps with a name.
    Function {
        params: u32,
    },
    /// An expression in parentheses.
    Group,
    /// A property and its value.
    Value(PropKey),
    /// A property, Params, so many, and then the body's statements.
    Method {
        key: PropKey,
        params: u32,
    },
    /// A property, and then the body's statements.
    Getter(PropKey),
    /// A property, one Param, and then the body's statements.
    Setter(PropKey),
}

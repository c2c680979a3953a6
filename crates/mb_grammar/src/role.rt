// What tokens are to the grammar of expressions.
use mb_base::StrId;
use mb_tree::{Fixed, Sign};

/// What a token is to the grammar of expressions. `-` is `Infix(Minus)` wherever it stands.
#[derive(Clone, Copy)]
pub enum Role {
    Name(StrId),
    Number(i64),
    Text(StrId),
    This,
    Fixed(Fixed),
    Function,
    New,
    /// `!`, `typeof` or `delete`.
    Prefix(Sign),
    Infix(Sign),
    Or,
    And,
    /// `++`, and `--` where false.
    Step(bool),
    Becomes,
    Compound(Sign),
    Question,
    Colon,
    Comma,
    Dot,
    Arrow,
    Open,
    Close,
    OpenSquare,
    CloseSquare,
    OpenBrace,
    CloseBrace,
    Semicolon,
    /// Any other token, and none.
    Other,
}

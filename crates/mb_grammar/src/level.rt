// Which expressions stand at a place.

/// How much of the grammar is read: an Expr, or an Assign, which a comma may end.
#[derive(Clone, Copy, Debug, PartialEq, Eq)]
pub enum Level {
    Expr,
    Assign,
}

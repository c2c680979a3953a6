// The laws of the grammar.
ghost use Rattle.std.specs.Prelude.{◌≡◌, ◌⊎◌, ℕ, List};
ghost use Rattle.mb_token.specs.declared.token.Spanned.{Spanned};
ghost use Rattle.mb_tree.specs.Roses.{Rose};
ghost use Rattle.mb_grammar.specs.declared.level.Level.{Level};
ghost use Rattle.mb_grammar.specs.Bodies.{HasOneBody, HasOneExpression};
ghost use Rattle.mb_grammar.specs.Script.{IsScript};

/// Tokens have at most one tree.
pub fn token_lists_have_one_tree()
    ensures { (ts : List Spanned) (a b : Rose) → IsScript ts a → IsScript ts b → a ≡ b }
{}

/// Tokens have a tree, or they have none: which of the two is decided.
pub fn token_lists_have_a_tree_or_none()
    ensures { (ts : List Spanned)
        → ((script : Rose) × IsScript ts script) ⊎ ((script : Rose) → IsScript ts script → ⊥) }
{}

/// At most one expression of a level stands at a place, with one list of bodies and one end.
pub fn a_place_has_one_expression()
    ensures { (ts : List Spanned) (level : Level) (i : ℕ) → HasOneExpression ts level i }
{}

/// At most one list of statements stands at a place up to a closing brace.
pub fn a_body_has_one_list_of_statements()
    ensures { (ts : List Spanned) (i : ℕ) → HasOneBody ts i }
{}

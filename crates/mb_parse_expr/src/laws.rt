// What holds of every list of tokens.
ghost use Rattle.std.specs.Prelude.{◌+◌, ◌<◌};
ghost use Rattle.mb_tree.specs.Roses.{Rose};
ghost use Rattle.mb_grammar.specs.declared.level.Level.{Level};
ghost use Rattle.mb_grammar.specs.Tokens.{Tokens, Place};
ghost use Rattle.mb_grammar.specs.Grammar.{Bodies};
ghost use Rattle.mb_grammar.specs.Script.{Whole};
ghost use Rattle.mb_grammar.specs.Bodies.{HasOneBody, HasOneExpression, AreFalling};

/// At most one expression stands at a place, where at most one body in braces stands at each place behind it.
pub fn one_expression_where_bodies_are_one()
    ensures { (ts : Tokens) (level : Level) (i : Place) → ((m : Place) → i < m → HasOneBody ts m)
        → HasOneExpression ts level i }
{}

/// The bodies of an expression are named once each and in source order: their places, the last one first, fall.
pub fn bodies_are_named_once_in_order()
    ensures { (ts : Tokens) (level : Level) (a : Rose) (es : Bodies) (i j : Place) → Whole ts level a es i j
        → AreFalling i (j + 1) es }
{}

// The laws of scripts of the first form.
ghost use Rattle.std.specs.Prelude.{◌≡◌, ℕ, List};
ghost use Rattle.mb_load_tree.specs.Trees.{HasTree};
ghost use Rattle.mb_cli.specs.first_form.Form.{Literal, HasLiterals};
ghost use Rattle.mb_cli.specs.first_form.Lexemes.{FirstLexeme, HasFirstTokens};

/// A text has at most one list of tokens of the first form.
pub fn tokens_are_unique()
    ensures { (bytes : List ℕ) (a b : List FirstLexeme)
        → HasFirstTokens bytes a → HasFirstTokens bytes b → a ≡ b }
{}

/// A script prints one list of literals.
pub fn literals_are_unique()
    ensures { (bytes : List ℕ) (a b : List Literal) → HasLiterals bytes a → HasLiterals bytes b → a ≡ b }
{}

/// Scripts of the first form have a tree.
pub fn scripts_of_the_first_form_have_a_tree()
    ensures { (bytes : List ℕ) (literals : List Literal) → HasLiterals bytes literals → HasTree bytes }
{}

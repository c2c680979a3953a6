// What holds of the grammar.
ghost use Rattle.std.specs.Prelude.{◌≡◌, List, Some, slice_get, IsSome};
ghost use Rattle.mb_base.specs.declared.value.StrId.{StrId};
ghost use Rattle.mb_base.specs.declared.value.NodeId.{NodeId};
ghost use Rattle.mb_tree.specs.Roses.{Roses, Shape};
ghost use Rattle.mb_tree.specs.Form.{form_of};
ghost use Rattle.mb_grammar.specs.Tokens.{Tokens, Place};
ghost use Rattle.mb_grammar.specs.Grammar.{Statements};
ghost use Rattle.mb_grammar.specs.Script.{IsTreeOfGrammar};
ghost use Rattle.mb_grammar.specs.Renaming.{renamed_tokens, renamed_all};

/// Which statements stand doesn't depend on the ids of names and texts: under other ids the tree with these ids stands.
pub fn ids_do_not_matter()
    ensures { (f : StrId → StrId) (ts : Tokens) (parts : Roses) (i j : Place) →
        Statements ts parts i j → Statements (renamed_tokens f ts) (renamed_all f parts) i j }
{}

/// Each node of a tree of the grammar has its form.
pub fn each_node_has_a_form()
    ensures { (shapes : List Shape) → IsTreeOfGrammar shapes →
        (id : NodeId) (node : Shape) → slice_get shapes id.0 ≡ Some node → IsSome (form_of node) }
{}

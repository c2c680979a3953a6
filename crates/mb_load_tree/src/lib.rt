//! That both scripts of a load have a tree: their bytes have tokens, these are a script of the grammar, and its tree is
//! at most 256 high and keeps the static rules.
#![tactic(auto)]

ghost use Rattle.mb_load_tree.specs.Trees.{LoadsHaveTrees};

/// Both scripts of a load have a tree.
pub fn loads_have_trees()
    ensures { LoadsHaveTrees }
{}

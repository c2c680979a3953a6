// The laws of the definitions.
ghost use Rattle.std.specs.Prelude.{◌≡◌, List, ◌⊎◌};
ghost use Rattle.mb_tree.specs.Roses.{Shape};
ghost use Rattle.mb_tree.specs.Heights.{IsWhole};
ghost use Rattle.mb_scope.specs.declared.fault.NameFault.{NameFault};
ghost use Rattle.mb_scope.specs.Faults.{IsRight, IsLeast};

/// A tree has at most one least fault.
pub fn a_tree_has_one_least_fault()
    ensures { (shapes : List Shape) (e f : NameFault) → IsLeast shapes e → IsLeast shapes f → e ≡ f }
{}

/// A tree is right or has a least fault.
pub fn a_tree_is_right_or_has_a_least_fault()
    ensures { (shapes : List Shape) → IsWhole shapes → IsRight shapes ⊎ ((fault : NameFault) × IsLeast shapes fault) }
{}

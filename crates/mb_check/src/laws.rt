// What holds of the rules.
ghost use Rattle.mb_check.specs.Laws.{BrokenByTheFirst, PassedByAll, AlikeInAnyOrder};

/// The verdict on rules is `Broken` with a number exactly where a rule of that number is broken and none before it is.
pub fn the_first_broken_rule_counts()
    ensures { BrokenByTheFirst }
{}

/// The verdict on rules is `Pass` exactly where none is broken.
pub fn unbroken_rules_pass()
    ensures { PassedByAll }
{}

/// What `own_keys` answers doesn't depend on the order of the keys in any of its lists.
pub fn keys_in_any_order<K: Eq>()
    ensures { AlikeInAnyOrder K.eq }
{}

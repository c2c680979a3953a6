// Laws of the rules of a file.
ghost use Rattle.std.specs.Prelude.{◌≡◌, All, List, map};
ghost use Rattle.mb_world.specs.Data.{Data};
ghost use Rattle.mb_world.specs.Ids.{RuleIn};
ghost use Rattle.mb_world.specs.Image.{names_of, rule_in};
ghost use Rattle.mb_world.specs.declared.rule.Rule.{Rule};
ghost use Rattle.mb_policy.specs.Accepted.{AreRules};
ghost use Rattle.mb_policy.specs.Rules.{rule_by, IsRule};

/// The law of rules that were read: a world that has the table's texts can take them, and in its image they are what
/// the file gives, so such as a file can give.
pub fn rules_of_a_file_fit_a_world()
    ensures fit { (d : Data) (rules : List Rule) → All (IsRule d.texts) rules → All (RuleIn d) rules }
    ensures image { (d : Data) (rules : List Rule) → All (IsRule d.texts) rules →
        map (rule_in (names_of d)) rules ≡ map (rule_by d.texts) rules }
    ensures formed { (d : Data) (rules : List Rule) → All (IsRule d.texts) rules →
        AreRules (map (rule_by d.texts) rules) → AreRules (map (rule_in (names_of d)) rules) }
{}

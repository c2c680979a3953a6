// Laws of crossing: their bodies are empty, and their contracts say them.
ghost use Rattle.std.specs.Prelude.{List};
ghost use Rattle.mb_world.specs.Graph as graph;
ghost use Rattle.mb_world.specs.Data.{Script};
ghost use Rattle.mb_maps.specs.Laws.{BackIsWhatWasGiven, CounterpartsStay, CrossedInSteps, FormedStays, FormedCanCross};

/// Which scripts, rules and entries a world may have: the laws on formed worlds hold for all such.
pub trait Forms {
    ghost is_program: { Script → Type 0 };

    ghost are_rules: { List graph.Rule → Type 0 };

    ghost is_entry: { graph.Entry → Type 0 };
}

/// What a side has for a value is its own and stands for the same, and crosses back as the value that was given.
pub fn what_crosses_back_is_what_was_given()
    ensures { BackIsWhatWasGiven }
{}

/// What a side has for a value it goes on having for it.
pub fn counterparts_stay()
    ensures { CounterpartsStay }
{}

/// What several crossings leave is what one leaves.
pub fn worlds_cross_in_steps()
    ensures { CrossedInSteps }
{}

/// A formed world that isn't joined stays formed where values cross.
pub fn formed_worlds_stay_so<F: Forms>()
    ensures { FormedStays F.is_program F.are_rules F.is_entry }
{}

/// Values may cross in each formed world that isn't joined, is contained and paired.
pub fn values_cross_in_formed_worlds<F: Forms>()
    ensures { FormedCanCross F.is_program F.are_rules F.is_entry }
{}

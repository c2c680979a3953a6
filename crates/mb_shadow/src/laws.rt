// Laws of shadows: their bodies are empty, and their contracts say them.
ghost use Rattle.mb_shadow.specs.Laws.{FormedCanSee, FormedFollows, ShadowsFollow, CrossingKeepsShadows, EvolvingKeepsShadows};

use mb_maps::laws::Forms;

/// Sides see through their proxies in each formed world that isn't joined, is contained and paired.
pub fn sides_see_in_formed_worlds<F: Forms>()
    ensures { FormedCanSee F.is_program F.are_rules F.is_entry }
{}

/// A formed world stays formed where a shadow follows.
pub fn formed_worlds_stay_so<F: Forms>()
    ensures { FormedFollows F.is_program F.are_rules F.is_entry }
{}

/// A shadow follows by changes that an ordinary object admits, and then has the part that it followed.
pub fn shadows_follow()
    ensures { ShadowsFollow }
{}

/// Crossing keeps what shadows have to keep.
pub fn crossing_keeps_shadows()
    ensures { CrossingKeepsShadows }
{}

/// So does whatever changes objects within what is fixed of them.
pub fn evolving_keeps_shadows()
    ensures { EvolvingKeepsShadows }
{}

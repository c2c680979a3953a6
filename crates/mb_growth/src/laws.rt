// The laws of single changes, and of graphs.
ghost use Rattle.mb_growth.specs.Answered.{OrdinaryEntriesPass, ProxyEntriesPass, ProxiesPass, ChecksTell};
ghost use Rattle.mb_growth.specs.Lawful.{TasksKeepPromises, FirstKeepsPromises, TurnsKeepPromises, LettersKeepPromises, RunsKeepPromises, RunsPass, RunsAreLawful};
ghost use Rattle.mb_growth.specs.Names.{FirstHasGlobals, LettersKeepGlobals, RunsHaveGlobals, TasksKeepNames, TurnsKeepGlobals};
ghost use Rattle.mb_growth.specs.Needs.{WalksMustFit, DefinitionsMustFit, ViewsMustFit};
ghost use Rattle.mb_growth.specs.Targets.{TasksKeepTargets, FirstHasTargets, TurnsKeepTargets, LettersKeepTargets, RunsHaveTargets};
ghost use Rattle.mb_growth.specs.Laws.{DefinitionsMove, ElementsMove, DeletionsMove, PrototypesMove, ClosingMoves, StaysLater, GoesOnLater, OneMoves, OneIsMade, SeesByRules, EachSideSees, TasksEvolve, SidesSeeTasksEvolve, FirstIsFormed, TurnsEvolve, LettersEvolve, RunsEvolve};

/// Whatever an internal method makes of an object, the object evolves, and keeps its owner and label.
pub fn objects_move()
    ensures definitions { DefinitionsMove }
    ensures elements { ElementsMove }
    ensures deletions { DeletionsMove }
    ensures prototypes { PrototypesMove }
    ensures closing { ClosingMoves }
{}

/// Graphs whose objects evolve: nothing changes, two steps, one object that moves, one that is made.
pub fn objects_evolve()
    ensures stays { StaysLater }
    ensures goes_on { GoesOnLater }
    ensures moves { OneMoves }
    ensures made { OneIsMade }
{}

/// What a side sees of an object evolves with it, under every policy.
pub fn a_side_sees_it_evolve()
    ensures sees { SeesByRules }
    ensures evolves { EachSideSees }
{}

/// Along the meaning each object keeps its owner and label and evolves, whatever the task is and however it ends, spent
/// too. A task fits where its descriptor is of one kind and a walk's object is extensible.
pub fn tasks_evolve()
    ensures objects { TasksEvolve }
    ensures sides { SidesSeeTasksEvolve }
{}

/// Along a whole run each object evolves: in each turn, and where the membrane is revoked.
pub fn runs_evolve()
    ensures first { FirstIsFormed }
    ensures turns { TurnsEvolve }
    ensures letters { LettersEvolve }
    ensures whole { RunsEvolve }
{}

/// The target of every script-made Proxy is there and is no script-made Proxy: no task makes another, whatever it is
/// and however it ends. A Proxy keeps its target until it is gone, and nothing else gets one.
pub fn targets_are_no_proxies()
    ensures tasks { TasksKeepTargets }
    ensures first { FirstHasTargets }
    ensures turns { TurnsKeepTargets }
    ensures letters { LettersKeepTargets }
    ensures whole { RunsHaveTargets }
{}

/// Each scope stays where it is, with its names, and what is given of a fixed name stays. So the first scopes bind the
/// built-in names and `desk` throughout every run.
pub fn names_last()
    ensures tasks { TasksKeepNames }
    ensures first { FirstHasGlobals }
    ensures turns { TurnsKeepGlobals }
    ensures letters { LettersKeepGlobals }
    ensures whole { RunsHaveGlobals }
{}

/// What a method of an object that is no script-made Proxy answers passes the checks of a Proxy's trap against what the
/// side sees of the object: `has`, `get` and `set` as they begin, every other method as it ends.
pub fn ordinary_entries_pass()
    ensures { OrdinaryEntriesPass }
{}

/// What the checks of a Proxy's traps let pass, with a view in the place of the target, passes against that view,
/// whatever the entry; `has`, `get` and `set` apart.
pub fn checks_tell()
    ensures { ChecksTell }
{}

/// Without tasks that fit no object need evolve: a walk for an object that isn't extensible sets its prototype, and a
/// descriptor with fields of both kinds turns a fixed accessor into a value. Nor need promises hold: an entry by the
/// view of another side tells of a property that is hidden from its own.
pub fn tasks_must_fit()
    ensures walks { WalksMustFit }
    ensures definitions { DefinitionsMustFit }
    ensures views { ViewsMustFit }
{}

/// What a method of a script-made Proxy answers passes the checks against what the Proxy's owner sees of the target at
/// some moment from its begin to its end: as the checks read it, or, without a trap, at that of the target's method.
/// That the target is there and is no script-made Proxy holds wherever a run comes (`targets_are_no_proxies`).
pub fn proxy_entries_pass()
    ensures one { ProxyEntriesPass }
    ensures all { ProxiesPass }
{}

/// The trace of every run is lawful: what each entry answers passed at its moment, no entry contradicts what its side
/// was told of the object before it began, and all that was told holds of what the side sees of the object, for as long
/// as it sees it. So it is along each task that fits and makes entries by the acting side's own view only.
pub fn runs_are_lawful()
    ensures tasks { TasksKeepPromises }
    ensures first { FirstKeepsPromises }
    ensures turns { TurnsKeepPromises }
    ensures letters { LettersKeepPromises }
    ensures promises { RunsKeepPromises }
    ensures pass { RunsPass }
    ensures lawful { RunsAreLawful }
{}

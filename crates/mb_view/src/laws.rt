// What holds of the definitions.
ghost use Rattle.std.specs.Prelude.{◌≡◌, Bool, true};
ghost use Rattle.mb_view.specs.Laws.{EvolvesInSteps, ShownEvolves, ClosedKeysAreSublist, AlikeListTheSame, FactsStay, ChangesEvolve, EachSideSeesItEvolve, IsReached, ElementStepsAreAllowed, LengthStepsAreAllowed, FollowsKey, FollowsWhole, ShadowPasses, PassingAgrees, EntryOwes, OneMoreIsLawful, WitnessedIsLawful, ShadowIsTold, OrdinaryPasses, KeptInTurn, OneMoreTells, AlikeAgrees, OnlyIsAbsent, AlikeEvolve, InOrderAreOwnKeys, ClockOrders, ShadowKeepsTold, WholeKeepsTold};
ghost use Rattle.mb_view.specs.Needs.{RulingIsNeeded, OrderIsNeeded, BeganIsNeeded, LeanLosesOrder};
ghost use Rattle.mb_view.specs.Views.{Sort};
ghost use Rattle.mb_view.specs.Keys.{same_key, sort_of_key};

use mb_base::Key;
use mb_desc::Slot;

/// A property key. Keys that are the same are equal, and each is of one sort: an array index, another text or a symbol.
pub trait Name: Copy + Eq {
    ghost sort_of: { Self → Sort };

    ghost same_key: { (x y : Self) → Self.eq x y ≡ true → x ≡ y };
}

impl Name for Key {
    ghost sort_of = { sort_of_key };

    ghost same_key = { same_key };
}

/// A view evolves to itself, and over two steps.
pub fn evolves_in_steps<K: Name, V: Slot>()
    ensures { EvolvesInSteps V K.eq K.sort_of }
{}

/// Whatever an ordinary object admits makes its view evolve.
pub fn changes_evolve<K: Name, V: Slot>()
    ensures { ChangesEvolve K.eq K.sort_of V.eq V.undefined_value }
{}

/// What a policy shows of an object evolves with the object.
pub fn shown_evolves<K: Name, V: Slot>()
    ensures { ShownEvolves V K.eq K.sort_of }
{}

/// Whoever changes an object, under whatever rules, each side's view of it evolves.
pub fn each_side_sees_it_evolve<K: Name, V: Slot>()
    ensures { EachSideSeesItEvolve K.eq K.sort_of V.eq V.undefined_value }
{}

/// An object may be brought to each view that its own may evolve to.
pub fn is_reached<K: Name, V: Slot>()
    ensures { IsReached K.eq K.sort_of V.eq V.undefined_value }
{}

/// Views that are alike list the same own keys.
pub fn alike_list_the_same<K: Name, V: Slot>()
    ensures { AlikeListTheSame V K.eq K.sort_of }
{}

/// Once a view isn't extensible, its own keys are a sublist of those of before.
pub fn closed_keys_are_sublist<K: Name, V: Slot>()
    ensures { ClosedKeysAreSublist V K.eq K.sort_of }
{}

/// Each step of the definition of an array's element is one that an ordinary object admits.
pub fn element_steps_are_allowed<K: Name, V: Slot>()
    ensures { ElementStepsAreAllowed K.eq V.eq V.undefined_value }
{}

/// Each step of the definition of an array's length is one that an ordinary object admits.
pub fn length_steps_are_allowed<K: Name, V: Slot>()
    ensures { LengthStepsAreAllowed K.eq V.eq V.undefined_value }
{}

/// A fact that holds of a view holds of each that keeps its fixed facts.
pub fn facts_stay<K: Name, V: Slot>()
    ensures { FactsStay V K.eq }
{}

/// A lean shadow follows a view for one key.
pub fn follows_key<K: Name, V: Slot>()
    ensures { FollowsKey K.eq V.eq V.undefined_value }
{}

/// A lean shadow follows a whole view.
pub fn follows_whole<K: Name, V: Slot>()
    ensures { FollowsWhole K.eq V.eq V.undefined_value }
{}

/// An answer that passes the checks against a view passes them against the lean shadow that followed it.
pub fn shadow_passes<K: Name, V: Slot>()
    ensures { ShadowPasses K.eq V.eq V.undefined_value }
{}

/// An answer that passes the checks contradicts no fact of the view, and tells only facts of it.
pub fn passing_agrees<K: Name, V: Slot>()
    ensures { PassingAgrees K.eq V.eq V.undefined_value }
{}

/// An entry contradicts nothing that held as its method began, and tells only what holds as it ends.
pub fn entry_owes<K: Name, V: Slot>()
    ensures { EntryOwes K.eq V.eq V.undefined_value }
{}

/// Lawful entries stay so with one more that contradicts nothing of what was complete when it began.
pub fn one_more_is_lawful<K: Name, V: Slot>()
    ensures { OneMoreIsLawful K.eq V.eq V.undefined_value }
{}

/// Entries that were made over views that evolve are lawful.
pub fn witnessed_is_lawful<K: Name, V: Slot>()
    ensures { WitnessedIsLawful K.eq V.eq V.undefined_value }
{}

/// What a method tells of a view is so of the lean shadow that followed it.
pub fn shadow_is_told<K: Name, V: Slot>()
    ensures { ShadowIsTold K.eq V.eq V.undefined_value }
{}

/// What an ordinary object answers passes the checks.
pub fn ordinary_passes<K: Name, V: Slot>()
    ensures { OrdinaryPasses K.eq V.eq V.undefined_value }
{}

/// The walk keeps a key exactly where it is the one that is wanted next.
pub fn kept_in_turn<K: Name>()
    ensures { KeptInTurn K.eq }
{}

/// The facts that are told with one entry more.
pub fn one_more_tells<K: Name, V: Slot>()
    ensures { OneMoreTells K V }
{}

/// What holds of a view, and what passes against it, does so of a shadow that is alike.
pub fn alike_agrees<K: Name, V: Slot>()
    ensures { AlikeAgrees K.eq V.eq V.undefined_value }
{}

/// That no other keys are there says of each other key that it is absent.
pub fn only_is_absent<K: Name, V: Slot>()
    ensures { OnlyIsAbsent K.eq V.eq V.undefined_value }
{}

/// Views that are alike evolve alike.
pub fn alike_evolve<K: Name, V: Slot>()
    ensures { AlikeEvolve V K.eq K.sort_of }
{}

/// The keys that a table gives in order are the own keys of its view.
pub fn in_order_are_own_keys<V: Slot>()
    ensures { InOrderAreOwnKeys V }
{}

/// Moments at which an entry isn't complete yet, and all are that were as it began, are in order.
pub fn clock_orders<K: Name, V: Slot>()
    ensures { ClockOrders K V }
{}

/// All that is told of an object stays so of its lean shadow.
pub fn shadow_keeps_told<K: Name, V: Slot>()
    ensures { ShadowKeepsTold K.eq V.eq V.undefined_value }
{}

/// All that is told of an object stays so of its whole shadow.
pub fn whole_keeps_told<K: Name, V: Slot>()
    ensures { WholeKeepsTold K.eq V.eq V.undefined_value }
{}

/// Without the ruling on hidden keys a side could change what can't change any more.
pub fn the_ruling_on_hidden_keys_is_needed()
    ensures { RulingIsNeeded }
{}

/// Without the order of fixed keys a view could evolve to one to which no object may be brought.
pub fn the_order_of_fixed_keys_is_needed()
    ensures { OrderIsNeeded }
{}

/// Without the moment at which a method began, nested methods would contradict each other.
pub fn the_moment_of_the_begin_is_needed()
    ensures { BeganIsNeeded }
{}

/// Of a lean shadow the order of keys isn't kept to the view.
pub fn a_lean_shadow_loses_the_order()
    ensures { LeanLosesOrder }
{}

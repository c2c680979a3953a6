// What holds of the definition `Validate`.
ghost use Rattle.mb_desc.specs.Laws.{AcceptedAgain, FixedIsKept, NoFieldsLeave, AbsentAccepts, ClosedRefuses, ConfigurableAccepts, GivenIsThere, NotGivenStays};

use crate::Slot;

/// A descriptor that was accepted is accepted again, and then changes nothing.
pub fn accepted_again<V: Slot>()
    ensures { AcceptedAgain V.eq V.undefined_value }
{}

/// A property that isn't configurable stays so and keeps its kind, its enumerable flag,
/// its getter and setter and, where it can't be written, its value.
pub fn fixed_is_kept<V: Slot>()
    ensures { FixedIsKept V.eq V.undefined_value }
{}

/// A descriptor without fields is accepted by every property and leaves it as it is.
#[tactic(auto, unfolding(crate::specs::Validate::Validate))]
pub fn no_fields_leave<V: Slot>()
    ensures { NoFieldsLeave V.eq V.undefined_value }
{}

/// An extensible object that lacks the property accepts every descriptor, with the defaults.
#[tactic(auto, unfolding(crate::specs::Validate::Validate))]
pub fn absent_accepts<V: Slot>()
    ensures { AbsentAccepts V.eq V.undefined_value }
{}

/// An object that isn't extensible refuses every property that it lacks.
#[tactic(auto, unfolding(crate::specs::Validate::Validate))]
pub fn closed_refuses<V: Slot>()
    ensures { ClosedRefuses V.eq V.undefined_value }
{}

/// A configurable property accepts every descriptor.
pub fn configurable_accepts<V: Slot>()
    ensures { ConfigurableAccepts V.eq V.undefined_value }
{}

/// Each field of an accepted descriptor is in the property afterwards.
pub fn given_is_there<V: Slot>()
    ensures { GivenIsThere V.eq V.undefined_value }
{}

/// What an accepted descriptor doesn't give is as before. A field that the property didn't have, as
/// where its kind changes or it was absent, gets its default.
pub fn not_given_stays<V: Slot>()
    ensures { NotGivenStays V.eq V.undefined_value }
{}

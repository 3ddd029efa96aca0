// Laws of the definitions, for those who record a history.
ghost use Rattle.certificate_checker.specs.Laws.{LatestIsCurrent, LawfulGrows, PlacedLanesAreApart, EndsMayMove, LanesAreAccepted, LayoutExists, LayoutIsOne, AcceptedOrFaulty, AcceptedHasNoFault, FirstFaultIsOne, VerdictLineExists, VerdictLineIsOne};

/// A value is a key's latest exactly when the lossy map of the deeds has it.
pub fn latest_is_current()
    ensures { LatestIsCurrent }
{}

/// Lawful deeds stay lawful with one more that is no hit, or a hit of its key's current value.
pub fn lawful_grows()
    ensures { LawfulGrows }
{}

/// Lanes have no key in common if each has the keys that are placed in the lane of its number.
pub fn placed_lanes_are_apart()
    ensures { PlacedLanesAreApart }
{}

/// A well recorded lane is one with other ends too, as long as no call ends before its point.
pub fn ends_may_move()
    ensures { EndsMayMove }
{}

/// Well recorded lanes, no two of which have a key in common, are accepted as they are laid out.
pub fn lanes_are_accepted()
    ensures { LanesAreAccepted }
{}

/// Any lanes can be laid out.
pub fn layout_exists()
    ensures { LayoutExists }
{}

/// Lanes whose points rise are laid out in one way.
pub fn layout_is_one()
    ensures { LayoutIsOne }
{}

/// A pair is accepted or has a first fault.
pub fn accepted_or_faulty()
    ensures { AcceptedOrFaulty }
{}

/// A pair that is accepted has no first fault.
pub fn accepted_has_no_fault()
    ensures { AcceptedHasNoFault }
{}

/// A pair has at most one first fault.
pub fn first_fault_is_one()
    ensures { FirstFaultIsOne }
{}

/// Any bytes have a verdict line.
pub fn verdict_line_exists()
    ensures { VerdictLineExists }
{}

/// Bytes have at most one verdict line, and it says what they are judged to be.
pub fn verdict_line_is_one()
    ensures { VerdictLineIsOne }
{}

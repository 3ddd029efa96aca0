// Laws of the definitions.
ghost use Rattle.certificate_finder.specs.Laws.{WitnessExcludes, LawfulByKeys, SortedSpotsAreAccepted};
ghost use Rattle.certificate_finder.specs.WarmLaws.{AcceptedStaysCold, KeysAreWarmedOnce, PastStaysAccepted, StaleStaysWrong};

/// A history that has a witness is accepted with no certificate.
pub fn witness_excludes()
    ensures { WitnessExcludes }
{}

/// Deeds are lawful exactly if those of each key are, without its misses.
pub fn lawful_by_keys()
    ensures { LawfulByKeys }
{}

/// Lawful spots are accepted in the order of their points, if those of each key keep their order.
pub fn sorted_spots_are_accepted()
    ensures { SortedSpotsAreAccepted }
{}

/// To a history that is accepted warming adds nothing.
pub fn accepted_stays_cold()
    ensures { AcceptedStaysCold }
{}

/// Warming adds at most one put of a key, and one only of a key of which some hit reads what nobody put.
pub fn keys_are_warmed_once()
    ensures { KeysAreWarmedOnce }
{}

/// A hit of a value that was put, which can have read no put, can have read none once the history is warmed.
pub fn stale_stays_wrong()
    ensures { StaleStaysWrong }
{}

/// A history is accepted once it is warmed, if it is accepted after some deeds whose values none of its puts puts again. So what
/// excludes each certificate of the warmed history excludes each such past.
pub fn past_stays_accepted()
    ensures { PastStaysAccepted }
{}

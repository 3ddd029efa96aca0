// A law of histories, for those who record a history of their own.
ghost use Rattle.recorded_lane.specs.Laws.{AcceptedInTurn};

/// A history of lawful calls that stand in an order of theirs is accepted with the certificate 0, 1, 2 and so on.
pub fn accepted_in_turn()
    ensures { AcceptedInTurn }
{}

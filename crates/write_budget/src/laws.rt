// The laws of what is granted.
ghost use Rattle.write_budget.specs.Laws.{IsWithinBudget, BackIsNothing, SavedIsGranted};

/// Between any two moments no more pages are granted than those of the time between them and of the room, at whatever moments
/// they are asked for. A moment before the latest one gets none and changes nothing. And what time gives is granted.
pub fn budget_laws()
    ensures within { IsWithinBudget }
    ensures back { BackIsNothing }
    ensures saved { SavedIsGranted }
{}

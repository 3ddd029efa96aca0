// Laws of the definitions.
ghost use Rattle.clock_skew.specs.Laws.{TruthStaysAccepted};

/// What is accepted for the true history is accepted for the recorded one once its stamps are widened.
pub fn truth_stays_accepted()
    ensures { TruthStaysAccepted }
{}

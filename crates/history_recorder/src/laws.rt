// Laws of runs, for those who read of one.
ghost use Rattle.history_recorder.specs.Laws.{RunsAreSound, RunsAreAccepted};

/// In any run, over devices that are honest and whatever their pages held, each lane is sound after each event: all that
/// it shows is what its keys have by the calls that it recorded.
pub fn runs_are_sound()
    ensures { RunsAreSound }
{}

/// The history and certificate of any run, over devices that are honest and whatever their pages held, are accepted. It
/// speaks of the definitions alone: of events and replies in which each lane takes the exact step of its store.
pub fn runs_are_accepted()
    ensures { RunsAreAccepted }
{}

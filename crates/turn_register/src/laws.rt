// Laws of runs.
ghost use Rattle.turn_register.specs.Laws.{NumbersDiffer, FlushIsSeen, FlushToComeIsSeen};

/// No number is drawn twice, for an item or for a flush: the later draw gives the greater number.
pub fn numbers_differ()
    ensures { NumbersDiffer }
{}

/// After a flush drew its number, no turn reads a lower one: an item with a lower number is hidden from every turn that begins after the
/// flush was answered, and from every one that gives a greater number itself.
pub fn flush_is_seen()
    ensures { FlushIsSeen }
{}

/// A flush that is to come hides, from its moment on, each item whose number was drawn before it was set.
pub fn flush_to_come_is_seen()
    ensures { FlushToComeIsSeen }
{}

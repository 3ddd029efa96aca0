// Laws of the definitions, for those who move records into sets.
ghost use Rattle.kset.specs.Laws.{StrikesKeepSets, ReadingsKeepSets, RewritingsKeepSets, StrikesKeepCurrent, ReadingsKeepCurrent, RewritingsKeepCurrent, ForgottenShowNothing, FramesKeepSets};

/// Visible records stay of their sets under a strike, a ninth one too.
pub fn strikes_keep_sets()
    ensures { StrikesKeepSets }
{}

/// They stay of their sets when a set is read, whether or not its page is lost.
pub fn readings_keep_sets()
    ensures { ReadingsKeepSets }
{}

/// They stay of their sets when a set is to be written anew with records of it, whether or not it is.
pub fn rewritings_keep_sets()
    ensures { RewritingsKeepSets }
{}

/// Visible records of their sets stay current under a strike of the key whose current value changes.
pub fn strikes_keep_current()
    ensures { StrikesKeepCurrent }
{}

/// They stay current when a set is read.
pub fn readings_keep_current()
    ensures { ReadingsKeepCurrent }
{}

/// They stay current when a set is to be written anew with current records of it.
pub fn rewritings_keep_current()
    ensures { RewritingsKeepCurrent }
{}

/// A set that is forgotten shows nothing, whatever the device holds.
pub fn forgotten_show_nothing()
    ensures { ForgottenShowNothing }
{}

/// The sets are spelled and show as before if the pages below their number are the same.
pub fn frames_keep_sets()
    ensures { FramesKeepSets }
{}

// Laws of what the log answers: each is a plain fact of the log as a list of segments of pages of records.
ghost use Rattle.klog.specs.AnswerLaws.{CountTellsLive, LookFindsNewest, TakingGivesLast, OldestTellsFirst, FullWhereNoneTakes};

/// As many live records are counted of a set as the list of segments has.
pub fn count_tells_live()
    ensures { CountTellsLive }
{}

/// A look-up finds the last live record of the list with the key.
pub fn look_finds_newest()
    ensures { LookFindsNewest }
{}

/// What is taken of a set is, newest first, the last live records of the set on the list, at most 32.
pub fn taking_gives_last()
    ensures { TakingGivesLast }
{}

/// What is said of the oldest segment is so of the first segment of the list that is on the device.
pub fn oldest_tells_first()
    ensures { OldestTellsFirst }
{}

/// A log is full for a record exactly when no segment of the list takes it.
pub fn full_where_none_takes()
    ensures { FullWhereNoneTakes }
{}

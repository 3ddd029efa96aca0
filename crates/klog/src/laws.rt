// Laws of the definitions, for those who take records and drop them later.
ghost use Rattle.klog.specs.Laws.{AppendKeepsPlaces, FlushKeepsPlaces, ListKeepsPlaces, FreeingKeepsPlaces, NamesTellNumbers, LiveAreAsMany, FramesKeepLog};

/// A place that is held stays held when a record is appended, which lies elsewhere.
pub fn append_keeps_places()
    ensures { AppendKeepsPlaces }
{}

/// It stays held after a step of flushing.
pub fn flush_keeps_places()
    ensures { FlushKeepsPlaces }
{}

/// It stays held when records are struck, dropped or asked for.
pub fn list_keeps_places()
    ensures { ListKeepsPlaces }
{}

/// It stays held when the oldest segment is freed, if it is of another one.
pub fn freeing_keeps_places()
    ensures { FreeingKeepsPlaces }
{}

/// Of the segments that may be held at a time, one has a name, and the name tells its number.
pub fn names_tell_numbers()
    ensures { NamesTellNumbers }
{}

/// There are as many live records as entries.
pub fn live_are_as_many()
    ensures { LiveAreAsMany }
{}

/// The log is spelled and shows as before if the pages from the number of sets on are the same.
pub fn frames_keep_log()
    ensures { FramesKeepLog }
{}

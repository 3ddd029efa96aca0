// Laws of the log's calls: each is a plain step of the log as a list of segments of pages of records.
ghost use Rattle.klog.specs.SegmentLaws.{SegmentsTellLive, StrikesKill, TakenDie, EntryDies, LostPagesDie, SealingFlushes, AppendsPutLast, PagesAreDone, FreeingTakesOldest};

/// The live records of the list of segments are those of the log, newest last.
pub fn segments_tell_live()
    ensures { SegmentsTellLive }
{}

/// A strike kills the records of its set and tag.
pub fn strikes_kill()
    ensures { StrikesKill }
{}

/// When taken records are dropped, those that still lie at their places, in their segments, die.
pub fn taken_die()
    ensures { TakenDie }
{}

/// When an entry is dropped its record dies.
pub fn entry_dies()
    ensures { EntryDies }
{}

/// When a page is lost its records die.
pub fn lost_pages_die()
    ensures { LostPagesDie }
{}

/// A filled segment that is sealed is flushed, and an empty one is filled.
pub fn sealing_flushes()
    ensures { SealingFlushes }
{}

/// An append puts its record last, after a sealing if the filled segment has no room.
pub fn appends_put_last()
    ensures { AppendsPutLast }
{}

/// One more page is done when it was written or lost; after the last one the segment is on the device.
pub fn pages_are_done()
    ensures { PagesAreDone }
{}

/// Freeing takes the oldest segment away, of which no record is live.
pub fn freeing_takes_oldest()
    ensures { FreeingTakesOldest }
{}

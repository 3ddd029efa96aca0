// The numbers that a lane counts, and which of them a call adds to.
ghost use Rattle.std.specs.Prelude.{◌≡◌, ◌<◌, ℕ, List, option_and_then};
ghost use Rattle.mover.specs.Get.{answer_of};

use crate::copied::Copied;
use klog::Flushed;
use mover::{AnswerKind, CopyFate, MovedWhole};
use record_pages::{MissCause, Pushed, PutFault, Tier};

/// A number that a lane counts.
#[derive(Clone, Copy, PartialEq, Eq)]
pub enum Counter {
    /// Hits in memory.
    MemoryHits,
    /// Hits in the log.
    LogHits,
    /// Hits in a set.
    SetHits,
    /// Misses of keys that no tier has.
    Absent,
    /// Misses of values that had expired.
    Expired,
    /// Misses by a fault of the device.
    Faults,
    /// Misses by a page that was not the expected one.
    Damaged,
    /// Puts that were stored, fills aside.
    PutsStored,
    /// The bytes of their keys and values.
    PutsBytes,
    /// Puts of objects that fit on no page, fills aside.
    PutsTooLarge,
    /// Puts that were refused memory, fills aside.
    PutsOutOfMemory,
    /// Fills that were stored.
    FillsStored,
    /// The bytes of their keys and values.
    FillsBytes,
    /// Fills of objects that fit on no page, if their lease had not ended.
    FillsTooLarge,
    /// Fills that were refused memory, if their lease had not ended.
    FillsOutOfMemory,
    /// Fills whose lease had ended.
    FillsStale,
    /// Leases that were given.
    LeasesGiven,
    /// Removals.
    Removals,
    /// Pairs that were pushed out of memory, and that admission declined. They are lost.
    Declined,
    /// Pairs and copies that were pushed out of memory and entered the log.
    Logged,
    /// Pairs and copies that were pushed out of memory, and for which the log had no place. They are lost.
    LogFull,
    /// Pairs and copies that were pushed out of memory, and for which the log's index had no place. They are lost.
    IndexFull,
    /// Hits that a copy in memory answered. They are among the hits in sets.
    CopyHits,
    /// Objects on flash that were brought back into memory, as copies.
    BroughtBack,
    /// Copies that were pushed out of memory and dropped, since flash may have their object.
    PushedCopies,
    /// Segments that were sealed. Steps of flushing, moves and upkeep change this number or those after it, and no other.
    Sealed,
    /// Pages of the log that were written.
    PagesWritten,
    /// Pages that were lost, by a flush or by a move.
    PagesLost,
    /// Sets whose page was written anew.
    SetsWritten,
    /// Sets that were forgotten, since their page was not written.
    SetsForgotten,
    /// Segments that were freed.
    SegmentsFreed,
    /// Objects that entered the log anew.
    Readmitted,
    /// Objects that were dropped.
    Dropped,
    /// Moves that were refused memory.
    MovesOutOfMemory,
    /// Steps of upkeep that were due.
    UpkeepSteps,
    /// Those of them that calls did in help.
    StepsInHelp,
}

impl Counter {
    ghost use Rattle.service_lane.specs.Counters.{place_of};
    ghost use Rattle.service_lane.specs.Counting.{counter_of_answer, counter_of_hit, counter_of_miss, counter_of_refused_put, counter_of_refused_fill, counter_of_pushed, counter_of_copied, counter_of_fate, fate_after, counter_of_flush, counter_of_move};
    ghost use Rattle.service_lane.specs.declared.counts.TheConstants.{COUNTERS};

    /// Where its number stands.
    pub(crate) fn place(self) -> usize
        ensures place { result ≡ place_of self }
        ensures within { result < COUNTERS }
    {
        self as usize
    }

    /// That of an answer.
    pub(crate) fn of_answer(seen: AnswerKind) -> Counter
        ensures { (value : List ℕ) → result ≡ counter_of_answer (answer_of seen value) }
    {
        match seen {
            AnswerKind::Hit { tier, .. } => Counter::of_hit(tier),
            AnswerKind::Miss(cause) => Counter::of_miss(cause),
        }
    }

    /// That of hits in a tier.
    fn of_hit(tier: Tier) -> Counter
        ensures { result ≡ counter_of_hit tier }
    {
        match tier {
            Tier::Memory => Counter::MemoryHits,
            Tier::Log => Counter::LogHits,
            Tier::Set => Counter::SetHits,
        }
    }

    /// That of misses of a cause.
    fn of_miss(cause: MissCause) -> Counter
        ensures { result ≡ counter_of_miss cause }
    {
        match cause {
            MissCause::Absent => Counter::Absent,
            MissCause::Expired => Counter::Expired,
            MissCause::Fault => Counter::Faults,
            MissCause::Damaged => Counter::Damaged,
        }
    }

    /// That of puts that were refused so.
    pub(crate) fn of_refused_put(fault: PutFault) -> Counter
        ensures { result ≡ counter_of_refused_put fault }
    {
        match fault {
            PutFault::TooLarge => Counter::PutsTooLarge,
            PutFault::OutOfMemory => Counter::PutsOutOfMemory,
        }
    }

    /// That of fills that were refused so.
    pub(crate) fn of_refused_fill(fault: PutFault) -> Counter
        ensures { result ≡ counter_of_refused_fill fault }
    {
        match fault {
            PutFault::TooLarge => Counter::FillsTooLarge,
            PutFault::OutOfMemory => Counter::FillsOutOfMemory,
        }
    }

    /// That of pairs of which this became, if one was pushed out.
    pub(crate) fn of_pushed(pushed: Pushed) -> Option<Counter>
        ensures { result ≡ counter_of_pushed pushed }
    {
        match pushed {
            Pushed::Nobody => None,
            Pushed::Declined => Some(Counter::Declined),
            Pushed::Logged => Some(Counter::Logged),
            Pushed::Full => Some(Counter::LogFull),
            Pushed::IndexFull => Some(Counter::IndexFull),
        }
    }

    /// That of what a get did with the copies, if it did something.
    pub(crate) fn of_copied(copied: Copied) -> Option<Counter>
        ensures { result ≡ counter_of_copied copied }
    {
        match copied {
            Copied::Nothing => None,
            Copied::Answered => Some(Counter::CopyHits),
            Copied::Made(_) => Some(Counter::BroughtBack),
        }
    }

    /// That of what became of the copy that a get pushed out, if it pushed one out and that is counted.
    pub(crate) fn of_fate_after(copied: Copied) -> Option<Counter>
        ensures { result ≡ option_and_then counter_of_fate (fate_after copied) }
    {
        match copied {
            Copied::Made(Some(fate)) => Counter::of_fate(fate),
            _ => None,
        }
    }

    /// That of copies of which this became, if that is counted.
    fn of_fate(fate: CopyFate) -> Option<Counter>
        ensures { result ≡ counter_of_fate fate }
    {
        match fate {
            CopyFate::Known => Some(Counter::PushedCopies),
            CopyFate::TooLarge => None,
            CopyFate::Logged => Some(Counter::Logged),
            CopyFate::Full => Some(Counter::LogFull),
            CopyFate::IndexFull => Some(Counter::IndexFull),
        }
    }

    /// That of a step of flushing, if it did something.
    pub(crate) fn of_flushed(flushed: Flushed) -> Option<Counter>
        ensures { result ≡ counter_of_flush flushed }
    {
        match flushed {
            Flushed::Sealed => Some(Counter::Sealed),
            Flushed::Wrote => Some(Counter::PagesWritten),
            Flushed::PageLost => Some(Counter::PagesLost),
            Flushed::Nothing | Flushed::LogFull => None,
        }
    }

    /// That of a move, if it did something.
    pub(crate) fn of_moved(moved: MovedWhole) -> Option<Counter>
        ensures { result ≡ counter_of_move moved }
    {
        match moved {
            MovedWhole::Nothing | MovedWhole::Busy => None,
            MovedWhole::Freed => Some(Counter::SegmentsFreed),
            MovedWhole::Readmitted => Some(Counter::Readmitted),
            MovedWhole::Dropped => Some(Counter::Dropped),
            MovedWhole::PageLost => Some(Counter::PagesLost),
            MovedWhole::Written => Some(Counter::SetsWritten),
            MovedWhole::Forgotten => Some(Counter::SetsForgotten),
        }
    }
}

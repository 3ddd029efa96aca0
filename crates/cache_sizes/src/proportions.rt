// The proportions of a shape that is worked out, each stated once.

// Pages of 100 that are of sets; the others are of logs.
pub(crate) const SETS_PERCENT: u64 = 95;

// Pages of a lane for each page of its log: with one of 20 enough objects of a set meet in the log to move together.
pub(crate) const PAGES_FOR_LOG_PAGE: u64 = 20;

// Segments that a log has if its pages are enough for it: two of them are in memory, so they are a small part.
pub(crate) const USUAL_SEGMENTS: u64 = 128;

// Lanes for each thread: with 16 of them two threads seldom want one lane, though some keys are asked for much more often
// than others.
pub(crate) const LANES_FOR_THREAD: u32 = 16;

// The least pages of a lane that is wanted for the threads' sake, before shards are filled up with lanes: with fewer
// its log would have few segments.
pub(crate) const LEAST_LANE_PAGES: u64 = 1024;

// Entries of a log's index for each eight typical records that it has room for: there are smaller objects, which lie
// closer.
pub(crate) const ENTRIES_FOR_8_RECORDS: u64 = 9;

// Objects for each 100 that the sets have room for: keys fall into sets by chance. With 93 some 4 keys of 100 find
// their set full, with more these grow.
pub(crate) const FULL_PERCENT: u64 = 93;

// Strikes that a lane has room for, for each set: some three objects move to a set together, each may replace one that lies
// there, and then all strikes of the set are gone. So there are some one and a half on average.
pub(crate) const STRIKES_FOR_SET: u32 = 2;

// Sets of a lane for each of its slots for leases: a lease is soon used, so few keys of its slot are written meanwhile.
pub(crate) const SETS_FOR_LEASE_SLOT: u32 = 4;

// Objects that move to a set together at the least, so that a page is not written for one of them.
pub(crate) const USUAL_THRESHOLD: u32 = 2;

// A set with room for fewer records than these has each object moved to it that comes: seldom does a second one of it lie in
// the log.
pub(crate) const FEW_RECORDS: u64 = 16;

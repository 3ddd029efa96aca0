// The least and the greatest that each number of a configuration may be, stated here and nowhere else.

/// The most lanes of a cache.
pub const MAX_LANES: u32 = 16;

/// The most sets of a lane.
pub const MAX_SETS: u32 = 65_536;

/// The most objects of a lane in memory.
pub const MAX_MEMORY: u32 = 1_048_576;

/// The fewest segments of a lane's log: one is filled while another is written.
pub const MIN_SEGMENTS: u32 = 2;

/// The most segments of a lane's log.
pub const MAX_SEGMENTS: u32 = 256;

/// The most pages of a segment.
pub const MAX_SEGMENT_PAGES: u32 = 64;

/// The most entries of the index of a lane's log.
pub const MAX_ENTRIES: u32 = 1_048_576;

/// The greatest threshold.
pub const MAX_THRESHOLD: u32 = 32;

/// The most of 65,536 pairs pushed out of memory that enter the log: all of them.
pub const MAX_ADMIT: u32 = 65_536;

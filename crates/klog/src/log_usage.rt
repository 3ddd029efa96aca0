// How full a log is.

/// How full a log is: what decides when a page of it is to be written, and when its records are to move.
#[derive(Clone, Copy, PartialEq, Eq)]
pub struct LogUsage {
    /// For how many segments the device has places.
    pub segments: u32,
    /// How many of these places are free.
    pub free_segments: u32,
    /// Whether there is a segment that is flushed.
    pub is_flushing: bool,
    /// How many pages a segment has.
    pub segment_pages: u32,
    /// How many pages of the segment that is filled hold records.
    pub filled_pages: u32,
    /// How many records may be live.
    pub limit: u32,
    /// How many are.
    pub live: u32,
}

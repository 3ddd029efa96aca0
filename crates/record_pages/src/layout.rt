// A configuration whose numbers were found to be in range.
ghost use Rattle.std.specs.Prelude.{◌≡◌, ◌≤◌};

/// A configuration with each number in its range. Only `Config::check` makes one.
#[derive(Clone, Copy, PartialEq, Eq)]
pub struct Layout {
    pub lanes: u32,
    pub sets: u32,
    pub memory: u32,
    pub segments: u32,
    pub segment_pages: u32,
    pub entries: u32,
    pub threshold: u32,
    pub admit: u32,
    ghost lanes_range: { (1 ≤ lanes) × (lanes ≤ 16) },
    ghost sets_range: { (1 ≤ sets) × (sets ≤ 65536) },
    ghost memory_range: { (1 ≤ memory) × (memory ≤ 1048576) },
    ghost segments_range: { (2 ≤ segments) × (segments ≤ 256) },
    ghost segment_pages_range: { (1 ≤ segment_pages) × (segment_pages ≤ 64) },
    ghost entries_range: { (1 ≤ entries) × (entries ≤ 1048576) },
    ghost threshold_range: { (1 ≤ threshold) × (threshold ≤ 32) },
    ghost admit_range: { admit ≤ 65536 },
}

impl Layout {
    ghost use Rattle.record_pages.specs.Asked.{layout_pages};

    /// The pages that the device of each lane has at least: those of the lane's sets and of its log.
    pub fn pages(&self) -> u32
        ensures pages { result ≡ layout_pages self.now }
        ensures most { result ≤ 81920 }
    {
        self.sets + self.segments * self.segment_pages
    }
}

// The counters of a lane as C reads them.
ghost use Rattle.std.specs.Prelude.{◌≡◌, ◌≤◌};
ghost use Rattle.c_lane.specs.Counting.{counters_with};

use klog::LogUsage;
use page_device::DeviceCounts;
use service_lane::{Counter, Counts};

/// How many numbers of a lane C reads.
pub const LANE_COUNTERS: usize = 34;

/// The numbers of a lane that C reads, in the order of the fields of `kangaroo_counters` (c/kangaroo.h): from `memory_hits` to
/// `segments_now`, and then `copy_hits`, `brought_back` and `pushed_copies`. Each counts since the lane was opened, modulo 2^64; the three up to
/// `segments_now` are of the present.
#[repr(C)]
#[derive(Clone, Copy)]
pub struct Counters {
    /// The numbers.
    pub numbers: [u64; LANE_COUNTERS],
}

impl Counters {
    /// The numbers, by what the parts of a lane count.
    pub(crate) fn of(
        counts: &Counts,
        device: &DeviceCounts,
        usage: &LogUsage,
        memory_objects: usize,
    ) -> Counters
        requires { usage.now.free_segments ≤ usage.now.segments }
        ensures { result ≡ counters_with counts.now device.now usage.now memory_objects }
    {
        let steps = counts.of(Counter::UpkeepSteps);
        let bytes = counts.of(Counter::PutsBytes);
        Counters {
            numbers: [
                counts.of(Counter::MemoryHits),
                counts.of(Counter::LogHits),
                counts.of(Counter::SetHits),
                counts.of(Counter::Absent),
                counts.of(Counter::Expired),
                counts.of(Counter::Faults),
                counts.of(Counter::Damaged),
                counts.of(Counter::PutsStored),
                counts.of(Counter::Removals),
                counts.of(Counter::LeasesGiven),
                counts.of(Counter::FillsStored),
                counts.of(Counter::FillsStale),
                counts.of(Counter::Declined),
                counts.of(Counter::Logged),
                counts.of(Counter::LogFull),
                counts.of(Counter::IndexFull),
                counts.of(Counter::PagesWritten),
                counts.of(Counter::SetsWritten),
                device.pages_read,
                counts.of(Counter::PagesLost),
                counts.of(Counter::SetsForgotten),
                counts.of(Counter::Readmitted),
                counts.of(Counter::Dropped),
                counts.of(Counter::SegmentsFreed),
                steps.wrapping_sub(counts.of(Counter::StepsInHelp)),
                counts.of(Counter::StepsInHelp),
                counts.of(Counter::MovesOutOfMemory),
                bytes.wrapping_add(counts.of(Counter::FillsBytes)),
                memory_objects as u64,
                u64::from(usage.live),
                u64::from(usage.segments - usage.free_segments),
                counts.of(Counter::CopyHits),
                counts.of(Counter::BroughtBack),
                counts.of(Counter::PushedCopies),
            ],
        }
    }
}

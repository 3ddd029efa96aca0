// What is due in a lane.
ghost use Rattle.std.specs.Prelude.{◌≡◌, ◌↔◌, Some, None, Option, is_some};
ghost use Rattle.service_lane.specs.Dueness.{can_flush, wants_move, is_short, due_of, is_near_end};

use klog::LogUsage;

/// What is due in a lane.
#[derive(Clone, Copy, PartialEq, Eq)]
pub enum Due {
    /// A page of the segment that is flushed is to be written.
    Flush,
    /// Records of the oldest segment are to move.
    Move,
}

/// What is due in a lane whose log is so full, if anything is.
///
/// A page is due if a segment is flushed and has a place on the device. Otherwise a move is due if the log is short:
/// fewer than one of 16 places are free, or none, or more than 15 of 16 records that may be live are; but no move is
/// due while no segment lies on the device. No segment is sealed for it: that is done by the put that finds it full.
pub fn what_is_due(usage: &LogUsage) -> Option<Due>
    ensures { result ≡ due_of usage.now }
{
    if usage.is_flushing && usage.free_segments > 0 {
        Some(Due::Flush)
    } else if usage.free_segments < usage.segments && is_short(usage) {
        Some(Due::Move)
    } else {
        None
    }
}

/// Whether something is due, and a lane whose log is so full is near the end of its room: a segment is flushed while more than 3
/// of 4 pages of the one that is filled hold records, or more than 31 of 32 records that may be live are.
pub fn is_near_end(usage: &LogUsage) -> bool
    ensures { result ≡ is_near_end usage.now }
{
    let filled = 4 * u64::from(usage.filled_pages) > 3 * u64::from(usage.segment_pages);
    let live = 32 * u64::from(usage.live) > 31 * u64::from(usage.limit);
    what_is_due(usage).is_some() && (usage.is_flushing && filled || live)
}

// Whether there are few places or few records are left.
fn is_short(usage: &LogUsage) -> bool
    ensures { result ≡ is_short usage.now }
{
    let least_free = (usage.segments / 16).max(1);
    let live = 16 * u64::from(usage.live) > 15 * u64::from(usage.limit);
    usage.free_segments < least_free || live
}

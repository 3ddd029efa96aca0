// How the pages of a lane are divided between its sets and its log.
ghost use Rattle.std.specs.Prelude.{◌≡◌, ◌+◌, ◌*◌, ◌≤◌};
ghost use Rattle.record_pages.specs.declared.limits.TheConstants.{MIN_SEGMENTS, MAX_SEGMENTS, MAX_SEGMENT_PAGES};
ghost use Rattle.cache_sizes.specs.declared.limits.TheConstants.{MAX_ODD_SETS};
ghost use Rattle.cache_sizes.specs.LanePages.{segment_pages_of, segments_of, sets_of};

use crate::limits::MAX_ODD_SETS;
use crate::proportions::{PAGES_FOR_LOG_PAGE, USUAL_SEGMENTS};
use record_pages::{MAX_SEGMENT_PAGES, MAX_SEGMENTS, MIN_SEGMENTS};

// The sets of a lane, and the segments of its log.
#[derive(Clone, Copy)]
pub(crate) struct LanePages {
    pub(crate) sets: u32,
    pub(crate) segments: u32,
    pub(crate) segment_pages: u32,
    ghost sets_range: { (1 ≤ sets) × (sets ≤ MAX_ODD_SETS) },
    ghost segments_range: { (MIN_SEGMENTS ≤ segments) × (segments ≤ MAX_SEGMENTS) },
    ghost segment_pages_range: { (1 ≤ segment_pages) × (segment_pages ≤ MAX_SEGMENT_PAGES) },
}

impl LanePages {
    // The division of this many pages.
    pub(crate) fn of(pages: u64) -> LanePages
        requires { 3 ≤ pages }
        ensures sets { result.sets ≡ sets_of pages }
        ensures segments { result.segments ≡ segments_of pages }
        ensures segment_pages { result.segment_pages ≡ segment_pages_of pages }
        ensures fits { result.sets + result.segments * result.segment_pages ≤ pages }
    {
        let segment_pages = segment_pages_of(pages);
        let segments = segments_of(pages, segment_pages);
        LanePages {
            sets: sets_of(pages, u64::from(segments * segment_pages)),
            segments,
            segment_pages,
        }
    }
}

// The pages of a segment.
#[tactic(auto, unfolding(crate::specs::LanePages::segment_pages_of))]
fn segment_pages_of(pages: u64) -> u32
    ensures pages { result ≡ segment_pages_of pages }
    ensures least { 1 ≤ result }
    ensures most { result ≤ MAX_SEGMENT_PAGES }
{
    (pages / PAGES_FOR_LOG_PAGE / USUAL_SEGMENTS).clamp(1, u64::from(MAX_SEGMENT_PAGES)) as u32
}

// The segments of a log.
#[tactic(auto, unfolding(crate::specs::LanePages::segments_of))]
fn segments_of(pages: u64, segment_pages: u32) -> u32
    requires pages { segment_pages ≡ segment_pages_of pages }
    requires least { 1 ≤ segment_pages }
    ensures segments { result ≡ segments_of pages }
    ensures least { MIN_SEGMENTS ≤ result }
    ensures most { result ≤ MAX_SEGMENTS }
{
    let segments = pages / PAGES_FOR_LOG_PAGE / u64::from(segment_pages);
    segments.clamp(u64::from(MIN_SEGMENTS), u64::from(MAX_SEGMENTS)) as u32
}

// The sets on the pages that the log leaves.
#[tactic(auto, unfolding(crate::specs::LanePages::sets_of))]
fn sets_of(pages: u64, log_pages: u64) -> u32
    requires log { log_pages ≡ segments_of pages * segment_pages_of pages }
    requires left { 1 + log_pages ≤ pages }
    ensures sets { result ≡ sets_of pages }
    ensures least { 1 ≤ result }
    ensures most { result ≤ MAX_ODD_SETS }
    ensures fits { result + log_pages ≤ pages }
{
    let sets = (pages - log_pages).min(u64::from(MAX_ODD_SETS)) as u32;
    if sets % 2 == 0 { sets - 1 } else { sets }
}

// What comes of the calls with which a stream ends.
use crate::extent::Extent;
use crate::fault_list::FaultList;
use certificate_finder::Found;

/// What comes of the calls with which a stream ends: the input is over, or they are not accepted.
#[derive(Drop)]
pub(crate) struct StreamEnd {
    /// How they differ from what the text spells.
    pub(crate) extent: Extent,
    /// A certificate with which they are accepted, why there is none, or the hits for which that was not decided.
    pub(crate) found: Found,
    /// All faults of calls that are rejected; none of other ones.
    pub(crate) faults: FaultList,
}

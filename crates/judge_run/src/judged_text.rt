// A text that was judged.
use crate::extent::Extent;
use crate::fault_list::FaultList;
use certificate_finder::Found;
use history_text::TextHistory;
use std::hash::BuildHasher;

/// The history of a text, and what was found for it.
#[derive(Drop)]
pub struct JudgedText<S: BuildHasher> {
    /// The history as it is judged, with the lines of its calls and the names of its callers.
    pub text: TextHistory<S>,
    /// How it differs from what the text spells.
    pub extent: Extent,
    /// A certificate with which it is accepted, why there is none, or the hits for which that was not decided.
    pub found: Found,
    /// All faults of a history that is rejected; none of another one.
    pub faults: FaultList,
}

// All faults of a history that is rejected.
use crate::told_fault::ToldFault;

/// All faults of a history that is rejected.
#[derive(Drop)]
pub struct FaultList {
    /// The faults, each as a reason: the calls that end before they start, the wrong hits by their ends, of each key that has crossed
    /// writes two of them, and the hits that would cross two writes whichever of several puts they read.
    pub faults: Vec<ToldFault>,
    /// How many keys they are about.
    pub keys: usize,
}

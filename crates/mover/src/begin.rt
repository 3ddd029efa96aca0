use policy_laws::Job;

/// How a move began.
#[derive(Drop)]
pub enum Begin {
    /// No segment is on the device, or as many moves began as a store begins.
    Nothing,
    /// As many moves are in flight as may be, or each live record of the oldest segment is of a set in flight.
    Busy,
    /// The oldest segment had no live record, and is free.
    Freed,
    /// The first live record of the oldest segment that is of no set in flight entered the log anew.
    Readmitted,
    /// It was dropped.
    Dropped,
    /// A page was lost, and no move began.
    PageLost,
    /// The records of its set are to move, by a plan for this job.
    Job(Job),
}

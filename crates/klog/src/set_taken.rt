use crate::taken_record::TakenRecords;

/// What a taking of a set's records answers.
#[derive(Drop)]
pub enum SetTaken {
    /// The newest live records of the set, at most 32, newest first. They stay in the log.
    Records(TakenRecords),
    /// The device failed, or a page that was read is not the log's. The live records of that page are lost.
    PageLost,
}

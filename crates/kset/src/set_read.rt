use crate::set_record::SetRecords;

/// What a reading of a whole set answers.
#[derive(Drop)]
pub enum SetRead {
    /// The visible records of the set, in page order.
    Records(SetRecords),
    /// The device failed, or what was read is not the set's page. The set is forgotten.
    PageLost,
}

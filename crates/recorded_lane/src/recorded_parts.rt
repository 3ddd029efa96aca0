use trace_file::History;

/// The parts of a lane that is over.
#[derive(Drop)]
pub struct RecordedParts<D> {
    /// The recorded calls, each of which ends at its point.
    pub calls: History,
    /// The device, as it is now.
    pub device: D,
}

// A lane that is over.
use trace_file::History;

/// What is left of a lane that is over, but for its device: its number, and the calls that it recorded, each with its point
/// for its end.
#[derive(Drop)]
pub(crate) struct LaneLeft {
    pub(crate) lane: u32,
    pub(crate) recorded: History,
}

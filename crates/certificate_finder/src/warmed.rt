// A history whose cache was filled before it begins.
use trace_file::History;

/// A history with puts for what its cache is taken to have had from the start.
#[derive(Drop)]
pub struct Warmed {
    /// The calls of the history, and after them the puts that were added.
    pub history: History,
    /// For each added put, in their order, the position of the hit whose value it puts.
    pub hits: Vec<u32>,
}

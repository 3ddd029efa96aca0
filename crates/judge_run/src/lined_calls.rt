// Calls of a text, with their lines.
ghost use Rattle.std.specs.Prelude.{◌≡◌, []};

use std::alloc::Global;
use trace_file::History;

/// Calls of a text, with their lines.
#[derive(Drop)]
pub(crate) struct LinedCalls {
    /// The calls.
    pub(crate) history: History,
    /// The number of the line of each.
    pub(crate) lines: Vec<u64>,
}

impl LinedCalls {
    /// No calls.
    pub(crate) fn new(alloc: Global) -> LinedCalls
        ensures calls { result.history ≡ [] }
        ensures lines { result.lines.items ≡ [] }
    {
        LinedCalls {
            history: History::new(alloc),
            lines: Vec::new(alloc),
        }
    }
}

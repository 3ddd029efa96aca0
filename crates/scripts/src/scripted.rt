// How a script ended.

/// How a script ended.
#[derive(Clone, Copy, PartialEq, Eq)]
pub enum Scripted {
    /// All its lines were answered.
    Ended,
    /// A line was bad, and the script ended there.
    BadLine,
    /// A field of its configuration was bad.
    BadConfig,
}

// What became of a rewriting.

/// What became of a set whose page was to be written anew.
#[derive(Clone, Copy, PartialEq, Eq)]
pub enum Rewritten {
    /// The page was written, and the set has just its records.
    Written,
    /// The device failed, and the set is forgotten.
    Forgotten,
}

// What becomes of an object in the oldest segment of the log.

/// What becomes of an object that leaves the oldest segment of the log.
#[derive(Clone, Copy, PartialEq, Eq)]
pub enum Judgement {
    /// It moves to its set, together with the others of the log.
    Move,
    /// It was hit, and enters the log again.
    Readmit,
    /// It is lost.
    Drop,
}

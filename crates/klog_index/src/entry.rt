// A live record, as the index knows it.
use crate::place::Place;
use record_pages::Prediction;

/// A live record of the log, as the index knows it.
#[derive(Clone, Copy, PartialEq, Eq)]
pub struct Entry {
    /// The set of its key.
    pub set: u32,
    /// The tag of its key.
    pub tag: u16,
    /// Where it lies.
    pub place: Place,
    /// How soon it is predicted to be asked for again.
    pub prediction: Prediction,
}

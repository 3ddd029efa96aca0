// How what is judged differs from what a text spells.
use crate::forgotten::Forgotten;

/// How the calls that are judged differ from those that a text spells. Each is there if that was asked for.
#[derive(Clone, Copy, PartialEq, Eq)]
pub struct Extent {
    /// How many values were taken as there from the start. So many puts were added after the calls of the text.
    pub from_start: Option<usize>,
    /// How many bad lines were passed over.
    pub skipped: Option<u64>,
    /// The calls that were judged and then forgotten, before those that are held.
    pub forgotten: Option<Forgotten>,
}

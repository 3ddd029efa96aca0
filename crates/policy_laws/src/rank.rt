// How early an item is kept.

/// How early an item is kept: the least distance first, and at one distance the early items before the late
/// ones. Items that are alike in both rank by their numbers.
#[derive(Clone, Copy, PartialEq, Eq)]
pub struct Rank {
    pub distance: u8,
    pub late: bool,
}

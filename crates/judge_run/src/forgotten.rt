// Calls that were judged and are no longer held.

/// How many calls were judged and then forgotten, by kind. They stood on lines before those of the calls that are held, or among
/// them.
#[derive(Clone, Copy, PartialEq, Eq)]
pub struct Forgotten {
    /// How many puts.
    pub puts: u64,
    /// How many removals.
    pub removals: u64,
    /// How many hits.
    pub hits: u64,
    /// How many misses.
    pub misses: u64,
    /// How many puts were added with earlier pieces, whether they are held or not. `puts` has those that were forgotten.
    pub added: u64,
}

impl Forgotten {
    /// Nothing was forgotten.
    pub(crate) const NONE: Forgotten = Forgotten {
        puts: 0,
        removals: 0,
        hits: 0,
        misses: 0,
        added: 0,
    };
}

// Why a hit did not read a put.

/// Why a hit can't have read a put of its key and value.
#[derive(Clone, Copy, PartialEq, Eq)]
pub enum Excuse {
    /// The hit ended before the put started.
    Later,
    /// The put's value had expired at the hit's moment.
    Expired,
    /// The write of the key at this position started after the put's end, and ended before the hit's start.
    Replaced(u32),
}

/// A put that a hit can't have read.
#[derive(Clone, Copy, PartialEq, Eq)]
pub struct Excluded {
    /// The put's position.
    pub put: u32,
    /// Why the hit can't have read it.
    pub why: Excuse,
}

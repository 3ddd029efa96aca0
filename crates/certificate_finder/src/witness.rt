// Why a history has no certificate.
use crate::excluded::Excluded;
use crate::unread_hit::UnreadHit;

/// A write of a key, and two calls that go with it: each is the write itself, or a hit that can have read no other put.
#[derive(Clone, Copy, PartialEq, Eq)]
pub struct Side {
    /// The write's position.
    pub write: u32,
    /// The position of the call that ended before the other side's late one started.
    pub early: u32,
    /// The position of the call that started after the end of the other side's early one.
    pub late: u32,
}

/// Why no order of a history's calls is accepted. Each number is a position of the history.
#[derive(Drop)]
pub enum Witness {
    /// The call here ends before it starts.
    Interval(u32),
    /// The hit here can have read no put of its key and value: these are all of them, each with what excludes it.
    Hit(u32, Vec<Excluded>),
    /// Two writes of a key, each of which has to stand before the other.
    Crossed(Side, Side),
    /// A hit that can have read several puts, and read none: whichever it read, two writes of its key would be crossed.
    Unread(UnreadHit),
}

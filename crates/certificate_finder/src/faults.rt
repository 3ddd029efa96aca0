// All that is wrong with a history.
use crate::excluded::Excluded;
use crate::unread_hit::UnreadHit;
use crate::witness::Side;

/// A hit that can have read no put of its key and value.
#[derive(Drop)]
pub struct WrongHit {
    /// The hit's position.
    pub hit: u32,
    /// Of the puts of its key and value, by their starts, the first so many as were asked for, each with what excludes it.
    pub puts: Vec<Excluded>,
    /// How late it is: from the end of the last write that replaced one of all its puts to its start, in the unit of the stamps.
    /// It is not known of a hit that no write replaced, or that may have read a value that had expired.
    pub late: Option<u64>,
}

/// Two writes of a key, each of which has to stand before the other.
#[derive(Clone, Copy, PartialEq, Eq)]
pub struct CrossedWrites {
    /// One of them.
    pub one: Side,
    /// The other one.
    pub other: Side,
}

/// All that is wrong with a history. Each number is a position of it.
#[derive(Drop)]
pub struct Faults {
    /// The calls that end before they start, in the order of the history.
    pub reversed: Vec<u32>,
    /// The hits that can have read no put, by their ends, those of one end in the order of the history.
    pub hits: Vec<WrongHit>,
    /// Of each key that has crossed writes two of them.
    pub crossed: Vec<CrossedWrites>,
    /// The hits that several puts fit, and that would cross two writes whichever of them they read, by their ends, those of one end in
    /// the order of the history.
    pub unread: Vec<UnreadHit>,
}

// What a command replies.

use crate::item_marks::ItemMarks;

/// What a command replies, as the protocol has it.
#[derive(Clone, Copy)]
pub enum CommandReply {
    /// The item was stored.
    Stored,
    /// It was not stored, since the mode wants a live item and there is none, or wants none and there is one.
    NotStored,
    /// The live item has another number than the one that is asked for. Nothing changed.
    Exists,
    /// There is no live item.
    NotFound,
    /// The item was removed.
    Deleted,
    /// The item has the new expiry.
    Touched,
    /// The item was marked as stale.
    Invalidated,
    /// There is an item, and this is told of it.
    Found(ItemMarks),
    /// The item holds this number.
    Number(u64),
    /// The item holds no number. Nothing changed.
    NotNumber,
}

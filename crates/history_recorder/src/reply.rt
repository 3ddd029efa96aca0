use klog::Flushed;
use mover::{Aborted, Begin, Committed};
use record_pages::{Answer, ItemList, Pushed};
use recorded_lane::{RecordFault, RecordPutFault};
use std::alloc::AllocError;

/// What an event is replied. The steps of a lane are replied with their result, a refusal included; an act that is
/// refused ends its call, which is then in no history.
#[derive(Drop)]
pub enum Reply {
    /// The event did not apply, and nothing changed.
    Ignored,
    /// A call began, with this stamp as its start.
    Begun(u64),
    /// A call ended, with this stamp as its end.
    Ended(u64),
    /// The result of a get.
    Got(Result<Answer, RecordFault>),
    /// The result of a put.
    Stored(Result<Pushed, RecordPutFault>),
    /// The result of a removal.
    Removed(Result<(), RecordFault>),
    /// What a flush step did.
    Flushed(Flushed),
    /// How a move began, or that memory was refused.
    MoveBegun(Result<Begin, AllocError>),
    /// How a move ended by a plan, or why it did not.
    Committed(Committed),
    /// Whether a move was given up.
    Aborted(Aborted),
}

/// Replies, one for each event of a list, in its order.
pub type Replies = ItemList<Reply>;

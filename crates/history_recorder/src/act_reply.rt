use crate::reply::Reply;
use recorded_lane::Noted;

/// What an act of a lane gives.
#[derive(Drop)]
pub(crate) struct ActReply {
    /// The reply to the caller.
    pub(crate) reply: Reply,
    /// The call as it was recorded, unless it was refused.
    pub(crate) noted: Option<Noted>,
}

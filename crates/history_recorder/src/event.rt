// What happens in a world of lanes and callers.
use crate::operation::Operation;
use policy_laws::Plan;

/// What happens in a world of lanes and callers, both counted from 0. An event that does not apply is ignored: one of
/// a caller or a lane that is not there, and one of a caller that is doing something else.
#[derive(Drop)]
pub enum Event {
    /// An idle caller begins a call.
    Begin(u16, Operation),
    /// The lane of the key does what the call of a caller asks, which began and was not done yet.
    Act(u16),
    /// The call of a caller ends, which was done and not refused.
    End(u16),
    /// A lane takes a flush step.
    Flush(u32),
    /// A lane begins a move.
    MoveBegin(u32),
    /// A lane commits the move with this number by a plan, whatever the plan says.
    Commit(u32, Plan, u64),
    /// A lane aborts the move with this number.
    Abort(u32, u64),
}

use crate::operation::Operation;

/// What a caller is doing.
#[derive(Drop)]
pub(crate) enum Phase {
    /// Nothing: it may begin a call.
    Idle,
    /// It began a call, with this start, and no lane did it yet.
    Began(u64, Operation),
    /// Its call was done and recorded, in this lane at this position, and has no end yet.
    Acted(u32, usize),
}

// What is known of the write with which a call goes.

/// What is known of the write with which a call goes.
#[derive(Clone, Copy)]
pub(crate) enum Owner {
    /// It is a write or a miss, and goes by itself.
    Itself,
    /// It is a hit that can have read the put at this position alone.
    Put(u32),
    /// It is a hit that can have read several puts.
    Unsure,
    /// It is a hit that can have read no put.
    Nothing,
}

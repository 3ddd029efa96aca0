// What is told of an item that a client did not ask for.

/// What a meta get tells of an item, unasked.
#[derive(Clone, Copy)]
pub struct ItemMarks {
    /// `Z`: another client was told to refresh the item.
    pub is_awaited: bool,
    /// `X`: the item is stale.
    pub is_stale: bool,
    /// `W`: this client has won, and is to refresh the item.
    pub has_won: bool,
}

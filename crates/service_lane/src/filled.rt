use record_pages::Pushed;

/// What a fill did.
#[derive(Clone, Copy, PartialEq, Eq)]
pub enum Filled {
    /// The value was stored, and this became of the pair that was pushed out of memory.
    Stored(Pushed),
    /// A key of the slot was written since the lease was given, or the lease is another key's or another lane's, so nothing was stored.
    Stale,
}

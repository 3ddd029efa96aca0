// A copy that was made.
use memory_cache::Pair;

/// A copy that was made, by what it took.
#[derive(Drop)]
pub(crate) struct NewCopy {
    /// The copy that was pushed out for it, if one was.
    pub(crate) pushed: Option<Pair>,
}

// What a call gave.
use record_pages::{Answer, Pushed};

/// What a call that was made gave.
#[derive(Drop)]
pub enum Response {
    /// The answer to a get.
    Got(Answer),
    /// What became of the pair that memory had no room for.
    Stored(Pushed),
    /// The key has no value.
    Removed,
}

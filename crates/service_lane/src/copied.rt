// What a get did with copies.
use mover::CopyFate;

/// What a get did with the copies that a lane has in memory of objects on flash.
#[derive(Clone, Copy, PartialEq, Eq)]
pub enum Copied {
    /// Nothing.
    Nothing,
    /// A copy answered it.
    Answered,
    /// A copy was made of what was found; and what became of the copy that was pushed out for it, if one was.
    Made(Option<CopyFate>),
}

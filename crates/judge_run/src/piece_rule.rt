// How a text is read by pieces.
use crate::scope::Scope;

/// How a text is read by pieces.
#[derive(Clone, Copy)]
pub(crate) struct PieceRule {
    /// What of its calls is judged.
    pub(crate) scope: Scope,
    /// The length of the window, in the unit of the stamps.
    pub(crate) window: u64,
    /// The fewest calls of a piece, but for the last one.
    pub(crate) least: usize,
}

// A position with its rank.
ghost use Rattle.std.specs.Prelude.{◌≡◌, ◌<◌, Some, length, slice_get};

/// A position, and by what it is sorted.
#[derive(Clone, Copy)]
pub(crate) struct Ranked {
    /// The position.
    pub(crate) position: u32,
    /// Its rank.
    pub(crate) rank: u128,
}

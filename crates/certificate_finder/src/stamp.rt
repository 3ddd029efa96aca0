// The stamps of a call.

/// One of a call's stamps.
#[derive(Clone, Copy)]
pub(crate) enum Stamp {
    /// That at which it started.
    Start,
    /// That at which it ended.
    End,
}

// When a value expires.

/// When a value expires, as a client says it.
#[derive(Clone, Copy, Debug)]
pub enum Exptime {
    /// Never: the client says 0.
    Never,
    /// At a number of seconds from 1 to 2^31 - 1: from now on up to 30 days, since 1970 beyond.
    At(u32),
    /// It has expired already: the client says a negative number.
    Past,
}

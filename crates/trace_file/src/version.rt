// The two forms of a trace.

/// The two forms of a trace, told apart by their magics. Both are read; the timed one is written.
#[derive(Clone, Copy, PartialEq, Eq)]
pub enum Version {
    /// `KGTRACE2`: a put says when it expires, a hit the moment at which it was asked for.
    Timed,
    /// `KGTRACE1`: no call says a time. Its puts never expire, its hits were asked for at moment 0.
    Timeless,
}

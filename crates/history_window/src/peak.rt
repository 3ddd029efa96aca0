// A height from a number on.
ghost use Rattle.std.specs.Prelude.{◌≡◌, ◌<◌, Some, length, slice_get};

/// A height that stands from a number on.
#[derive(Clone, Copy)]
pub(crate) struct Peak {
    /// Where it stands.
    pub(crate) foot: u128,
    /// How high it is.
    pub(crate) height: u128,
}

/// The peak at an index.
pub(crate) fn peak_at(peaks: &[Peak], index: usize) -> Peak
    requires { index < length peaks.now }
    ensures { slice_get peaks.now index ≡ Some result }
{
    peaks[index]
}

// How a text is read.
use crate::share::Share;

/// How a text is read: which of its calls, and what a bad line means.
#[derive(Clone, Copy, PartialEq, Eq)]
pub struct Reading {
    /// The keys whose calls are read. A line whose call is of another key is left out, and does not number its caller.
    pub share: Share,
    /// Whether bad lines are passed over and counted. A line that is too long is a fault even so, and so is one more line, call or
    /// caller than there is room for.
    pub skip_bad: bool,
}

impl Reading {
    /// All calls, and the first bad line is a fault.
    pub const WHOLE: Reading = Reading {
        share: Share::ALL,
        skip_bad: false,
    };
}

// What is reported of a history beside its verdict.

/// What is wanted beside the verdict of a history.
#[derive(Clone, Copy, PartialEq, Eq)]
pub struct Detail {
    /// Whether it is said why the history is rejected, if it is.
    pub explain: bool,
    /// Whether all its faults are listed.
    pub all: bool,
    /// Whether a page is made, also of a history that is not rejected.
    pub page: bool,
}

impl Detail {
    /// The verdict alone.
    pub const NONE: Detail = Detail {
        explain: false,
        all: false,
        page: false,
    };
}

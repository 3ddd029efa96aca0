// What stands before a hit in a certificate.

/// The latest write of a hit's key before it, in the order of a certificate. Each number is a position of the history.
#[derive(Clone, Copy, PartialEq, Eq)]
pub enum Latest {
    /// No write of the key stands before the hit.
    Nothing,
    /// This write, which is not a put of the hit's value.
    Other(u32),
    /// This put of the hit's value, which had expired at the hit's moment.
    Expired(u32),
}

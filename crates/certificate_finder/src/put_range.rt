// Which puts are of one key and value.

/// The indexes between which the puts of a key and a value stand.
#[derive(Clone, Copy)]
pub(crate) struct PutRange {
    /// That of the first one.
    pub(crate) from: usize,
    /// That after the last one.
    pub(crate) upto: usize,
}

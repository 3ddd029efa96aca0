// A value of a history, as the map of latest values keeps it.

/// The bytes of a value, lent by a history, and the moment at which it expires.
#[derive(Clone, Copy)]
pub(crate) struct LentValue<'a> {
    pub(crate) bytes: &'a [u8],
    pub(crate) expires: u64,
}

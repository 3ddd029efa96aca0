use std::alloc::Global;

/// The bytes of a line's key and of its value.
#[derive(Drop)]
pub(crate) struct PairBytes {
    pub(crate) key: Vec<u8>,
    pub(crate) value: Vec<u8>,
}

impl PairBytes {
    /// No bytes. It takes no memory.
    pub(crate) fn new(alloc: Global) -> PairBytes {
        PairBytes {
            key: Vec::new(alloc),
            value: Vec::new(alloc),
        }
    }
}

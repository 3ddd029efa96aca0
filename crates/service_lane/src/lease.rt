// A lease.

/// Leave to fill a key with what is read elsewhere, while nobody writes it: how many writes the slot of the key had seen when
/// the lease was given (Nishtala et al. 2013), and of which key and lane it is.
///
/// It is three numbers and no more: it may be copied, kept, sent or made up. A fill by any numbers does what it promises.
#[repr(C)]
#[derive(Clone, Copy, PartialEq, Eq)]
pub struct Lease {
    /// The writes of the slot until then.
    pub writes: u64,
    /// The hash of the key, by the seed of the lane.
    pub hash: u64,
    /// The number of the lane.
    pub lane: u32,
}

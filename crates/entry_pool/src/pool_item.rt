use record_pages::Prediction;

/// What an index notes of a live record.
#[derive(Clone, Copy, PartialEq, Eq)]
pub struct PoolItem {
    /// The set of its key, below 65536.
    pub set: u32,
    /// The tag of its key.
    pub tag: u16,
    /// The name of its segment, below 512.
    pub segment: u16,
    /// The page of the segment, below 64.
    pub page: u8,
    /// The place on the page, below 64.
    pub slot: u8,
    /// How soon it is predicted to be asked for again.
    pub prediction: Prediction,
}

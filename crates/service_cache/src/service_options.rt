// With what a cache is opened beside its layout.
/// How many shards a cache has, and the numbers of each of its lanes that its layout does not have.
#[derive(Clone, Copy)]
pub struct ServiceOptions {
    /// Groups of as many lanes as the layout has, 1 to `MAX_SHARDS`.
    pub shards: u32,
    /// Slots of each lane for leases, 1 at least. Each takes 8 bytes.
    pub lease_slots: u32,
    /// In each lane one of so many hits on flash has its object brought back into memory, as `ServiceLane::with_layout` does it; 0 brings
    /// none back.
    pub bring_back: u32,
}

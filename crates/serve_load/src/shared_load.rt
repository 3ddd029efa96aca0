// What the callers of a load share.
use load::{Ranks, ServeLoad};
use std::alloc::Global;
use std::sync::atomic::AtomicU64;

/// What the callers of a load share: memory, the load with the ranks of its keys, how many operations they made, and whether the load
/// was halted.
#[derive(Drop)]
pub(crate) struct SharedLoad<'a> {
    pub(crate) alloc: Global,
    pub(crate) load: &'a ServeLoad,
    pub(crate) ranks: &'a Option<Ranks>,
    pub(crate) made: &'a AtomicU64,
    pub(crate) halted: &'a AtomicU64,
}

//! What the texts of all tiers have alike.
use klog::Flushed;
use page_device::{FuseDevice, MemoryDevice};
use record_pages::{Config, Layout, Looked};
use std::alloc::{AllocError, Global};
use std::test::Fail;
use test_devices::{AskedDevice, TextStep};

/// A device in memory that refuses calls, and tells which came.
pub type Tried = AskedDevice<FuseDevice<MemoryDevice<256>>>;

/// When each value that is put expires; it is looked for a moment before, or late, at that moment.
pub const EXPIRES: u64 = 10;

/// What a buffer holds before a value is looked for.
pub const WAS_HELD: &[u8] = b"was held";

/// Which call of a device is refused, from 1, alone or with all later ones; alone with number 0 none is.
#[derive(Clone, Copy)]
pub struct Refused {
    pub call: u32,
    pub for_good: bool,
}

pub const NONE_REFUSED: Refused = Refused {
    call: 0,
    for_good: false,
};

/// The layout of a sound configuration.
pub fn layout(config: &Config) -> Result<Layout, Fail> {
    match config.check() {
        Ok(layout) => Ok(layout),
        Err(_) => Err("a sound configuration".into()),
    }
}

/// The pages of the sets and of the segments.
pub fn pages_of(config: &Config) -> u32 {
    config
        .sets
        .wrapping_add(config.segments.wrapping_mul(config.segment_pages))
}

/// A device of so many pages that refuses these calls.
pub fn device(alloc: Global, pages: u32, refused: Refused) -> Result<Tried, AllocError> {
    let memory = MemoryDevice::new(alloc, pages)?;
    Ok(AskedDevice::new(if refused.for_good {
        FuseDevice::from(memory, refused.call)
    } else {
        FuseDevice::one(memory, refused.call)
    }))
}

/// Tells what a look gave.
pub fn tell_looked(looked: &Looked, step: &mut TextStep<'_>) {
    match looked {
        Looked::Hit(value) => {
            step.tell(b"hit");
            step.tell(value.bytes());
        }
        Looked::Absent => step.tell(b"absent"),
        Looked::Expired => step.tell(b"expired"),
        Looked::Fault => step.tell(b"fault"),
        Looked::Damaged => step.tell(b"damaged"),
    }
}

pub fn name_of_flush(flushed: Flushed) -> &'static [u8] {
    match flushed {
        Flushed::Nothing => b"nothing",
        Flushed::Wrote => b"wrote",
        Flushed::PageLost => b"page lost",
        Flushed::Sealed => b"sealed",
        Flushed::LogFull => b"log full",
    }
}

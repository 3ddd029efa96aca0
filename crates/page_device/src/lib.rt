//! A device of pages: what its reads and writes promise, a device in memory and one that fails on demand. Also what a
//! cache of lanes asks of its devices: that each is large enough, and may be boxed and counted.
#![tactic(auto)]

mod boxed;
mod counted_pages;
mod device;
mod device_counts;
mod device_fault;
mod fits;
mod fuse;
mod memory;

pub use boxed::Boxed;
pub use counted_pages::CountedPages;
pub use device::PageDevice;
pub use device_counts::DeviceCounts;
pub use device_fault::DeviceFault;
pub use fits::is_one_too_small;
pub use fuse::FuseDevice;
pub use memory::MemoryDevice;

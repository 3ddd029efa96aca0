use record_pages::Field;
use thiserror::Error;

/// Why a cache that serves is not opened. They are tested in this order.
#[derive(Clone, Copy, Debug, PartialEq, Eq, Error)]
pub enum OpenServiceFault {
    /// This field of the configuration is out of its range.
    #[error("{0} is out of its range")]
    ConfigFault(Field),
    /// There are no shards, or more than `MAX_SHARDS`.
    #[error("the number of shards is out of its range")]
    Shards,
    /// There is not one device for each lane of each shard.
    #[error("there is not one device for each lane")]
    DeviceCount,
    /// There is to be one slot for leases at least.
    #[error("there is no slot for leases")]
    NoLeaseSlots,
    /// The page size is outside 256 to 4,096 bytes.
    #[error("the page size is out of its range")]
    WrongPage,
    /// A device has fewer pages than the sets and the log need.
    #[error("a device is too small")]
    DeviceTooSmall,
    /// Memory was refused.
    #[error("out of memory")]
    OutOfMemory,
}

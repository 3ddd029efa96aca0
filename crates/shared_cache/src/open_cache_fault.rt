use record_pages::Field;
use thiserror::Error;

/// Why no cache was opened. They are tested in this order, and the devices are dropped with each.
#[derive(Clone, Copy, Debug, PartialEq, Eq, Error)]
pub enum OpenCacheFault {
    /// The first field of the configuration that is out of its range.
    #[error("{0} is out of its range")]
    ConfigFault(Field),
    /// There are to be no callers.
    #[error("there are no callers")]
    NoCallers,
    /// There is not one device for each lane.
    #[error("there is not one device for each lane")]
    DeviceCount,
    /// Pages have less than 256 or more than 4,096 bytes.
    #[error("pages of this size are not served")]
    WrongPage,
    /// A device has too few pages.
    #[error("a device is too small")]
    DeviceTooSmall,
    /// Memory was refused.
    #[error("out of memory")]
    OutOfMemory,
}

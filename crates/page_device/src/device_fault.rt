// The refusal of a device.
use thiserror::Error;

/// A read or a write of a device failed.
#[derive(Clone, Copy, Debug, PartialEq, Eq, Error)]
#[error("the device failed")]
pub struct DeviceFault;

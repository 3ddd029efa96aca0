// What a device was asked.

/// What a device was asked since it was counted first, each number modulo 2^64.
#[derive(Clone, Copy, PartialEq, Eq)]
pub struct DeviceCounts {
    /// Pages that were read.
    pub pages_read: u64,
    /// Reads that failed.
    pub reads_failed: u64,
    /// Pages that were written.
    pub pages_written: u64,
    /// Writes that failed.
    pub writes_failed: u64,
}

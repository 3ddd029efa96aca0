//! The calls of a lane's device.
use std::sync::atomic::{AtomicU32, Ordering};

/// How often pages of a lane were read, and pages of its log and of its sets written.
#[derive(Drop)]
pub struct Counts {
    reads: AtomicU32,
    log_writes: AtomicU32,
    set_writes: AtomicU32,
}

impl Counts {
    /// No call.
    pub fn new() -> Counts {
        Counts {
            reads: AtomicU32::new(0),
            log_writes: AtomicU32::new(0),
            set_writes: AtomicU32::new(0),
        }
    }

    /// Counts a read.
    pub fn count_read(&self) {
        self.reads.fetch_add(1, Ordering::SeqCst);
    }

    /// Counts a write of a page, if the first so many pages are those of the sets.
    pub fn count_write(&self, page: u32, sets: u32) {
        if page < sets {
            self.set_writes.fetch_add(1, Ordering::SeqCst);
        } else {
            self.log_writes.fetch_add(1, Ordering::SeqCst);
        }
    }

    /// How often a page of a set was written.
    pub fn set_writes(&self) -> u32 {
        self.set_writes.load(Ordering::SeqCst)
    }

    /// Whether there was a call of each kind.
    pub fn has_each(&self) -> bool {
        self.reads.load(Ordering::SeqCst) > 0
            && self.log_writes.load(Ordering::SeqCst) > 0
            && self.set_writes() > 0
    }
}

//! The plans of a policy, as they are made.
use std::sync::atomic::{AtomicU32, Ordering};
use std::thread::yield_now;

// How often a thread looks and yields before it goes on.
const TURNS: u32 = 10_000;

/// How many plans were made, how many are made now, and how many were at once.
#[derive(Drop)]
pub struct Plans {
    wanted: u32,
    made: AtomicU32,
    now: AtomicU32,
    most: AtomicU32,
}

impl Plans {
    /// No plan yet. This many are to be made at once.
    pub fn new(wanted: u32) -> Plans {
        Plans {
            wanted,
            made: AtomicU32::new(0),
            now: AtomicU32::new(0),
            most: AtomicU32::new(0),
        }
    }

    /// Begins a plan, and waits until as many were made at once as are wanted, or for this many turns.
    pub fn begin(&self) {
        let now = self.now.fetch_add(1, Ordering::SeqCst).wrapping_add(1);
        self.most.fetch_max(now, Ordering::SeqCst);
        for _ in 0..TURNS {
            if self.are_at_once() {
                break;
            }
            yield_now();
        }
    }

    /// Ends a plan, which was made or not.
    pub fn end(&self, is_made: bool) {
        self.now.fetch_sub(1, Ordering::SeqCst);
        if is_made {
            self.made.fetch_add(1, Ordering::SeqCst);
        }
    }

    /// How many were made.
    pub fn made(&self) -> u32 {
        self.made.load(Ordering::SeqCst)
    }

    /// Whether as many were made at once as are wanted.
    pub fn are_at_once(&self) -> bool {
        self.most.load(Ordering::SeqCst) >= self.wanted
    }
}

//! A gate at which one thread waits until another one opens it.
use std::sync::atomic::{AtomicBool, Ordering};
use std::thread::yield_now;

// How often a thread looks and yields before it gives up.
const TURNS: u32 = 10_000_000;

/// A gate that is shut at first. Who waits at it gives up after ten million turns, so each wait ends; from then on no one
/// passes, so that a call that is made once more fails too.
#[derive(Drop)]
pub struct Gate {
    reached: AtomicBool,
    opened: AtomicBool,
    given_up: AtomicBool,
}

impl Gate {
    /// A gate that is shut, and that no thread has reached.
    pub fn new() -> Gate {
        Gate {
            reached: AtomicBool::new(false),
            opened: AtomicBool::new(false),
            given_up: AtomicBool::new(false),
        }
    }

    /// Reaches the gate and waits until it is open. Says whether it was opened in time, at this wait and all before.
    pub fn pass(&self) -> bool {
        self.reached.store(true, Ordering::SeqCst);
        if !is_raised(&self.opened) {
            self.given_up.store(true, Ordering::SeqCst);
        }
        !self.given_up.load(Ordering::SeqCst)
    }

    /// Waits until a thread has reached the gate. Says whether one has in time.
    pub fn is_reached(&self) -> bool {
        is_raised(&self.reached)
    }

    /// Opens the gate.
    pub fn open(&self) {
        self.opened.store(true, Ordering::SeqCst);
    }
}

// Whether a flag is raised in time.
fn is_raised(flag: &AtomicBool) -> bool {
    for _ in 0..TURNS {
        if flag.load(Ordering::SeqCst) {
            return true;
        }
        yield_now();
    }
    false
}

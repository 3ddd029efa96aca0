//! A policy whose plans are refused, wait for each other or wait at a gate.
ghost use Rattle.rriparoo.specs.Rriparoo.{rriparoo_plan};

use super::gate::Gate;
use policy_laws::{EvictionPolicy, Job, Plan};
use rriparoo::Rriparoo;
use std::alloc::{AllocError, Global};
use std::sync::Arc;
use std::sync::atomic::{AtomicU32, Ordering};
use std::thread::yield_now;

// How often a thread looks and yields before it gives up.
const TURNS: u32 = 10_000_000;

/// Makes the plan of `Rriparoo`, after the first so many plans, which are refused: once so many plans were begun, and the
/// gate, if there is one, is open. If that is not so within ten million turns it makes none, so each wait ends.
#[derive(Drop)]
pub struct TestPolicy {
    gate: Option<Arc<Gate, Global>>,
    refused: u32,
    together: u32,
    begun: AtomicU32,
}

impl TestPolicy {
    /// A policy of which no plan was begun.
    pub fn new(gate: Option<Arc<Gate, Global>>, refused: u32, together: u32) -> TestPolicy {
        TestPolicy {
            gate,
            refused,
            together,
            begun: AtomicU32::new(0),
        }
    }

    // Begins a plan. Says whether it is to be made.
    fn is_due(&self) -> bool {
        self.begun.fetch_add(1, Ordering::SeqCst) >= self.refused && self.meets() && self.passes()
    }

    // Waits until as many plans were begun as are to be. Says whether they were in time.
    fn meets(&self) -> bool {
        for _ in 0..TURNS {
            if self.begun.load(Ordering::SeqCst) >= self.together {
                return true;
            }
            yield_now();
        }
        false
    }

    // Whether there is no gate, or it was opened in time.
    fn passes(&self) -> bool {
        match &self.gate {
            Some(gate) => gate.pass(),
            None => true,
        }
    }
}

impl EvictionPolicy for TestPolicy {
    ghost plan_of = { λ _ job. rriparoo_plan job };

    fn choose(&self, alloc: Global, job: &Job) -> Result<Plan, AllocError> {
        if !self.is_due() {
            return Err(AllocError);
        }
        Rriparoo.choose(alloc, job)
    }
}

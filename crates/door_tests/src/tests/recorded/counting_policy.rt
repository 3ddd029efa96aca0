//! A policy that counts its plans.
ghost use Rattle.rriparoo.specs.Rriparoo.{rriparoo_plan};

use super::plans::Plans;
use policy_laws::{EvictionPolicy, Job, Plan};
use rriparoo::Rriparoo;
use std::alloc::{AllocError, Global};
use std::sync::Arc;

/// Makes the plans of `Rriparoo`, each of which is counted.
#[derive(Drop)]
pub struct CountingPolicy {
    pub plans: Arc<Plans, Global>,
}

impl EvictionPolicy for CountingPolicy {
    ghost plan_of = { λ _ job. rriparoo_plan job };

    fn choose(&self, alloc: Global, job: &Job) -> Result<Plan, AllocError> {
        self.plans.begin();
        let plan = Rriparoo.choose(alloc, job);
        self.plans.end(plan.is_ok());
        plan
    }
}

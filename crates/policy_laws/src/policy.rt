// What a policy of eviction is.
ghost use Rattle.std.specs.Prelude.{◌≡◌, IfOk, List};
ghost use Rattle.policy_laws.specs.declared.job.Job.{Job};
ghost use Rattle.policy_laws.specs.declared.choice.Choice.{Choice};
ghost use Rattle.policy_laws.specs.Laws.{IsLawful};

use crate::choice::Plan;
use crate::job::Job;
use std::alloc::{AllocError, Global};

/// A policy that decides which items of a job are kept.
pub trait EvictionPolicy {
    /// The plan that it makes of a job.
    ghost plan_of: { Self → Job → List Choice };

    /// Its plan of the job, or `AllocError` if memory was refused.
    ///
    /// Each plan names items of the job, none twice, that fit on a set page together, and names all items if
    /// all fit.
    fn choose(&self, alloc: Global, job: &Job) -> Result<Plan, AllocError>
        ensures plan { IfOk result (λ plan. plan ≡ plan_of self.now job.now) }
        ensures lawful { IfOk result (IsLawful job.now) };
}

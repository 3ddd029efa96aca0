// The policy of the sets.
ghost use Rattle.std.specs.Prelude.{◌≡◌, ◌≤◌, All, IfOk};
ghost use Rattle.policy_laws.specs.Laws.{IsLawful};
ghost use Rattle.policy_laws.specs.Rank.{KeepsByRank, candidates_by};
ghost use Rattle.rriparoo.specs.Ageing.{IsWithin};
ghost use Rattle.rriparoo.specs.Rriparoo.{aged_candidate, aged_candidates, rriparoo_plan};

use crate::ageing::{aged_by, farthest_of};
use policy_laws::{Candidate, EvictionPolicy, Item, Job, Plan, Rank, plan_by_rank};
use std::alloc::{AllocError, Global};

/// Keeps the items with the soonest predictions, as they are after ageing (McAllister et al. 2021): of two with
/// one prediction the old one before the fresh one, and then the one with the lower number.
#[derive(Clone, Copy, PartialEq, Eq)]
pub struct Rriparoo;

impl EvictionPolicy for Rriparoo {
    ghost plan_of = { λ _ job. rriparoo_plan job };

    fn choose(&self, alloc: Global, job: &Job) -> Result<Plan, AllocError>
        ensures plan { IfOk result (λ plan. plan ≡ rriparoo_plan job.now) }
        ensures lawful { IfOk result (IsLawful job.now) }
        ensures by_rank { IfOk result (KeepsByRank job.now.room (aged_candidates job.now)) }
    {
        let items = job.items.as_slice();
        let candidates = candidates(alloc, farthest_of(items), items)?;
        plan_by_rank(alloc, job.room, &candidates)
    }
}

// A candidate for each item.
fn candidates(alloc: Global, far: u8, items: &[Item]) -> Result<Vec<Candidate>, AllocError>
    requires range { far ≤ 7 }
    requires bound { All (IsWithin far) items.now }
    ensures { IfOk result (λ all. all.items ≡ candidates_by (aged_candidate far) items.now) }
{
    items
        .iter()
        .enumerate()
        .map(|(number, item)| candidate(far, number, item))
        .collect(alloc)
}

// The candidate for an item.
fn candidate(far: u8, number: usize, item: &Item) -> Candidate
    requires range { far ≤ 7 }
    requires bound { IsWithin far item.now }
    ensures { result ≡ aged_candidate far number item.now }
{
    let prediction = aged_by(far, item);
    Candidate {
        item: number,
        size: item.size,
        prediction,
        rank: Rank {
            distance: prediction.get(),
            late: item.fresh,
        },
    }
}

// First in, first out.
ghost use Rattle.std.specs.Prelude.{◌≡◌, IfOk};
ghost use Rattle.policy_laws.specs.Rank.{KeepsByRank, candidates_by};
ghost use Rattle.policy_laws.specs.Fifo.{fifo_candidate, fifo_plan};
ghost use Rattle.policy_laws.specs.Laws.{IsLawful};

use crate::candidate::Candidate;
use crate::choice::Plan;
use crate::item::Item;
use crate::job::Job;
use crate::policy::EvictionPolicy;
use crate::rank::Rank;
use crate::ranking::plan_by_rank;
use std::alloc::{AllocError, Global};

/// Keeps the fresh items first, by number, then the old ones, by number. Predictions stay as they are.
#[derive(Clone, Copy, PartialEq, Eq)]
pub struct Fifo;

impl EvictionPolicy for Fifo {
    ghost plan_of = { λ _ job. fifo_plan job };

    fn choose(&self, alloc: Global, job: &Job) -> Result<Plan, AllocError>
        ensures plan { IfOk result (λ plan. plan ≡ fifo_plan job.now) }
        ensures lawful { IfOk result (IsLawful job.now) }
        ensures by_rank { IfOk result
            (KeepsByRank job.now.room (candidates_by fifo_candidate job.now.items)) }
    {
        let candidates = candidates(alloc, job.items.as_slice())?;
        plan_by_rank(alloc, job.room, &candidates)
    }
}

// A candidate for each item.
fn candidates(alloc: Global, items: &[Item]) -> Result<Vec<Candidate>, AllocError>
    ensures { IfOk result (λ all. all.items ≡ candidates_by fifo_candidate items.now) }
{
    items
        .iter()
        .enumerate()
        .map(|(number, item)| candidate(number, item))
        .collect(alloc)
}

// The candidate for an item.
fn candidate(number: usize, item: &Item) -> Candidate
    ensures { result ≡ fifo_candidate number item.now }
{
    Candidate {
        item: number,
        size: item.size,
        prediction: item.prediction,
        rank: Rank {
            distance: 0,
            late: !item.fresh,
        },
    }
}

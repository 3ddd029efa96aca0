// The plan that keeps items by rank.
ghost use Rattle.std.specs.Prelude.{◌≡◌, ◌≢◌, IfOk, AllPairs};
ghost use Rattle.policy_laws.specs.Rank.{KeepsByRank, by_rank, plan_by_rank as plan_of};

use crate::candidate::Candidate;
use crate::choice::{Choice, Plan};
use record_pages::MAX_SET_RECORDS;
use std::alloc::{AllocError, Global};

/// The plan that keeps each candidate that fits beside the kept ones that rank before it: its size and theirs
/// are within the room, and there are fewer than `MAX_SET_RECORDS` of them. `AllocError` if memory was refused.
pub fn plan_by_rank(alloc: Global, room: u32, candidates: &[Candidate]) -> Result<Plan, AllocError>
    ensures plan { IfOk result (λ plan. plan ≡ plan_of room candidates.now) }
    ensures by_rank { AllPairs (λ a b. a.item ≢ b.item) candidates.now →
        IfOk result (KeepsByRank room candidates.now) }
{
    let ranked = in_rank_order(alloc, candidates)?;
    let mut plan = Plan::new(alloc);
    let mut left = room;
    for candidate in &ranked {
        if candidate.size <= left && plan.len() < MAX_SET_RECORDS {
            left -= candidate.size;
            plan.push(Choice {
                item: candidate.item,
                prediction: candidate.prediction,
            })?;
        }
    }
    Ok(plan)
}

// The candidates in rank order.
fn in_rank_order(alloc: Global, candidates: &[Candidate]) -> Result<Vec<Candidate>, AllocError>
    ensures { IfOk result (λ ranked. ranked.items ≡ by_rank candidates.now) }
{
    let mut ranked = Vec::new(alloc);
    ranked.extend_from_slice(candidates)?;
    ranked.sort_by(|one, other| one.order(other))?;
    Ok(ranked)
}

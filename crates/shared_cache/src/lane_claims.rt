// A lane's calls, while the passes claim them.
ghost use Rattle.std.specs.Prelude.{◌≡◌, ◌↔◌, ℕ, ◌≤◌, IfOk, IfErr, OnOk, IsTrue, IsFalse, All, map, sum_by, replicate, slice_set, None, Some};
ghost use Rattle.recorded_lane.specs.Points.{noted_in};
ghost use Rattle.certificate_checker.specs.declared.done.Done.{Done};
ghost use Rattle.shared_cache.specs.Finished.{done_of};
ghost use Rattle.shared_cache.specs.Listed.{listed_shown};
ghost use Rattle.shared_cache.specs.Claimed.{Fits, IsEnded, IsFresh, IsTaken, IsUnready, noted_of, weigh_slots};

use crate::comparing::is_recorded_as;
use crate::listed_ref::ListedRef;
use history_recorder::Dones;
use recorded_lane::NotedRef;
use std::alloc::{AllocError, Global};
use std::collections::VecDeque;
use std::marker::Model;
use trace_file::History;

/// The calls that a lane recorded, and the ends of those that were claimed, each at its position.
#[derive(Drop)]
pub(crate) struct LaneClaims {
    recorded: History,
    ends: Vec<Option<u64>>,
}

impl Model for LaneClaims {
    ghost use Rattle.std.specs.Prelude.{map};
    ghost use Rattle.recorded_lane.specs.Points.{noted_in};
    ghost use Rattle.shared_cache.specs.Claimed.{Claims, IsClaims, slots_in};

    ghost Value = { Claims };

    ghost view = { λ c. record {
      calls = map noted_in c.recorded;
      slots = slots_in c.recorded c.ends.items;
    } };

    ghost invariant = { λ c. IsClaims c.recorded c.ends.items };
}

/// Why a lane's calls were not handed out.
#[derive(Drop)]
pub(crate) enum Unready {
    /// Memory was refused.
    OutOfMemory,
    /// No one claimed the call at this position.
    Unclaimed { position: usize },
}

impl LaneClaims {
    /// The calls of a lane, none of them claimed.
    pub(crate) fn new(alloc: Global, recorded: History) -> Result<LaneClaims, AllocError>
        ensures calls { IfOk result (λ c. c.calls ≡ map noted_in recorded) }
        ensures fresh { IfOk result IsFresh }
    {
        let ends = no_ends(alloc, recorded.len())?;
        Ok(LaneClaims { recorded, ends })
    }

    /// Claims a listed call, if it is the one at its position and was not claimed before.
    pub(crate) fn claim(&mut self, listed: &ListedRef<'_>) -> bool
        requires { listed.now.call.point ≤ listed.now.end }
        ensures fits { IsTrue result ↔ Fits self.old (listed_shown listed.now) }
        ensures claimed { IsTrue result → self.new ≡ record self.old {
          slots = slice_set self.old.slots listed.now.position (Some (done_of (listed_shown listed.now)));
        } }
        ensures kept { IsFalse result → self.new ≡ self.old }
    {
        let position = listed.position;
        if position >= self.ends.len() {
            return false;
        }
        let None = self.ends[position] else {
            return false;
        };
        let call = self.recorded.at(position);
        let recorded = NotedRef {
            caller: call.caller,
            start: call.start,
            point: call.end,
            key: call.key,
            act: call.act,
        };
        if !is_recorded_as(&listed.call, &recorded) {
            return false;
        }
        self.ends[position] = Some(listed.end);
        true
    }

    /// The calls with their ends, if each was claimed. `Unclaimed` has the first position that was not.
    pub(crate) fn close(self, alloc: Global) -> Result<Dones, Unready>
        ensures weighed { IfOk result (λ dones. (h : Done → ℕ) → sum_by h dones ≡ weigh_slots h self.slots) }
        ensures calls { IfOk result (λ dones. map noted_of dones ≡ self.calls) }
        ensures ended { IfOk result (All IsEnded) }
        ensures taken { OnOk result (IsTaken self) }
        ensures refused { IfErr result (IsUnready self.slots) }
    {
        let LaneClaims { recorded, ends } = self;
        let Ok(mut all) = Vec::with_capacity(alloc, ends.len()) else {
            return Err(Unready::OutOfMemory);
        };
        let mut ends = VecDeque::from(ends);
        while let Some(end) = ends.pop_front() {
            let Some(end) = end else {
                return Err(Unready::Unclaimed {
                    position: all.len(),
                });
            };
            let Ok(()) = all.push(end) else {
                return Err(Unready::OutOfMemory);
            };
        }
        Ok(Dones::of(recorded, all))
    }
}

/// This many calls with no end.
fn no_ends(alloc: Global, count: usize) -> Result<Vec<Option<u64>>, AllocError>
    ensures { IfOk result (λ ends. ends.items ≡ replicate count None) }
{
    let mut ends = Vec::with_capacity(alloc, count)?;
    for _ in 0..count {
        ends.push(None)?;
    }
    Ok(ends)
}

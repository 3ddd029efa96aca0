// Upkeep of a lane, and its counters.
ghost use Rattle.std.specs.Prelude.{◌≡◌, Some, None};
ghost use Rattle.c_lane.specs.Counting.{counters_of};
ghost use Rattle.c_lane.specs.Tending.{Tends};
ghost use Rattle.kangaroo_c.specs.Telling.{IsFull, OnLanes, page_laws};

use crate::handle::Handle;
use crate::keeping::{put_back, take_lane};
use c_lane::{Counters, Step};
use std::alloc::Global;

/// Does what is due, one step.
#[unsafe(no_mangle)]
pub extern "C" fn kl_upkeep_step(alloc: Global, lane: &mut Handle, to: &mut Step)
    requires { IsFull lane.old.lane }
    ensures { OnLanes (λ old new. Tends page_laws old to.new new) lane.old.lane lane.new.lane }
{
    let mut kept = take_lane(alloc, lane);
    *to = kept.lane.upkeep_step();
    put_back(lane, kept);
}

/// How often a lane did what, and what it holds now. The lane stays as it is.
#[unsafe(no_mangle)]
pub extern "C" fn kl_count(alloc: Global, lane: &mut Handle, to: &mut Counters)
    requires { IsFull lane.old.lane }
    ensures { OnLanes (λ old new. (to.new ≡ counters_of old) × (new ≡ old)) lane.old.lane lane.new.lane }
{
    let kept = take_lane(alloc, lane);
    *to = kept.lane.counters();
    put_back(lane, kept);
}

//! What the workers of a load do beside its callers. The pages of a lane are written by its rounds alone, those of the log
//! by a flush and those of the sets by a move; when a round comes is the schedule's, so a load is run again until all is
//! seen.
ghost use Rattle.std.specs.Prelude.{◌≡◌};

use super::seen::Seen;
use crate::tests::asked_loads::run_by;
use crate::tests::screen::Screen;
use load::Load;
use load_run::make_history;
use shared_cache::FinishFault;
use std::alloc::Global;
use std::sync::Wait;
use std::test::Fail;
use std::thread::Threads;
use std::time::Clock;

/// Lanes so small that what is put is soon on the device, and fewer workers than lanes.
static LANES: &str =
    "k run --lanes 4 --sets 2 --memory 1 --segments 2 --segment-pages 1 --entries 64 --threshold 1 --callers 2 --workers 3 --operations 2000 --gets 40 --keys 50 --value-bytes 2000 --trace no.trace";

/// How often a load is run until all is seen.
const RUNS: u32 = 100;

/// Runs a load. Whether there is a history, and no caller stopped.
fn is_run<R: Threads + Wait + Sync + Clock>(
    rt: &R,
    alloc: Global,
    load: &Load,
    seen: &Seen,
) -> Result<bool, Fail> {
    let (cache, passes) = seen.open(alloc, load, load.callers as u16)?;
    let mut screen = Screen::new(alloc);
    match make_history(rt, alloc, load, cache, passes, &mut screen) {
        Ok(made) => Ok(made.stopped == 0),
        Err(_) => Ok(false),
    }
}

/// Whether it is seen within so many runs that each lane's pages were read and written, those of the log and of the sets,
/// and that as many plans were made at once as are wanted.
fn is_all_seen<R: Threads + Wait + Sync + Clock>(
    rt: &R,
    alloc: Global,
    load: &Load,
    seen: &Seen,
) -> Result<bool, Fail> {
    for _ in 0..RUNS {
        if !is_run(rt, alloc, load, seen)? {
            return Ok(false);
        }
        if seen.has_each_in_each_lane() && seen.are_at_once() {
            return Ok(true);
        }
    }
    Ok(false)
}

#[test]
fn workers_flush_and_move_in_each_lane(rt: HostRuntime) -> Result<(), Fail> {
    let alloc = rt.alloc();
    let load = run_by(alloc, LANES)?;
    let seen = Seen::new(alloc, &*load, 1)?;
    assert!(rt; is_all_seen(&rt, alloc, &*load, &seen)? && seen.is_each_plan_written());
    Ok(())
}

/// Each of the three workers is held in a plan until the others are in one.
#[test]
fn a_load_has_as_many_workers_as_it_says(rt: HostRuntime) -> Result<(), Fail> {
    let alloc = rt.alloc();
    let load = run_by(alloc, LANES)?;
    let seen = Seen::new(alloc, &*load, 3)?;
    assert!(rt; is_all_seen(&rt, alloc, &*load, &seen)?);
    Ok(())
}

/// Why the cache of a run is not finished that has one caller more than the load.
fn fault_of_short<R: Threads + Wait + Sync + Clock>(
    rt: &R,
    alloc: Global,
    load: &Load,
    seen: &Seen,
) -> Result<Option<FinishFault>, Fail> {
    let (cache, mut passes) = seen.open(alloc, load, load.callers as u16 + 1)?;
    let Some(_) = passes.pop() else {
        return Ok(None);
    };
    let mut screen = Screen::new(alloc);
    match make_history(rt, alloc, load, cache, passes, &mut screen) {
        Ok(_) => Ok(None),
        Err(fault) => Ok(Some(fault)),
    }
}

#[test]
fn a_pass_that_is_missing_is_a_finish_fault(rt: HostRuntime) -> Result<(), Fail> {
    let alloc = rt.alloc();
    let load = run_by(alloc, LANES)?;
    let seen = Seen::new(alloc, &*load, 1)?;
    assert!(rt;
        fault_of_short(&rt, alloc, &*load, &seen)? == Some(FinishFault::MissingPass { caller: 2 })
    );
    Ok(())
}

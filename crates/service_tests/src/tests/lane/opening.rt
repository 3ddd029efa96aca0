//! When a lane opens.
use super::*;
use key_hash::RandomSeed;
use mover::OpenFault;
use record_pages::Field;
use service_lane::OpenLaneFault;

/// An empty lane of one set with so many slots for leases, opened once more if memory was refused.
pub fn lane(alloc: Global, slots: u32) -> Result<Box<Lane>, Fail> {
    if let Some(lane) = opened(alloc, slots) {
        return Ok(lane);
    }
    match opened(alloc, slots) {
        Some(lane) => Ok(lane),
        None => Err("a lane".into()),
    }
}

// The same, in memory of its own, over the pages of a set and of two segments.
fn opened(alloc: Global, slots: u32) -> Option<Box<Lane>> {
    let device = MemoryDevice::new(alloc, 3).ok()?;
    let lane = ServiceLane::open(alloc, &ONE_SET, slots, device, RandomSeed::fixed()).ok()?;
    Box::new(alloc, lane).ok()
}

static NO_SETS: Config = Config { sets: 0, ..ONE_SET };

// Why a lane with pages of this size is not opened over so many.
fn fault<const PAGE: usize>(
    alloc: Global,
    config: &Config,
    slots: u32,
    pages: u32,
) -> Result<Option<OpenLaneFault>, Fail> {
    let device = MemoryDevice::<PAGE>::new(alloc, pages)?;
    Ok(ServiceLane::open(alloc, config, slots, device, RandomSeed::fixed()).err())
}

// Each refusal comes when all after it apply too; the last opening is not refused.
#[test]
fn a_lane_is_refused_with_no_slot_or_by_its_store(rt: HostRuntime) -> Result<(), Fail> {
    let alloc = rt.alloc();
    let slots = fault::<128>(alloc, &NO_SETS, 0, 2)?;
    assert!(rt; slots == Some(OpenLaneFault::NoLeaseSlots));
    let sets = fault::<128>(alloc, &NO_SETS, 1, 2)?;
    let field = OpenFault::ConfigFault { field: Field::Sets };
    assert!(rt; sets == Some(OpenLaneFault::Store(field)));
    let narrow = fault::<128>(alloc, &ONE_SET, 1, 2)?;
    assert!(rt; narrow == Some(OpenLaneFault::Store(OpenFault::WrongPage)));
    let small = fault::<256>(alloc, &ONE_SET, 1, 2)?;
    assert!(rt; small == Some(OpenLaneFault::Store(OpenFault::DeviceTooSmall)));
    let opens = fault::<256>(alloc, &ONE_SET, 1, 3)?;
    assert!(rt; opens.is_none());
    Ok(())
}

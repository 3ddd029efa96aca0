//! When a cache is opened.
use super::trials::{Numbers, Outcome, try_over};
use super::*;
use record_pages::Field;
use std::thread::Threads;

/// What a cache is opened with: how many sets a lane has, how many shards, slots for leases and devices there are, and how many pages
/// a device has. And what becomes of the opening.
struct Opening {
    sets: u32,
    shards: u32,
    slots: u32,
    devices: u32,
    pages: u32,
    named: &'static [u8],
}

// What becomes of an opening.
fn outcome_of<R: Threads + Wait + Sync>(
    rt: &R,
    alloc: Global,
    seed: RandomSeed,
    opening: &Opening,
) -> Result<&'static [u8], Fail> {
    let config = Config {
        sets: opening.sets,
        ..SMALL
    };
    let numbers = Numbers {
        config,
        shards: opening.shards,
        slots: opening.slots,
    };
    let devices = so_many(alloc, opening.devices, opening.pages)?;
    let outcome = try_over(rt, alloc, &numbers, devices, seed, b"tell lanes 4")?;
    Ok(name_of(outcome))
}

fn name_of(outcome: Outcome) -> &'static [u8] {
    match outcome {
        Outcome::Kept(_) => b"opened",
        Outcome::Refused(OpenServiceFault::ConfigFault(Field::Sets)) => b"sets",
        Outcome::Refused(OpenServiceFault::ConfigFault(_)) => b"another field",
        Outcome::Refused(OpenServiceFault::Shards) => b"shards",
        Outcome::Refused(OpenServiceFault::DeviceCount) => b"device count",
        Outcome::Refused(OpenServiceFault::NoLeaseSlots) => b"no lease slots",
        Outcome::Refused(OpenServiceFault::WrongPage) => b"wrong page",
        Outcome::Refused(OpenServiceFault::DeviceTooSmall) => b"device too small",
        Outcome::Refused(OpenServiceFault::OutOfMemory) => b"out of memory",
    }
}

// Each refusal while all that are tested after it apply too.
static OPENINGS: [Opening; 8] = [
    Opening {
        sets: 3,
        shards: 2,
        slots: 1,
        devices: 4,
        pages: 5,
        named: b"opened",
    },
    Opening {
        sets: 0,
        shards: 0,
        slots: 0,
        devices: 0,
        pages: 4,
        named: b"sets",
    },
    Opening {
        sets: 3,
        shards: 0,
        slots: 0,
        devices: 1,
        pages: 4,
        named: b"shards",
    },
    Opening {
        sets: 3,
        shards: 1025,
        slots: 0,
        devices: 1,
        pages: 4,
        named: b"shards",
    },
    Opening {
        sets: 3,
        shards: 2,
        slots: 0,
        devices: 2,
        pages: 4,
        named: b"device count",
    },
    Opening {
        sets: 3,
        shards: 2,
        slots: 1,
        devices: 5,
        pages: 5,
        named: b"device count",
    },
    Opening {
        sets: 3,
        shards: 2,
        slots: 0,
        devices: 4,
        pages: 4,
        named: b"no lease slots",
    },
    Opening {
        sets: 3,
        shards: 2,
        slots: 1,
        devices: 4,
        pages: 4,
        named: b"device too small",
    },
];

#[test]
fn each_refusal_of_an_opening_comes_in_its_order(rt: HostRuntime) -> Result<(), Fail> {
    let seed = RandomSeed::draw(&rt)?;
    for opening in &OPENINGS {
        let named = outcome_of(&rt, rt.alloc(), seed, opening)?;
        assert!(rt; named == opening.named);
    }
    Ok(())
}

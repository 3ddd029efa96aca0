//! When a recorded lane, a world and a shared cache are opened. Each refusal comes when all after it apply too.
use super::texts::caller_of;
use history_recorder::{OpenWorldFault, World};
use mover::OpenFault;
use page_device::MemoryDevice;
use record_pages::{Config, Field};
use recorded_lane::RecordedLane;
use rriparoo::Rriparoo;
use shared_cache::{OpenCacheFault, SharedCache};
use std::alloc::Global;
use std::test::Fail;
use test_devices::{Scripted, TextStep, is, run_text};

/// Openings of a lane, a world or a cache over pages of 128 bytes or of 256.
#[derive(Drop)]
struct Openings;

/// What an opening is of: how many devices, of how many pages each, callers, and a configuration.
#[derive(Clone, Copy)]
struct Asked {
    devices: u32,
    pages: u32,
    callers: u16,
    config: Config,
}

impl Scripted for Openings {
    ghost use Rattle.std.specs.Prelude.{⊤};

    ghost can_act = { ⊤ };

    fn act(&mut self, alloc: Global, step: &mut TextStep<'_>) -> Result<(), Fail> {
        let word = step.word();
        let is_narrow = step.small() == 128;
        let asked = Asked {
            devices: step.small(),
            pages: step.small(),
            callers: caller_of(step),
            config: step.config(),
        };
        step.tell(if is_narrow {
            opened::<128>(alloc, word, &asked)?
        } else {
            opened::<256>(alloc, word, &asked)?
        });
        Ok(())
    }
}

// How the opening ends that a word names, over pages of this size. It fails if memory was refused.
fn opened<const PAGE: usize>(
    alloc: Global,
    word: &[u8],
    asked: &Asked,
) -> Result<&'static [u8], Fail> {
    let devices = devices::<PAGE>(alloc, asked)?;
    if is(word, b"lane") {
        return lane_of_last(alloc, asked, devices);
    }
    if is(word, b"world") {
        return Ok(world(alloc, asked, devices));
    }
    if is(word, b"cache") {
        return Ok(cache(alloc, asked, devices));
    }
    Err("an opening".into())
}

fn devices<const PAGE: usize>(
    alloc: Global,
    asked: &Asked,
) -> Result<Vec<MemoryDevice<PAGE>>, Fail> {
    let mut devices = Vec::new(alloc);
    for _ in 0..asked.devices {
        devices.push(MemoryDevice::new(alloc, asked.pages)?)?;
    }
    Ok(devices)
}

// Opens the first lane over the last device.
fn lane_of_last<const PAGE: usize>(
    alloc: Global,
    asked: &Asked,
    devices: Vec<MemoryDevice<PAGE>>,
) -> Result<&'static [u8], Fail> {
    let mut devices = devices;
    match devices.pop() {
        Some(device) => Ok(lane(alloc, &asked.config, device)),
        None => Err("a device".into()),
    }
}

fn lane<const PAGE: usize>(
    alloc: Global,
    config: &Config,
    device: MemoryDevice<PAGE>,
) -> &'static [u8] {
    if config.lanes == 0 {
        return b"no lane";
    }
    match RecordedLane::open(alloc, config, 0, device) {
        Ok(_) => b"opened",
        Err(fault) => name_of_lane_fault(fault),
    }
}

fn name_of_lane_fault(fault: OpenFault) -> &'static [u8] {
    match fault {
        OpenFault::ConfigFault { field } => name_of_field(field),
        OpenFault::WrongPage => b"wrong page",
        OpenFault::DeviceTooSmall => b"device too small",
        OpenFault::OutOfMemory => b"out of memory",
    }
}

fn world<const PAGE: usize>(
    alloc: Global,
    asked: &Asked,
    devices: Vec<MemoryDevice<PAGE>>,
) -> &'static [u8] {
    match World::open(alloc, &asked.config, devices, asked.callers) {
        Ok(_) => b"opened",
        Err(fault) => name_of_world_fault(fault),
    }
}

fn name_of_world_fault(fault: OpenWorldFault) -> &'static [u8] {
    match fault {
        OpenWorldFault::ConfigFault { field } => name_of_field(field),
        OpenWorldFault::NoCallers => b"no callers",
        OpenWorldFault::DeviceCount => b"device count",
        OpenWorldFault::WrongPage => b"wrong page",
        OpenWorldFault::DeviceTooSmall => b"device too small",
        OpenWorldFault::OutOfMemory => b"out of memory",
    }
}

fn cache<const PAGE: usize>(
    alloc: Global,
    asked: &Asked,
    devices: Vec<MemoryDevice<PAGE>>,
) -> &'static [u8] {
    match SharedCache::open(alloc, &asked.config, devices, Rriparoo, asked.callers) {
        Ok(_) => b"opened",
        Err(fault) => name_of_cache_fault(fault),
    }
}

fn name_of_cache_fault(fault: OpenCacheFault) -> &'static [u8] {
    match fault {
        OpenCacheFault::ConfigFault(field) => name_of_field(field),
        OpenCacheFault::NoCallers => b"no callers",
        OpenCacheFault::DeviceCount => b"device count",
        OpenCacheFault::WrongPage => b"wrong page",
        OpenCacheFault::DeviceTooSmall => b"device too small",
        OpenCacheFault::OutOfMemory => b"out of memory",
    }
}

fn name_of_field(field: Field) -> &'static [u8] {
    match field {
        Field::Sets => b"sets",
        _ => b"another field",
    }
}

// The size of a page, how many devices, of how many pages, how many callers, and the configuration. A lane has one device, and no
// callers.
static LANES: &[u8] = b"
    lane 128 1 2 0 1 0 1 2 1 8 1 65536 sets
    lane 128 1 2 0 1 1 1 2 1 8 1 65536 wrong page
    lane 256 1 2 0 1 1 1 2 1 8 1 65536 device too small
    lane 256 1 3 0 1 1 1 2 1 8 1 65536 opened
";

#[test]
fn a_lane_is_opened_over_enough_pages(rt: HostRuntime) -> Result<(), Fail> {
    run_text(rt.alloc(), &mut Openings, LANES)
}

static WORLDS: &[u8] = b"
    world 128 0 3 0 1 0 4 2 1 8 1 65536 sets
    world 128 0 3 0 1 1 4 2 1 8 1 65536 no callers
    world 128 0 3 1 1 1 4 2 1 8 1 65536 device count
    world 128 1 2 1 1 1 4 2 1 8 1 65536 wrong page
    world 256 1 2 1 1 1 4 2 1 8 1 65536 device too small
    world 256 1 3 1 1 1 4 2 1 8 1 65536 opened
";

#[test]
fn a_world_is_opened_over_a_device_a_lane(rt: HostRuntime) -> Result<(), Fail> {
    run_text(rt.alloc(), &mut Openings, WORLDS)
}

static CACHES: &[u8] = b"
    cache 256 2 3 1 2 1 1 2 1 8 1 65536 opened
    cache 128 0 2 0 1 0 1 2 1 8 1 65536 sets
    cache 128 0 2 0 2 1 1 2 1 8 1 65536 no callers
    cache 128 1 2 1 2 1 1 2 1 8 1 65536 device count
    cache 256 3 3 1 2 1 1 2 1 8 1 65536 device count
    cache 128 2 2 1 2 1 1 2 1 8 1 65536 wrong page
    cache 256 2 2 1 2 1 1 2 1 8 1 65536 device too small
";

#[test]
fn a_cache_is_opened_over_a_device_a_lane(rt: HostRuntime) -> Result<(), Fail> {
    run_text(rt.alloc(), &mut Openings, CACHES)
}

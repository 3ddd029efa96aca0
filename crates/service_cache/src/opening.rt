// The parts of a new cache.
ghost use Rattle.std.specs.Prelude.{◌≡◌, ◌≤◌, ◌<◌, ◌^◌, All, IfOk, IsTrue, length};
ghost use Rattle.record_pages.specs.Asked.{layout_pages};
ghost use Rattle.record_pages.specs.Sizes.{IsPageSize};
ghost use Rattle.service_lane.specs.Words.{words_for};
ghost use Rattle.service_cache.specs.Held.{IsNewLane, IsNewSeated};
ghost use Rattle.service_cache.specs.Sorted.{AreAsSaid};

use crate::lane::SeatedLane;
use crate::service_options::ServiceOptions;
use crossbeam_utils::CachePadded;
use deed_book::{BookName, KeyLanes, NamedBook, Register};
use key_hash::RandomSeed;
use page_device::{Boxed, CountedPages, PageDevice};
use record_pages::Layout;
use service_lane::{ServiceLane, words_of};
use std::alloc::{AllocError, Global};
use std::collections::VecDeque;
use std::sync::Mutex;

/// A lane of a cache, with its register, over a device that counts what it is asked.
pub(crate) type Lane<D, const PAGE: usize, L, J> = SeatedLane<CountedPages<Boxed<D>>, PAGE, L, J>;

/// A lane under its lock, on cache lines of its own.
pub(crate) type Locked<D, const PAGE: usize, L, J> = Mutex<CachePadded<Lane<D, PAGE, L, J>>>;

/// An empty lane over each device, with the next register of the book: the lanes have the numbers from 0 in the order of the devices.
pub(crate) fn lanes_over<D: PageDevice<PAGE>, const PAGE: usize, L: KeyLanes, J: BookName>(
    alloc: Global,
    layout: &Layout,
    options: &ServiceOptions,
    devices: Vec<D>,
    seed: RandomSeed,
    mut book: NamedBook<L, J>,
) -> Result<Vec<Lane<D, PAGE, L, J>>, AllocError>
    requires first { book ≡ 0 }
    requires one_each { length devices.items ≡ L.lanes }
    requires few { length devices.items < 2 ^ 32 }
    requires page_size { IsPageSize PAGE }
    requires slots { 1 ≤ options.now.lease_slots }
    requires room { All (λ d. layout_pages layout.now ≤ D.page_count d) devices.items }
    requires honest { AreAsSaid L.is_honest D.honest devices.items }
    ensures one_each { IfOk result (λ lanes. length lanes.items ≡ length devices.items) }
    ensures new { IfOk result (λ lanes. All (IsNewSeated layout.now options.now seed) lanes.items) }
{
    let count = devices.len();
    let mut lanes = Vec::with_capacity(alloc, count)?;
    let mut devices = VecDeque::from(devices);
    for _ in 0..count {
        let Some(device) = devices.pop_front() else {
            unreachable!()
        };
        let register = book.register();
        let Ok(lane) = seated_over(alloc, layout, options, device, seed, register) else {
            return Err(AllocError);
        };
        lanes.push(lane)?;
    }
    Ok(lanes)
}

// An empty lane over a device, with this register. The cache's seed gives what the lane and its
// generator of words are seeded with, by the number of the lane in the book.
fn seated_over<D: PageDevice<PAGE>, const PAGE: usize, L: KeyLanes, J: BookName>(
    alloc: Global,
    layout: &Layout,
    options: &ServiceOptions,
    device: D,
    seed: RandomSeed,
    register: Register<L, J>,
) -> Result<Lane<D, PAGE, L, J>, AllocError>
    requires page_size { IsPageSize PAGE }
    requires slots { 1 ≤ options.now.lease_slots }
    requires room { layout_pages layout.now ≤ D.page_count device }
    requires few { L.lanes < 2 ^ 32 }
    requires honest { IsTrue (L.is_honest register.number) → IsTrue (D.honest device) }
    ensures serving { IfOk result (λ seated. IsNewLane layout.now options.now.lease_slots
        options.now.bring_back seed register.number device seated.serving) }
    ensures register { IfOk result (λ seated. seated.register ≡ register) }
    ensures words { IfOk result (λ seated. seated.words ≡ words_for seed register.number) }
{
    let number = register.number() as u32;
    let counted = CountedPages::new(Boxed::new(alloc, device)?);
    let lane_seed = seed.derive(number);
    let lane = ServiceLane::with_layout(
        alloc,
        layout,
        options.lease_slots,
        options.bring_back,
        number,
        counted,
        lane_seed,
    )?;
    Ok(SeatedLane::new(lane, register, words_of(seed, number)))
}

/// Each of these lanes under a lock of its own.
pub(crate) fn under_locks<D: PageDevice<PAGE>, const PAGE: usize, L: KeyLanes, J: BookName>(
    alloc: Global,
    seated: Vec<Lane<D, PAGE, L, J>>,
) -> Result<Vec<Locked<D, PAGE, L, J>>, AllocError>
    ensures { IfOk result (λ lanes. length lanes.items ≡ length seated.items) }
{
    let count = seated.len();
    let mut lanes = Vec::with_capacity(alloc, count)?;
    let mut seated = VecDeque::from(seated);
    for _ in 0..count {
        let Some(lane) = seated.pop_front() else {
            unreachable!()
        };
        lanes.push(Mutex::new(CachePadded::new(lane)))?;
    }
    Ok(lanes)
}

// A cache that serves.
ghost use Rattle.std.specs.Prelude.{◌≡◌, [], IfOk, IfErr, OnOk, length};
ghost use Rattle.record_pages.specs.Asked.{HasNumbersOf};
ghost use Rattle.service_cache.specs.Serving.{CanOpen, CanServe, RefusesLanes, RefusesOpening, lanes_of, layout_needs};
ghost use Rattle.service_cache.specs.Sorted.{AreAsSaid, SortsBy};

use crate::open_service_fault::OpenServiceFault;
use crate::opening::{Locked, lanes_over, under_locks};
use crate::service_options::ServiceOptions;
use cache_sizes::MAX_SHARDS;
use deed_book::{BookName, KeyLanes, NamedBook, Seat};
use key_hash::RandomSeed;
use page_device::{PageDevice, is_one_too_small};
use policy_laws::EvictionPolicy;
use record_pages::{Config, Layout};
use service_lane::hash_by;
use std::alloc::Global;
use std::marker::Model;

mod calls;
mod tending;

/// A cache that serves: its lanes, each under a lock of its own with its register in the book of the cache, and the policy of
/// their moves. Nothing is recorded, so it may serve for years.
///
/// It has one shard or more, each with the lanes of the layout. A key has its lane among all of these by a hash of its own,
/// with the seed: so its lane is a function of the key, and nobody who does not know the seed can pick keys for one lane.
///
/// A seat of another cache is of another type, since `J` names the book of this one.
#[derive(Drop)]
pub struct ServiceCache<
    D: PageDevice<PAGE>,
    P: EvictionPolicy + Drop,
    const PAGE: usize,
    L: KeyLanes,
    J: BookName,
> {
    layout: Layout,
    shards: u32,
    seed: RandomSeed,
    policy: P,
    // Each lane stands on cache lines of its own, apart from its lock and the other lanes.
    lanes: Vec<Locked<D, PAGE, L, J>>,
    start: Seat<L, J>,
}

impl<
    D: PageDevice<PAGE>,
    P: EvictionPolicy + Drop,
    const PAGE: usize,
    L: KeyLanes,
    J: BookName,
> Model for ServiceCache<D, P, PAGE, L, J> {
    ghost use Rattle.std.specs.Prelude.{◌≡◌, [], length};
    ghost use Rattle.service_cache.specs.Serving.{Shape, IsServing};
    ghost use Rattle.service_cache.specs.Sorted.{SortsBy};

    ghost Value = { Shape };

    ghost view = { λ c. record { layout = c.layout; shards = c.shards } };

    ghost invariant = { λ c. IsServing (record { layout = c.layout; shards = c.shards })
        (length c.lanes.items) × SortsBy L.lanes L.lane_of c.seed (length c.lanes.items) × (c.start ≡ []) };
}

impl<
    D: PageDevice<PAGE>,
    P: EvictionPolicy + Drop,
    const PAGE: usize,
    L: KeyLanes,
    J: BookName,
> ServiceCache<D, P, PAGE, L, J> {
    /// A cache of shards of this configuration, with empty lanes, one over each device, whose moves go by this policy, and a book with
    /// no write. Its refusals are tested in the order of `OpenServiceFault`; devices, policy and book are dropped with each.
    ///
    /// The seed decides in which lane a key is, and all else of a lane that is random comes from it. Draw it at random.
    pub fn open(
        alloc: Global,
        config: &Config,
        options: &ServiceOptions,
        devices: Vec<D>,
        policy: P,
        seed: RandomSeed,
        book: NamedBook<L, J>,
    ) -> Result<Self, OpenServiceFault>
        requires first { book ≡ 0 }
        requires sorted { SortsBy L.lanes L.lane_of seed (length devices.items) }
        requires honest { AreAsSaid L.is_honest D.honest devices.items }
        ensures numbers { IfOk result (λ cache. HasNumbersOf cache.layout config.now
            × (cache.shards ≡ options.now.shards)) }
        ensures serves { OnOk result (CanOpen PAGE D.page_count config.now options.now.shards
            options.now.lease_slots devices.items) }
        ensures refused { IfErr result (RefusesOpening PAGE D.page_count config.now options.now.shards
            options.now.lease_slots devices.items) }
    {
        let layout = match config.check() {
            Ok(layout) => layout,
            Err(fault) => return Err(OpenServiceFault::ConfigFault(fault.field)),
        };
        match Self::with_layout(alloc, &layout, options, devices, policy, seed, book) {
            Ok(cache) => Ok(cache),
            Err(fault) => Err(fault),
        }
    }

    /// A cache as `open` makes it, of numbers that were checked already.
    pub fn with_layout(
        alloc: Global,
        layout: &Layout,
        options: &ServiceOptions,
        devices: Vec<D>,
        policy: P,
        seed: RandomSeed,
        book: NamedBook<L, J>,
    ) -> Result<Self, OpenServiceFault>
        requires first { book ≡ 0 }
        requires sorted { SortsBy L.lanes L.lane_of seed (length devices.items) }
        requires honest { AreAsSaid L.is_honest D.honest devices.items }
        ensures numbers { IfOk result (λ cache. cache ≡ record {
          layout = layout.now;
          shards = options.now.shards;
        }) }
        ensures serves { OnOk result (CanServe PAGE D.page_count (layout_needs layout.now)
            options.now.shards options.now.lease_slots devices.items) }
        ensures refused { IfErr result (RefusesLanes PAGE D.page_count (layout_needs layout.now)
            options.now.shards options.now.lease_slots devices.items) }
    {
        match check_lanes(layout, options, devices.as_slice()) {
            Ok(()) => {
                let start = book.seat();
                let Ok(seated) = lanes_over(alloc, layout, options, devices, seed, book) else {
                    return Err(OpenServiceFault::OutOfMemory);
                };
                match under_locks(alloc, seated) {
                    Ok(lanes) => Ok(ServiceCache {
                        layout: *layout,
                        shards: options.shards,
                        seed,
                        policy,
                        lanes,
                        start,
                    }),
                    Err(_) => Err(OpenServiceFault::OutOfMemory),
                }
            }
            Err(fault) => Err(fault),
        }
    }

    /// How many lanes it has, those of all shards.
    pub fn lanes(&self) -> u32
        ensures { result ≡ lanes_of self.now }
    {
        self.shards * self.layout.lanes
    }

    /// The numbers of each shard.
    pub fn layout(&self) -> Layout
        ensures { result ≡ self.now.layout }
    {
        self.layout
    }

    /// A seat that has seen nothing.
    pub fn seat(&self) -> Seat<L, J>
        ensures { result ≡ [] }
    {
        self.start.again()
    }

    // The number of the lane of a key, and its lock.
    fn lane(&self, key: &[u8]) -> (usize, &Locked<D, PAGE, L, J>)
        ensures { result.0 ≡ L.lane_of key.now }
    {
        let number = scaled((hash_by(self.seed, key) >> 32) as u32, self.lanes()) as usize;
        (number, &self.lanes[number])
    }
}

ghost use Rattle.std.specs.Prelude.{◌≤◌, ◌<◌, ◌^◌};
ghost use Rattle.service_cache.specs.Sorted.{scaled};

// Tests what is asked of shards and of the devices of their lanes, in the order of `OpenServiceFault`.
fn check_lanes<D: PageDevice<PAGE>, const PAGE: usize>(
    layout: &Layout,
    options: &ServiceOptions,
    devices: &[D],
) -> Result<(), OpenServiceFault>
    ensures serves { OnOk result (CanServe PAGE D.page_count (layout_needs layout.now)
        options.now.shards options.now.lease_slots devices.now) }
    ensures few { OnOk result (length devices.now < 2 ^ 32) }
    ensures some { OnOk result (1 ≤ length devices.now) }
    ensures refused { IfErr result (RefusesLanes PAGE D.page_count (layout_needs layout.now)
        options.now.shards options.now.lease_slots devices.now) }
{
    let shards = options.shards;
    if shards == 0 || shards > MAX_SHARDS {
        return Err(OpenServiceFault::Shards);
    }
    if devices.len() != (shards * layout.lanes) as usize {
        return Err(OpenServiceFault::DeviceCount);
    }
    if options.lease_slots == 0 {
        return Err(OpenServiceFault::NoLeaseSlots);
    }
    if PAGE < 256 || PAGE > 4096 {
        return Err(OpenServiceFault::WrongPage);
    }
    if is_one_too_small(layout.pages(), devices) {
        return Err(OpenServiceFault::DeviceTooSmall);
    }
    Ok(())
}

// A number scaled to one below this count, without a division (Lemire 2019).
fn scaled(number: u32, count: u32) -> u32
    requires { 1 ≤ count }
    ensures scaled { result ≡ scaled number count }
    ensures below { result < count }
{
    (u64::from(count) * u64::from(number) >> 32) as u32
}

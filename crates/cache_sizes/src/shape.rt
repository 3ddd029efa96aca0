// The shape of a cache: what it comes from, what it takes and what it holds.
ghost use Rattle.std.specs.Prelude.{◌≡◌, ◌+◌, ◌*◌, ◌≤◌, ◌^◌, None, Some, IfOk, MatchResult};
ghost use Rattle.record_pages.specs.declared.limits.TheConstants.{MAX_LANES, MAX_SETS, MIN_SEGMENTS, MAX_SEGMENTS};
ghost use Rattle.record_pages.specs.declared.limits.TheConstants.{MAX_SEGMENT_PAGES, MAX_ENTRIES, MAX_MEMORY};
ghost use Rattle.cache_sizes.specs.declared.limits.TheConstants.{MAX_SHARDS, MAX_LEASE_SLOTS};

use crate::estimates::{
    ESTIMATED_ENTRY_BYTES, ESTIMATED_LANE_BYTES, ESTIMATED_LEASE_SLOT_BYTES,
    ESTIMATED_OBJECT_BYTES, ESTIMATED_SEGMENT_PAGE_BYTES, ESTIMATED_SET_BYTES,
};
use crate::lane_pages::LanePages;
use crate::lanes::{lanes_wanted, shard_lanes_of, shards_of};
use crate::limits::{MAX_ALL_LANES, MAX_OBJECT_BYTES, PAGE_BYTES};
use crate::memory::{entries_of, lease_slots_of};
use crate::proportions::FULL_PERCENT;
use crate::records::{log_records, set_records};
use crate::size_fault::SizeFault;
use crate::wanted::Wanted;
use record_pages::{Config, MAX_MEMORY};

/// The shape of a cache: how many parts of each kind it has. `of` works one out; a caller that has the numbers may
/// write one down.
#[derive(Clone, Copy, PartialEq, Eq)]
pub struct Shape {
    /// Groups of lanes, 1 to 1,024.
    pub shards: u32,
    /// Lanes of a shard, 1 to 16: each has a file, and a lock of its own.
    pub lanes: u32,
    /// Sets of a lane, 1 to 65,536, a page each. Odd is best.
    pub sets: u32,
    /// Segments of a lane's log, 2 to 256.
    pub segments: u32,
    /// Pages of a segment, 1 to 64.
    pub segment_pages: u32,
    /// Objects of a lane that the index of its log has entries for, 1 to 1,048,576.
    pub entries: u32,
    /// Objects of a lane in memory, 1 to 1,048,576.
    pub memory: u32,
    /// Slots of a lane for leases, 1 to 1,048,576.
    pub lease_slots: u32,
    ghost shards_range: { (1 ≤ shards) × (shards ≤ MAX_SHARDS) },
    ghost lanes_range: { (1 ≤ lanes) × (lanes ≤ MAX_LANES) },
    ghost sets_range: { (1 ≤ sets) × (sets ≤ MAX_SETS) },
    ghost segments_range: { (MIN_SEGMENTS ≤ segments) × (segments ≤ MAX_SEGMENTS) },
    ghost segment_pages_range: { (1 ≤ segment_pages) × (segment_pages ≤ MAX_SEGMENT_PAGES) },
    ghost entries_range: { (1 ≤ entries) × (entries ≤ MAX_ENTRIES) },
    ghost memory_range: { (1 ≤ memory) × (memory ≤ MAX_MEMORY) },
    ghost lease_slots_range: { (1 ≤ lease_slots) × (lease_slots ≤ MAX_LEASE_SLOTS) },
}

impl Shape {
    ghost use Rattle.record_pages.specs.Table.{first_faulty};
    ghost use Rattle.cache_sizes.specs.Faults.{first_size_fault};
    ghost use Rattle.cache_sizes.specs.Memory.{lane_bytes_of, layer_bytes_of, memory_of};
    ghost use Rattle.cache_sizes.specs.Shapes.{all_lanes_of, file_pages_of, flash_pages_of, flash_bytes_of};
    ghost use Rattle.cache_sizes.specs.Shapes.{possible_bytes, fixed_bytes_of, memory_bytes_of};
    ghost use Rattle.cache_sizes.specs.Shapes.{objects_in_memory_of, objects_in_logs_of, objects_in_sets_of, objects_of};
    ghost use Rattle.cache_sizes.specs.Shapes.{config_of, AreInRange, IsAccepted, HasPartsFor, IsShapeFor};
    ghost use Rattle.cache_sizes.specs.Wanting.{IsInRange, pages_of};

    /// The shape for what is wanted, or the first reason why there is none.
    pub fn of(wanted: &Wanted) -> Result<Shape, SizeFault>
        ensures outcome { MatchResult result
            (λ shape. (first_size_fault wanted.now ≡ None) × IsShapeFor wanted.now shape)
            (λ fault. first_size_fault wanted.now ≡ Some fault) }
        ensures flash { IfOk result (λ shape. flash_pages_of shape ≤ pages_of wanted.now) }
        ensures memory { IfOk result (λ shape.
            memory_bytes_of shape wanted.now.object_bytes ≤ wanted.now.memory_bytes) }
        ensures accepted { IfOk result IsAccepted }
    {
        if let Some(fault) = wanted.range_fault() {
            return Err(fault);
        }
        let mut shape = Shape::least(wanted);
        if wanted.memory_bytes < shape.memory_bytes(wanted.object_bytes) {
            return Err(SizeFault::MemoryTooSmall);
        }
        shape.memory = shape.memory_for(wanted.memory_bytes, wanted.object_bytes);
        Ok(shape)
    }

    // The shape for what is wanted, but with one object of each lane in memory.
    fn least(wanted: &Wanted) -> Shape
        requires { IsInRange wanted.now }
        ensures parts { HasPartsFor wanted.now result }
        ensures one { result.memory ≡ 1 }
        ensures flash { flash_pages_of result ≤ pages_of wanted.now }
    {
        let pages = wanted.flash_bytes / PAGE_BYTES;
        let all_lanes = lanes_wanted(pages, wanted.threads);
        let shards = shards_of(all_lanes);
        let lanes = shard_lanes_of(all_lanes);
        let lane = LanePages::of(pages / u64::from(shards * lanes));
        Shape {
            shards,
            lanes,
            sets: lane.sets,
            segments: lane.segments,
            segment_pages: lane.segment_pages,
            entries: entries_of(lane.segments, lane.segment_pages, wanted.object_bytes),
            memory: 1,
            lease_slots: lease_slots_of(lane.sets),
        }
    }

    // The objects of each lane in memory for which so much of it is enough.
    #[tactic(auto, unfolding(crate::specs::Memory::memory_of))]
    fn memory_for(&self, memory_bytes: u64, object_bytes: u32) -> u32
        requires object { object_bytes ≤ MAX_OBJECT_BYTES }
        requires enough { fixed_bytes_of self.now
            + layer_bytes_of (all_lanes_of self.now) object_bytes ≤ memory_bytes }
        ensures memory { result ≡ memory_of memory_bytes (fixed_bytes_of self.now)
            (all_lanes_of self.now) object_bytes }
        ensures least { 1 ≤ result }
        ensures most { result ≤ MAX_MEMORY }
        ensures fits { fixed_bytes_of self.now
            + result * layer_bytes_of (all_lanes_of self.now) object_bytes ≤ memory_bytes }
    {
        let room = memory_bytes - self.fixed_bytes();
        let memory = room / self.layer_bytes(object_bytes);
        memory.min(u64::from(MAX_MEMORY)) as u32
    }

    /// The configuration of each shard. Which objects move from the log and which enter it is no question of size.
    pub fn config(&self, threshold: u32, admit: u32) -> Config
        ensures numbers { result ≡ config_of self.now threshold admit }
        ensures accepted { AreInRange threshold admit → first_faulty result ≡ None }
    {
        Config {
            lanes: self.lanes,
            sets: self.sets,
            memory: self.memory,
            segments: self.segments,
            segment_pages: self.segment_pages,
            entries: self.entries,
            threshold,
            admit,
        }
    }

    /// Lanes of all shards.
    pub fn all_lanes(&self) -> u32
        ensures lanes { result ≡ all_lanes_of self.now }
        ensures least { 1 ≤ result }
        ensures most { result ≤ MAX_ALL_LANES }
    {
        self.shards * self.lanes
    }

    /// Pages of a lane's file: those of its sets and of its log.
    pub fn file_pages(&self) -> u64
        ensures pages { result ≡ file_pages_of self.now }
        ensures most { result ≤ MAX_SETS + MAX_SEGMENTS * MAX_SEGMENT_PAGES }
    {
        u64::from(self.sets) + u64::from(self.segments * self.segment_pages)
    }

    /// Bytes of all files.
    pub fn flash_bytes(&self) -> u64
        ensures bytes { result ≡ flash_bytes_of self.now }
        ensures most { result ≤ 2 ^ 43 }
    {
        u64::from(self.all_lanes()) * self.file_pages() * PAGE_BYTES
    }

    // Bytes of memory that a lane takes from the start.
    #[tactic(auto, unfolding(crate::specs::Memory::lane_bytes_of))]
    fn lane_bytes(&self) -> u64
        ensures bytes { let shape = self.now in result
            ≡ lane_bytes_of shape.sets shape.entries shape.segment_pages shape.lease_slots }
        ensures most { result ≤ 2 ^ 30 }
    {
        ESTIMATED_SET_BYTES * u64::from(self.sets)
            + ESTIMATED_ENTRY_BYTES * u64::from(self.entries)
            + ESTIMATED_SEGMENT_PAGE_BYTES * u64::from(self.segment_pages)
            + ESTIMATED_LEASE_SLOT_BYTES * u64::from(self.lease_slots)
            + ESTIMATED_LANE_BYTES
    }

    // Bytes of memory that an object of this many bytes takes, one in each lane.
    #[tactic(auto, unfolding(crate::specs::Memory::layer_bytes_of))]
    fn layer_bytes(&self, object_bytes: u32) -> u64
        ensures bytes { result
            ≡ layer_bytes_of (all_lanes_of self.now) (possible_bytes object_bytes) }
        ensures least { 1 ≤ result }
        ensures most { result ≤ 2 ^ 26 }
    {
        let object_bytes = object_bytes.min(MAX_OBJECT_BYTES);
        u64::from(self.all_lanes()) * (u64::from(object_bytes) + ESTIMATED_OBJECT_BYTES)
    }

    /// Bytes of memory that all lanes take from the start: an estimate.
    pub fn fixed_bytes(&self) -> u64
        ensures bytes { result ≡ fixed_bytes_of self.now }
        ensures most { result ≤ 2 ^ 44 }
    {
        u64::from(self.all_lanes()) * self.lane_bytes()
    }

    /// Bytes of memory that all lanes take once they are full of objects of this many bytes: an estimate. More bytes
    /// than `MAX_OBJECT_BYTES` count as those, here and below.
    pub fn memory_bytes(&self, object_bytes: u32) -> u64
        ensures bytes { result ≡ memory_bytes_of self.now object_bytes }
        ensures most { result ≤ 2 ^ 47 }
    {
        self.fixed_bytes() + u64::from(self.memory) * self.layer_bytes(object_bytes)
    }

    /// Objects that fit in memory.
    pub fn objects_in_memory(&self) -> u64
        ensures objects { result ≡ objects_in_memory_of self.now }
        ensures most { result ≤ 2 ^ 34 }
    {
        u64::from(self.all_lanes()) * u64::from(self.memory)
    }

    /// Objects of this many bytes that fit in the logs.
    pub fn objects_in_logs(&self, object_bytes: u32) -> u64
        ensures objects { result ≡ objects_in_logs_of self.now object_bytes }
        ensures most { result ≤ 2 ^ 34 }
    {
        let pages = u64::from(self.segments * self.segment_pages);
        let records = pages * log_records(object_bytes.min(MAX_OBJECT_BYTES));
        u64::from(self.all_lanes()) * records.min(u64::from(self.entries))
    }

    /// Objects of this many bytes that fit in the sets before many of them find theirs full.
    pub fn objects_in_sets(&self, object_bytes: u32) -> u64
        ensures objects { result ≡ objects_in_sets_of self.now object_bytes }
        ensures most { result ≤ 2 ^ 37 }
    {
        let sets = u64::from(self.all_lanes()) * u64::from(self.sets);
        FULL_PERCENT * (sets * set_records(object_bytes.min(MAX_OBJECT_BYTES))) / 100
    }

    /// Objects of this many bytes that fit in all, in memory, in the logs and in the sets.
    pub fn objects(&self, object_bytes: u32) -> u64
        ensures objects { result ≡ objects_of self.now object_bytes }
        ensures most { result ≤ 2 ^ 38 }
    {
        self.objects_in_memory()
            + self.objects_in_logs(object_bytes)
            + self.objects_in_sets(object_bytes)
    }
}

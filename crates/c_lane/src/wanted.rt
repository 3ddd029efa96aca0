// What a user knows of a cache that is wanted, as C has it.
ghost use Rattle.std.specs.Prelude.{◌≡◌, None, Some, MatchResult};

use crate::lane_shape::LaneShape;
use cache_sizes::{Shape, SizeFault, Wanted};

/// What a user knows of a cache that is wanted.
#[repr(C)]
#[derive(Clone, Copy)]
pub struct WantedSizes {
    /// Bytes of flash, at most.
    pub flash_bytes: u64,
    /// Bytes of memory, at most.
    pub memory_bytes: u64,
    /// Bytes of a typical object, of its key and its value.
    pub object_bytes: u32,
    /// Threads that call at once.
    pub threads: u32,
}

impl WantedSizes {
    ghost use Rattle.cache_sizes.specs.Faults.{first_size_fault};
    ghost use Rattle.c_lane.specs.Shapes.{wanted_of, IsWrittenFor};

    /// Writes the shape for what is wanted, but `threshold`, `admit` and `bring_back`, which stay. The first reason why there is none leaves
    /// all as it was.
    pub fn write_shape(&self, to: &mut LaneShape) -> Result<(), SizeFault>
        ensures { MatchResult result
            (λ _. (first_size_fault (wanted_of self.now) ≡ None) × IsWrittenFor (wanted_of self.now) to.old to.new)
            (λ fault. (first_size_fault (wanted_of self.now) ≡ Some fault) × (to.new ≡ to.old)) }
    {
        let shape = Shape::of(&Wanted {
            flash_bytes: self.flash_bytes,
            memory_bytes: self.memory_bytes,
            object_bytes: self.object_bytes,
            threads: self.threads,
        })?;
        *to = LaneShape {
            shards: shape.shards,
            lanes: shape.lanes,
            sets: shape.sets,
            memory: shape.memory,
            segments: shape.segments,
            segment_pages: shape.segment_pages,
            entries: shape.entries,
            lease_slots: shape.lease_slots,
            threshold: to.threshold,
            admit: to.admit,
            bring_back: to.bring_back,
        };
        Ok(())
    }
}

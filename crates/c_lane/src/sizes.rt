// What a cache of a shape takes and holds.
ghost use Rattle.std.specs.Prelude.{◌≡◌};
ghost use Rattle.c_lane.specs.Shapes.{number_of_size_fault, sizes_for, no_sizes};

use crate::lane_shape::LaneShape;
use cache_sizes::{Shape, SizeFault};

/// What a cache of a shape takes and holds. Bytes of memory are estimates.
#[repr(C)]
#[derive(Clone, Copy)]
pub struct Sizes {
    /// Bytes of all files.
    pub file_bytes: u64,
    /// Pages of 4,096 bytes of a lane.
    pub lane_pages: u64,
    /// Bytes of memory from the start.
    pub memory_fixed: u64,
    /// Bytes of memory once that is full of typical objects.
    pub memory_full: u64,
    /// Typical objects that fit in memory.
    pub memory_objects: u64,
    /// Those that fit in the logs.
    pub log_objects: u64,
    /// Those that fit in the sets.
    pub set_objects: u64,
}

impl Sizes {
    ghost use Rattle.c_lane.specs.Shapes.{SizesOf};

    /// What a cache of this shape takes and holds, with typical objects of this many bytes; all zeros if a number of the shape
    /// is out of its range.
    pub fn of(shape: &LaneShape, object_bytes: u32) -> Sizes
        ensures { SizesOf shape.now object_bytes result }
    {
        match shape.check() {
            Ok(layout) => Sizes::of_parts(&shape.parts(&layout), object_bytes),
            Err(_) => Sizes::none(),
        }
    }

    // The same of parts that are in their ranges.
    fn of_parts(shape: &Shape, object_bytes: u32) -> Sizes
        ensures { result ≡ sizes_for shape.now object_bytes }
    {
        Sizes {
            file_bytes: shape.flash_bytes(),
            lane_pages: shape.file_pages(),
            memory_fixed: shape.fixed_bytes(),
            memory_full: shape.memory_bytes(object_bytes),
            memory_objects: shape.objects_in_memory(),
            log_objects: shape.objects_in_logs(object_bytes),
            set_objects: shape.objects_in_sets(object_bytes),
        }
    }

    // All zeros.
    fn none() -> Sizes
        ensures { result ≡ no_sizes }
    {
        Sizes {
            file_bytes: 0,
            lane_pages: 0,
            memory_fixed: 0,
            memory_full: 0,
            memory_objects: 0,
            log_objects: 0,
            set_objects: 0,
        }
    }
}

/// The number by which C knows why no cache has the sizes that are wanted, from 1.
pub fn number_of_fault(fault: SizeFault) -> u32
    ensures { result ≡ number_of_size_fault fault }
{
    match fault {
        SizeFault::FlashTooSmall => 1,
        SizeFault::FlashTooLarge => 2,
        SizeFault::NoObjectBytes => 3,
        SizeFault::ObjectTooLarge => 4,
        SizeFault::NoThreads => 5,
        SizeFault::TooManyThreads => 6,
        SizeFault::MemoryTooSmall => 7,
    }
}

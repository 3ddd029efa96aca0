// Sizes both ways, and where a key is.
ghost use Rattle.std.specs.Prelude.{◌≡◌, ◌≤◌, None, Some};
ghost use Rattle.c_lane.specs.Placing.{place_in};
ghost use Rattle.c_lane.specs.Shapes.{SizesOf, completed};
ghost use Rattle.kangaroo_c.specs.Sizing.{number_of_faulty, ShapeIsWritten};

use c_lane::{KeyPlace, LaneShape, Seed, Sizes, WantedSizes, number_of_fault, place_of};

/// Where a key is, among this many lanes.
#[unsafe(no_mangle)]
pub extern "C" fn kl_place_of(seed: &Seed, lanes: u32, key: &[u8], to: &mut KeyPlace)
    requires { 1 ≤ lanes }
    ensures { to.new ≡ place_in seed.now lanes key.now }
{
    *to = place_of(seed, lanes, key);
}

/// Writes the shape for what is wanted, and answers 0; or the number of the first reason why there is none, and leaves it as it was.
#[unsafe(no_mangle)]
pub extern "C" fn kl_shape_of(wanted: &WantedSizes, to: &mut LaneShape) -> u32
    ensures { ShapeIsWritten wanted.now to.old result to.new }
{
    match wanted.write_shape(to) {
        Ok(()) => 0,
        Err(fault) => number_of_fault(fault),
    }
}

/// Gives a shape slots for leases and a threshold, if it has 0: that for objects of this many bytes. The number of the first field
/// that is out of its range then, or 0.
#[unsafe(no_mangle)]
pub extern "C" fn kl_complete_shape(shape: &mut LaneShape, object_bytes: u32) -> u32
    ensures completed { shape.new ≡ completed object_bytes shape.old }
    ensures number { result ≡ number_of_faulty shape.new }
{
    shape.complete(object_bytes);
    match shape.check() {
        Ok(_) => 0,
        Err(field) => field.number(),
    }
}

/// What a cache of a shape takes and holds: all zeros if a field is out of its range.
#[unsafe(no_mangle)]
pub extern "C" fn kl_sizes_of(shape: &LaneShape, object_bytes: u32, to: &mut Sizes)
    ensures { SizesOf shape.now object_bytes to.new }
{
    *to = Sizes::of(shape, object_bytes);
}

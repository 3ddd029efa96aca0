// A lane is taken out of its place for a call, and put back.
ghost use Rattle.std.specs.Prelude.{◌≡◌, Some, None, MatchOption};
ghost use Rattle.record_pages.specs.Bounded.{IsKey};
ghost use Rattle.kangaroo_c.specs.Telling.{IsFull, IsForeign, IsHere};

use crate::device::MappedDevice;
use crate::handle::Handle;
use crate::kept_lane::KeptLane;
use crate::lent_pages::LentPages;
use crate::parts::Parts;
use c_lane::{CLane, LaneHome, LaneShape, Seed, Status};
use std::alloc::Global;
use std::mem::replace;
use turn_register::LastTurn;

// The lane of a place, which is empty then.
pub(crate) fn take_lane(alloc: Global, place: &mut Handle) -> Box<KeptLane>
    requires { IsFull place.old.lane }
    ensures value { place.old.lane ≡ Some result.value }
    ensures left { place.new.lane ≡ None }
{
    replace(place, Handle::none(alloc)).into_parts().into_box()
}

// The lane of a place, which is empty then, if a key is not another lane's; else the place is as it was.
pub(crate) fn take_lane_of(alloc: Global, place: &mut Handle, key: &[u8]) -> Option<Box<KeptLane>>
    requires { IsFull place.old.lane }
    ensures { MatchOption result
        (IsForeign place.old.lane key.now × IsKey key.now × (place.new.lane ≡ place.old.lane))
        (λ kept. IsHere place.old.lane key.now × (place.old.lane ≡ Some kept.value) × (place.new.lane ≡ None)) }
{
    let kept = take_lane(alloc, place);
    if kept.home.is_foreign(key) {
        put_back(place, kept);
        return None;
    }
    Some(kept)
}

// Puts a lane into a place.
pub(crate) fn put_back(place: &mut Handle, lane: Box<KeptLane>)
    ensures { place.new.lane ≡ Some lane.value }
{
    *place = Handle::of_parts(Parts::of(lane));
}

ghost use Rattle.kangaroo_c.specs.Telling.{IsPut};

// Puts a lane into memory of its own, and that into a place; `NoMemory` if it was refused.
pub(crate) fn put_in(
    alloc: Global,
    lane: CLane<MappedDevice<4096>>,
    home: LaneHome,
    place: &mut Handle,
) -> Status
    ensures { IsPut lane home place.old.lane result place.new.lane }
{
    let last = LastTurn::none();
    match Box::new(alloc, KeptLane { lane, home, last }) {
        Ok(kept) => {
            put_back(place, kept);
            Status::Done
        }
        Err(_) => Status::NoMemory,
    }
}

ghost use Rattle.kangaroo_c.specs.Telling.{OpensBy};

// Opens a lane over pages that are lent, in an empty place.
pub(crate) fn open_in(
    alloc: Global,
    shape: &LaneShape,
    seed: &Seed,
    number: u32,
    pages: LentPages,
    place: &mut Handle,
) -> Status
    requires { place.old.lane ≡ None }
    ensures { OpensBy shape.now seed.now number pages.pages result place.new.lane }
{
    let device = MappedDevice::new(pages.into_lent());
    match CLane::open(alloc, shape, seed, number, device) {
        Ok(lane) => put_in(alloc, lane, LaneHome::of(shape, seed, number), place),
        Err(status) => status,
    }
}

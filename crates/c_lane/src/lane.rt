// A lane for callers in C.
ghost use Rattle.std.specs.Prelude.{◌≡◌, IfOk, IfErr, OnOk};
ghost use Rattle.c_lane.specs.Opening.{Opens, CanOpen, RefusesOpening};

use crate::counters::Counters;
use crate::lane_shape::LaneShape;
use crate::seed::Seed;
use crate::status::Status;
use page_device::{Boxed, CountedPages, PageDevice};
use rand_pcg::Lcg64Xsh32;
use record_pages::{Layout, ValueBuffer};
use service_lane::{ServiceLane, words_of};
use std::alloc::{AllocError, Global};
use std::marker::Model;

mod get;
mod put;
mod session;
mod tend;

/// A lane of a cache, with the generator of its words of admission.
///
/// What it promises is said of the list of all that it was asked and answered since it was opened, which proofs alone see: a hit
/// is its key's latest value in that list not since removed, and live at the moment that the get brought.
#[derive(Drop)]
pub struct CLane<D: PageDevice<4096>> {
    // The device lies in memory of its own, so that the lane's size is known whatever the device.
    lane: ServiceLane<CountedPages<Boxed<D>>, 4096>,
    words: Lcg64Xsh32,
    // Room for the value of a hit, which is made once: a get writes as many bytes of it as the value has.
    found: ValueBuffer,
}

impl<D: PageDevice<4096>> Model for CLane<D> {
    ghost use Rattle.std.specs.Coded.{codes};
    ghost use Rattle.kset.specs.Sets.{sets_code};
    ghost use Rattle.c_lane.specs.Lane.{LaneState};

    ghost Value = { LaneState D };

    ghost coded = { Prim.hlevel (codes, sets_code) };

    ghost view = { λ l. record { serving = l.lane; words = l.words } };
}

impl<D: PageDevice<4096>> CLane<D> {
    ghost use Rattle.c_lane.specs.Counting.{counters_of};

    /// An empty lane over a device. `WrongOptions` comes if the shape has a number out of its range or the device has too few
    /// pages for it, `NoMemory` if memory was refused; the device is dropped with both.
    ///
    /// The number is the lane's among those of the cache: it and the seed start the generator of its words, and seed its table and its slots.
    pub fn open(
        alloc: Global,
        shape: &LaneShape,
        seed: &Seed,
        number: u32,
        device: D,
    ) -> Result<Self, Status>
        ensures opened { IfOk result (Opens shape.now seed.now number device) }
        ensures can { OnOk result (CanOpen shape.now (D.page_count device)) }
        ensures refused { IfErr result (RefusesOpening shape.now (D.page_count device)) }
    {
        let Some(layout) = fitting(shape, device.pages()) else {
            return Err(Status::WrongOptions);
        };
        let seed = seed.random();
        let words = words_of(seed, number);
        let Ok(boxed) = Boxed::new(alloc, device) else {
            return Err(Status::NoMemory);
        };
        let counted = CountedPages::new(boxed);
        let table_seed = seed.derive(number);
        let back = shape.bring_back;
        match ServiceLane::with_layout(
            alloc,
            &layout,
            shape.lease_slots,
            back,
            number,
            counted,
            table_seed,
        ) {
            Ok(lane) => Ok(CLane {
                lane,
                words,
                found: ValueBuffer::empty(),
            }),
            Err(AllocError) => Err(Status::NoMemory),
        }
    }

    /// How often it did what since it was opened, and what it holds now.
    pub fn counters(&self) -> Counters
        ensures { result ≡ counters_of self.now }
    {
        Counters::of(
            &self.lane.counts(),
            &self.lane.device().counts(),
            &self.lane.log_usage(),
            self.lane.memory_len(),
        )
    }
}

ghost use Rattle.std.specs.Prelude.{MatchOption};
ghost use Rattle.c_lane.specs.Shapes.{IsLayoutOf};

// The layout of each shard of a shape whose numbers are in their ranges, if this many pages are enough for a lane.
fn fitting(shape: &LaneShape, pages: u32) -> Option<Layout>
    ensures { MatchOption result (¬ CanOpen shape.now pages)
        (λ layout. CanOpen shape.now pages × IsLayoutOf shape.now layout) }
{
    let Ok(layout) = shape.check() else {
        return None;
    };
    if pages < layout.pages() {
        return None;
    }
    Some(layout)
}

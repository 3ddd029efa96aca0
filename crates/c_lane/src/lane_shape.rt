// The shape of a cache as C has it.
ghost use Rattle.std.specs.Prelude.{◌≡◌, Some, MatchResult};

use crate::shape_field::ShapeField;
use cache_sizes::{MAX_LEASE_SLOTS, MAX_SHARDS, Shape, lease_slots_of, threshold_of};
use record_pages::{Config, Field, Layout};

/// The shape of a cache, the two numbers that say what enters and leaves its log, and the one that says what comes back into memory.
#[repr(C)]
#[derive(Clone, Copy)]
pub struct LaneShape {
    /// Groups of lanes, 1 to 1,024.
    pub shards: u32,
    /// Lanes of a shard, 1 to 16.
    pub lanes: u32,
    /// Sets of a lane, 1 to 65,536, a page each.
    pub sets: u32,
    /// Objects of a lane in memory, 1 to 1,048,576.
    pub memory: u32,
    /// Segments of a lane's log, 2 to 256.
    pub segments: u32,
    /// Pages of a segment, 1 to 64.
    pub segment_pages: u32,
    /// Objects of a lane that the index of its log has entries for, 1 to 1,048,576.
    pub entries: u32,
    /// Slots of a lane for leases, 1 to 1,048,576.
    pub lease_slots: u32,
    /// This many objects of a set move to it together, 1 to 32.
    pub threshold: u32,
    /// How many of 65,536 objects that leave memory enter the log, 0 to 65,536.
    pub admit: u32,
    /// One of so many hits on flash has its object brought back into memory; 0 brings none back.
    pub bring_back: u32,
}

impl LaneShape {
    ghost use Rattle.c_lane.specs.Shapes.{config_of, first_faulty_field, HasPartsOf, IsLayoutOf, completed};

    /// Gives the shape slots for leases, if it has 0: as many as sizes would give a lane of its sets. And gives it a threshold,
    /// if it has 0: that for objects of this many bytes.
    pub fn complete(&mut self, object_bytes: u32)
        ensures { self.new ≡ completed object_bytes self.old }
    {
        if self.lease_slots == 0 {
            self.lease_slots = lease_slots_of(self.sets);
        }
        if self.threshold == 0 {
            self.threshold = threshold_of(object_bytes);
        }
    }

    // The configuration of each shard.
    fn config(&self) -> Config
        ensures { result ≡ config_of self.now }
    {
        Config {
            lanes: self.lanes,
            sets: self.sets,
            memory: self.memory,
            segments: self.segments,
            segment_pages: self.segment_pages,
            entries: self.entries,
            threshold: self.threshold,
            admit: self.admit,
        }
    }

    /// The layout of each shard, or the first field that is out of its range.
    pub fn check(&self) -> Result<Layout, ShapeField>
        ensures { MatchResult result (IsLayoutOf self.now)
            (λ field. first_faulty_field self.now ≡ Some field) }
    {
        if self.shards < 1 || self.shards > MAX_SHARDS {
            return Err(ShapeField::Shards);
        }
        let has_slots = self.lease_slots >= 1 && self.lease_slots <= MAX_LEASE_SLOTS;
        match self.config().check() {
            Ok(layout) if has_slots => Ok(layout),
            Err(fault) if has_slots || is_before_slots(fault.field) => {
                Err(ShapeField::Config(fault.field))
            }
            _ => Err(ShapeField::LeaseSlots),
        }
    }

    // The shape, as sizes have it, whose layout was found.
    pub(crate) fn parts(&self, layout: &Layout) -> Shape
        requires { IsLayoutOf self.now layout.now }
        ensures { HasPartsOf result self.now }
    {
        Shape {
            shards: self.shards,
            lanes: layout.lanes,
            sets: layout.sets,
            segments: layout.segments,
            segment_pages: layout.segment_pages,
            entries: layout.entries,
            memory: layout.memory,
            lease_slots: self.lease_slots,
        }
    }
}

ghost use Rattle.c_lane.specs.Shapes.{is_before_slots};

// Whether a field of a configuration stands before the slots for leases.
fn is_before_slots(field: Field) -> bool
    ensures { result ≡ is_before_slots field }
{
    match field {
        Field::Threshold | Field::Admit => false,
        _ => true,
    }
}

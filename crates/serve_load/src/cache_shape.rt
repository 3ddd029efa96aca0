ghost use Rattle.std.specs.Prelude.{◌≡◌, ◌≤◌, ◌*◌, ◌+◌, IfErr, IfOk};
ghost use Rattle.serve_load.specs.Wanting.{RefusesSize};

use crate::sized::sized_shape;
use cache_sizes::SizeFault;
use load::ServeLoad;
use record_pages::Layout;

/// The numbers of the cache of a load.
#[derive(Clone, Copy, PartialEq, Eq)]
pub struct CacheShape {
    /// The numbers of each shard.
    pub layout: Layout,
    /// Groups of as many lanes, 1 to 1,024.
    pub shards: u32,
    /// Slots of each lane for leases, 1 to 1,048,576: one if the load has none, which nobody uses.
    pub lease_slots: u32,
    /// One of so many hits on flash has its object brought back into memory, in each lane; 0 brings none back.
    pub bring_back: u32,
    ghost shards_range: { (1 ≤ shards) × (shards ≤ 1024) },
    ghost lease_slots_range: { (1 ≤ lease_slots) × (lease_slots ≤ 1048576) },
}

impl CacheShape {
    ghost use Rattle.serve_load.specs.Shapes.{IsShapeOf};

    /// The shape of a load: that of its numbers, or the one for its size, if it has one. With a size, memory that is not given
    /// is an eighth of it, an object has as many bytes as a key and a value of the load, and the threads are the callers.
    ///
    /// The refusals are those of `Shape::of`.
    pub fn of(load: &ServeLoad) -> Result<CacheShape, SizeFault>
        ensures formed { IfOk result (λ shape. IsShapeOf load.now load.now.size shape) }
        ensures refused { IfErr result (λ fault. RefusesSize load.now load.now.size fault) }
    {
        let lease_slots = load.leases.max(1);
        let bring_back = load.bring_back;
        match load.size {
            None => Ok(CacheShape {
                layout: load.layout,
                shards: load.shards,
                lease_slots,
                bring_back,
            }),
            Some(size) => match sized_shape(load, size) {
                Ok(sized) => Ok(CacheShape {
                    layout: sized.layout,
                    shards: sized.shards,
                    lease_slots,
                    bring_back,
                }),
                Err(fault) => Err(fault),
            },
        }
    }

    /// Lanes of all shards.
    pub fn lanes(&self) -> u32
        ensures { result ≡ self.now.shards * self.now.layout.lanes }
    {
        self.shards * self.layout.lanes
    }

    /// Pages of each lane's device.
    pub fn pages(&self) -> u32
        ensures { result ≡ self.now.layout.sets
            + self.now.layout.segments * self.now.layout.segment_pages }
    {
        self.layout.pages()
    }
}

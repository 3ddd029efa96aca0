// The numbers of a cache of a size.
ghost use Rattle.std.specs.Prelude.{◌≡◌, ◌≤◌, IfErr, IfOk, Some};
ghost use Rattle.cache_sizes.specs.Faults.{first_size_fault};
ghost use Rattle.serve_load.specs.Wanting.{IsSizedFor, wanted_by};

use crate::objects::KEY_BYTES;
use cache_sizes::{Shape, SizeFault, Wanted};
use load::{ServeLoad, SizeSetting};
use record_pages::Layout;

/// The numbers of a cache of a size.
#[derive(Clone, Copy)]
pub(crate) struct SizedShape {
    pub(crate) layout: Layout,
    pub(crate) shards: u32,
    ghost shards_range: { (1 ≤ shards) × (shards ≤ 1024) },
}

/// The numbers of a cache for a load of this many bytes of flash.
pub(crate) fn sized_shape(load: &ServeLoad, size: u64) -> Result<SizedShape, SizeFault>
    ensures sized { IfOk result (λ sized. IsSizedFor (wanted_by load.now size)
        load.now.layout sized.layout sized.shards) }
    ensures refused { IfErr result (λ fault.
        first_size_fault (wanted_by load.now size) ≡ Some fault) }
{
    let shape = Shape::of(&wanted(load, size))?;
    match shape
        .config(load.layout.threshold, load.layout.admit)
        .check()
    {
        Ok(layout) => Ok(SizedShape {
            layout,
            shards: shape.shards,
        }),
        Err(_) => unreachable!(),
    }
}

/// The least memory that a cache of a size takes, of a load whose other numbers such a cache can have.
pub(crate) fn least_memory(load: &ServeLoad, size: u64) -> Option<u64> {
    let mut plenty = wanted(load, size);
    plenty.memory_bytes = SizeSetting::MOST;
    let Ok(mut shape) = Shape::of(&plenty) else {
        return None;
    };
    shape.memory = 1;
    Some(shape.memory_bytes(plenty.object_bytes))
}

/// What a load wants of a cache of a size.
fn wanted(load: &ServeLoad, size: u64) -> Wanted
    ensures { result ≡ wanted_by load.now size }
{
    Wanted {
        flash_bytes: size,
        memory_bytes: load.memory_bytes.unwrap_or(size / 8),
        object_bytes: load.value_bytes + KEY_BYTES,
        threads: load.callers,
    }
}

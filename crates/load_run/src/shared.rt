// The cache that a run's threads share.
ghost use Rattle.std.specs.Prelude.{◌≡◌, All, IfOk, length};
ghost use Rattle.load_run.specs.Devices.{AreDevicesFor};

use load::Load;
use page_device::PageDevice;
use rriparoo::Rriparoo;
use shared_cache::{Pass, SharedCache};
use std::alloc::{AllocError, Global};

/// The page size of a run, in bytes.
pub const PAGE: usize = 4096;

/// The cache of a run over such devices.
pub type RunCache<D> = SharedCache<D, Rriparoo, PAGE>;

/// A cache for a load over its devices, with a pass for each caller.
pub fn open<D: PageDevice<PAGE>>(
    alloc: Global,
    load: &Load,
    devices: Vec<D>,
) -> Result<(RunCache<D>, Vec<Pass>), AllocError>
    requires { AreDevicesFor D.page_count load.now.layout devices.items }
    ensures layout { IfOk result (λ opened. opened.0.layout ≡ load.now.layout) }
    ensures ties { IfOk result (λ opened. All (λ p. p.sight.clock ≡ opened.0.clock) opened.1.items) }
    ensures passes { IfOk result (λ opened. length opened.1.items ≡ load.now.callers) }
{
    SharedCache::with_layout(alloc, &load.layout, devices, Rriparoo, load.callers as u16)
}

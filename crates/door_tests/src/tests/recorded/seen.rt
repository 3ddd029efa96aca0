//! What is seen of the runs of a load from below.
ghost use Rattle.std.specs.Prelude.{◌≡◌, ◌<◌, All, IfOk, length};
ghost use Rattle.record_pages.specs.Asked.{layout_pages};

use super::counting_device::CountingDevice;
use super::counting_policy::CountingPolicy;
use super::counts::Counts;
use super::plans::Plans;
use load::Load;
use page_device::MemoryDevice;
use record_pages::Layout;
use shared_cache::{Pass, SharedCache};
use std::alloc::Global;
use std::sync::Arc;
use std::test::Fail;

/// A cache over devices that count their calls, with a policy that counts its plans.
pub type CountedCache = SharedCache<CountingDevice, CountingPolicy, 4096>;

/// The calls of the devices, in the order of their lanes, and the plans of the policy.
#[derive(Drop)]
pub struct Seen {
    lanes: Vec<Arc<Counts, Global>>,
    plans: Arc<Plans, Global>,
}

impl Seen {
    /// Nothing yet of a load. This many plans are to be made at once.
    pub fn new(alloc: Global, load: &Load, wanted: u32) -> Result<Seen, Fail> {
        let mut lanes = Vec::new(alloc);
        for _ in 0..load.layout.lanes {
            lanes.push(Arc::new(alloc, Counts::new())?)?;
        }
        Ok(Seen {
            lanes,
            plans: Arc::new(alloc, Plans::new(wanted))?,
        })
    }

    /// A new cache for the load of which all is seen, and a pass for each of so many callers, of which there is one at least.
    pub fn open(
        &self,
        alloc: Global,
        load: &Load,
        callers: u16,
    ) -> Result<(CountedCache, Vec<Pass>), Fail>
        requires { 0 < callers }
        ensures lanes { IfOk result (λ o. o.0.layout.lanes ≡ load.now.layout.lanes) }
        ensures ties { IfOk result (λ o. All (λ p. p.sight.clock ≡ o.0.clock) o.1.items) }
        ensures callers { IfOk result (λ o. length o.1.items ≡ callers) }
    {
        let devices = self.devices(alloc, &load.layout)?;
        let policy = CountingPolicy {
            plans: Arc::try_clone(&self.plans)?,
        };
        Ok(CountedCache::with_layout(alloc, &load.layout, devices, policy, callers)?)
    }

    /// A device for each lane, with the layout's pages.
    fn devices(&self, alloc: Global, layout: &Layout) -> Result<Vec<CountingDevice>, Fail>
        ensures each { IfOk result (λ devices. length devices.items ≡ layout.now.lanes) }
        ensures room { IfOk result (λ devices.
            All (λ d. length d.pages ≡ layout_pages layout.now) devices.items) }
    {
        let pages = layout.pages();
        let mut devices = Vec::new(alloc);
        for lane in 0..layout.lanes {
            let counts = self.lanes.get(lane as usize).ok_or("a lane")?;
            devices.push(CountingDevice {
                pages: MemoryDevice::new(alloc, pages)?,
                sets: layout.sets,
                counts: Arc::try_clone(counts)?,
            })?;
        }
        Ok(devices)
    }

    /// Whether each lane had a call of each kind.
    pub fn has_each_in_each_lane(&self) -> bool {
        for counts in &self.lanes {
            if !counts.has_each() {
                return false;
            }
        }
        true
    }

    /// Whether pages of sets were written as often as plans were made.
    pub fn is_each_plan_written(&self) -> bool {
        let mut written = 0u32;
        for counts in &self.lanes {
            written = written.wrapping_add(counts.set_writes());
        }
        written == self.plans.made()
    }

    /// Whether as many plans were made at once as are wanted.
    pub fn are_at_once(&self) -> bool {
        self.plans.are_at_once()
    }
}

//! The cache of each test: what it is made of, and how it is opened.
ghost use Rattle.std.specs.Prelude.{◌≡◌, All, IfOk};

use super::gate::Gate;
use super::test_device::TestDevice;
use super::test_policy::TestPolicy;
use record_pages::Config;
use shared_cache::{Pass, SharedCache};
use std::alloc::Global;
use std::sync::Arc;
use std::test::Fail;
use test_devices::StaleDevice;

/// A cache whose devices and policy do what a test asks for.
pub type Cache = SharedCache<TestDevice, TestPolicy, 256>;

/// What a cache is made of.
#[derive(Clone, Copy)]
pub struct Setup {
    /// The numbers of its lanes.
    pub config: Config,
    /// How many callers there are.
    pub callers: u16,
    /// Whether the reads of lane 0 wait at the gate.
    pub holds_reads: bool,
    /// Whether the plans do.
    pub holds_plans: bool,
    /// How many plans are refused.
    pub refused: u32,
    /// How many plans are to be begun before one is made.
    pub together: u32,
    /// After how many writes the first page of a device goes back to what it was before the last.
    pub stale: u32,
}

/// A cache of two callers, of which nothing is special: one lane of one set, with one object in memory and two segments of one page.
pub const PLAIN: Setup = Setup {
    config: Config {
        lanes: 1,
        sets: 1,
        memory: 1,
        segments: 2,
        segment_pages: 1,
        entries: 8,
        threshold: 1,
        admit: 65536,
    },
    callers: 2,
    holds_reads: false,
    holds_plans: false,
    refused: 0,
    together: 0,
    stale: u32::MAX,
};

/// An empty cache and its passes.
pub fn opened(
    alloc: Global,
    setup: &Setup,
    gate: &Arc<Gate, Global>,
) -> Result<(Box<Cache>, Vec<Pass>), Fail>
    ensures ties { IfOk result (λ o. All (λ p. p.sight.clock ≡ o.0.value.clock) o.1.items) }
    ensures lanes { IfOk result (λ o. o.0.value.layout.lanes ≡ setup.now.config.lanes) }
{
    let devices = devices_of(alloc, setup, gate)?;
    let policy = policy_of(setup, gate)?;
    let (cache, passes) = Cache::open(alloc, &setup.config, devices, policy, setup.callers)?;
    Ok((Box::new(alloc, cache)?, passes))
}

// The policy of its moves.
fn policy_of(setup: &Setup, gate: &Arc<Gate, Global>) -> Result<TestPolicy, Fail> {
    let gate = clone_if(setup.holds_plans, gate)?;
    Ok(TestPolicy::new(gate, setup.refused, setup.together))
}

// A device for each lane, told apart by their numbers.
fn devices_of(
    alloc: Global,
    setup: &Setup,
    gate: &Arc<Gate, Global>,
) -> Result<Vec<TestDevice>, Fail> {
    let mut devices = Vec::new(alloc);
    for number in 0..setup.config.lanes {
        devices.push(device(alloc, setup, gate, number)?)?;
    }
    Ok(devices)
}

// The gate, if something waits there.
fn clone_if(is_held: bool, gate: &Arc<Gate, Global>) -> Result<Option<Arc<Gate, Global>>, Fail> {
    if is_held {
        return Ok(Some(Arc::try_clone(gate)?));
    }
    Ok(None)
}

// A lane's device, with the pages of its sets and segments.
fn device(
    alloc: Global,
    setup: &Setup,
    gate: &Arc<Gate, Global>,
    number: u32,
) -> Result<TestDevice, Fail> {
    let config = setup.config;
    let pages = config
        .sets
        .wrapping_add(config.segments.wrapping_mul(config.segment_pages));
    let gate = clone_if(setup.holds_reads && number == 0, gate)?;
    Ok(TestDevice {
        pages: StaleDevice::new(alloc, pages, 0, setup.stale)?,
        gate,
        number,
        sets: setup.config.sets,
        log_writes: 0,
        set_writes: 0,
        failures: 0,
    })
}

//! What users of a lane rely on, of any lane and any device.
ghost use Rattle.std.specs.Prelude.{◌≡◌, ◌≢◌, ◌+◌, ◌%◌, ◌^◌, ℕ, false, Ok, IfOk, IsTrue, Some};
ghost use Rattle.record_pages.specs.Expiry.{is_live};
ghost use Rattle.record_pages.specs.declared.tier.Tier.{Tier};
ghost use Rattle.record_pages.specs.declared.tier.Tier.TheVariants.{Memory, Log, Set};
ghost use Rattle.klog.specs.declared.flushed.Flushed.{Flushed};
ghost use Rattle.service_lane.specs.Counters.{number};
ghost use Rattle.service_lane.specs.declared.counter.Counter.TheVariants as counter;
ghost use Rattle.service_lane.specs.Upkeep.{IsPageDone};
ghost use Rattle.service_lane.specs.declared.upkept.Upkept.{Upkept};
ghost use Rattle.mover.specs.declared.answer_kind.AnswerKind.TheVariants.{Hit};
ghost use Rattle.service_lane.specs.declared.filled.Filled.{Filled};

use certificate_checker::latest_is_current;
use mover::AnswerKind;
use page_device::PageDevice;
use policy_laws::EvictionPolicy;
use record_pages::{Key, KeyFault, PutFault, Value, ValueBuffer};
use service_lane::{Filled, ServiceLane, UpkeepStep};

/// A hit after a put of its key has the value that was put: in memory whatever the device does, on flash if it gives back
/// what was written.
pub fn a_hit_is_what_was_put<D: PageDevice<PAGE>, const PAGE: usize>(
    lane: &mut ServiceLane<D, PAGE>,
    key: Key,
    name: &[u8],
    value: Value,
    expires: u64,
    moment: u64,
    found: &mut ValueBuffer,
) -> Result<AnswerKind, PutFault>
    requires { name.now ≡ key }
    ensures memory { (told : ℕ) → result ≡ Ok (Hit Memory told) → found.new ≡ value }
    ensures flash { ((d : D) → IsTrue (D.honest d)) → (tier : Tier) →
        (told : ℕ) → result ≡ Ok (Hit tier told) → found.new ≡ value }
{
    latest_is_current();
    let _pushed = lane.put(key, value, 0, expires)?;
    match lane.get(name, moment, found) {
        Ok(seen) => Ok(seen),
        // A key's bytes are never refused.
        Err(_) => Err(PutFault::OutOfMemory),
    }
}

/// A value is hit at no moment at or after its expiry: in memory whatever the device does, on flash if it gives back what was
/// written.
pub fn an_expired_value_is_not_hit<D: PageDevice<PAGE>, const PAGE: usize>(
    lane: &mut ServiceLane<D, PAGE>,
    key: Key,
    name: &[u8],
    value: Value,
    expires: u64,
    moment: u64,
    found: &mut ValueBuffer,
) -> Result<AnswerKind, PutFault>
    requires name { name.now ≡ key }
    requires expired { is_live expires moment ≡ false }
    ensures memory { (told : ℕ) → result ≢ Ok (Hit Memory told) }
    ensures flash { ((d : D) → IsTrue (D.honest d)) → (tier : Tier) → (told : ℕ) →
        result ≢ Ok (Hit tier told) }
{
    latest_is_current();
    let _pushed = lane.put(key, value, 0, expires)?;
    match lane.get(name, moment, found) {
        Ok(seen) => Ok(seen),
        // A key's bytes are never refused.
        Err(_) => Err(PutFault::OutOfMemory),
    }
}

/// After a put or removal in one call nothing older is hit: what is hit then is the value of the put, if it was stored, and
/// nothing if it was refused.
pub fn nothing_older_is_hit<D: PageDevice<PAGE>, const PAGE: usize>(
    lane: &mut ServiceLane<D, PAGE>,
    key: Key,
    name: &[u8],
    value: Value,
    moment: u64,
    found: &mut ValueBuffer,
) -> Option<AnswerKind>
    requires { name.now ≡ key }
    ensures memory { (told : ℕ) → result ≢ Some (Hit Memory told) }
    ensures flash { ((d : D) → IsTrue (D.honest d)) → (tier : Tier) → (told : ℕ) →
        result ≢ Some (Hit tier told) }
{
    latest_is_current();
    let Err(_) = lane.put_or_remove(key, value, 0, 0) else {
        return None;
    };
    match lane.get(name, moment, found) {
        Ok(seen) => Some(seen),
        // A key's bytes are never refused.
        Err(_) => None,
    }
}

/// After a removal of its key nothing is hit, also if a step of upkeep lies between: in memory whatever the device
/// does, on flash if it gives back what was written.
pub fn a_removed_key_is_not_hit<D: PageDevice<PAGE>, P: EvictionPolicy, const PAGE: usize>(
    lane: &mut ServiceLane<D, PAGE>,
    policy: &P,
    name: &[u8],
    moment: u64,
    found: &mut ValueBuffer,
) -> Result<AnswerKind, KeyFault>
    ensures memory { (told : ℕ) → result ≢ Ok (Hit Memory told) }
    ensures flash { ((d : D) → IsTrue (D.honest d)) → (tier : Tier) → (told : ℕ) →
        result ≢ Ok (Hit tier told) }
{
    latest_is_current();
    lane.remove(name)?;
    let _step = lane.upkeep_step(policy);
    lane.get(name, moment, found)
}

/// No lease outlives a removal of its key: the fill is stale, and leaves what the key has, which is nothing.
pub fn a_fill_behind_a_removal_is_stale<D: PageDevice<PAGE>, const PAGE: usize>(
    lane: &mut ServiceLane<D, PAGE>,
    key: Key,
    name: &[u8],
    value: Value,
) -> Result<Filled, PutFault>
    requires { name.now ≡ key }
    ensures { IfOk result (λ filled. filled ≡ Filled.Stale) }
{
    let _layout = lane.layout();
    let lease = lane.lease(name);
    match lane.remove(name) {
        Ok(()) => lane.fill(lease, key, value, 0, 0),
        // A key's bytes are never refused.
        Err(_) => Err(PutFault::OutOfMemory),
    }
}

/// No lease outlives a put of its key: the fill is stale.
pub fn a_fill_behind_a_put_is_stale<D: PageDevice<PAGE>, const PAGE: usize>(
    lane: &mut ServiceLane<D, PAGE>,
    key: Key,
    again: Key,
    put: Value,
    word: u32,
    filled: Value,
) -> Result<Filled, PutFault>
    requires { again ≡ key }
    ensures { IfOk result (λ filled. filled ≡ Filled.Stale) }
{
    let _layout = lane.layout();
    let lease = lane.lease(key.bytes());
    let _pushed = lane.put(key, put, word, 0)?;
    lane.fill(lease, again, filled, 0, 0)
}

/// A hit in the log is counted as one in the log and not in a set, and one in a set as that.
pub fn a_hit_is_counted_in_its_tier<D: PageDevice<PAGE>, const PAGE: usize>(
    lane: &mut ServiceLane<D, PAGE>,
    name: &[u8],
    moment: u64,
    found: &mut ValueBuffer,
) -> Result<AnswerKind, KeyFault>
    ensures log { (told : ℕ) → result ≡ Ok (Hit Log told) → number counter.LogHits lane.new.counts
        ≡ (number counter.LogHits lane.old.counts + 1) % 2 ^ 64 }
    ensures log_alone { (told : ℕ) → result ≡ Ok (Hit Log told) → number counter.SetHits lane.new.counts
        ≡ number counter.SetHits lane.old.counts }
    ensures set { (told : ℕ) → result ≡ Ok (Hit Set told) → number counter.SetHits lane.new.counts
        ≡ (number counter.SetHits lane.old.counts + 1) % 2 ^ 64 }
    ensures set_alone { (told : ℕ) → result ≡ Ok (Hit Set told) → number counter.LogHits lane.new.counts
        ≡ number counter.LogHits lane.old.counts }
{
    match lane.get(name, moment, found) {
        Ok(seen) => Ok(seen),
        Err(fault) => Err(fault),
    }
}

/// A step of upkeep writes a page or loses one, if it flushes: it seals no segment, and does nothing if nothing is due.
pub fn upkeep_seals_nothing<D: PageDevice<PAGE>, P: EvictionPolicy, const PAGE: usize>(
    lane: &mut ServiceLane<D, PAGE>,
    policy: &P,
) -> UpkeepStep
    ensures { (answer : Flushed) → result.did ≡ Upkept.Flushed answer → IsPageDone answer }
{
    let step = lane.upkeep_step(policy);
    step
}

// Opening and closing a lane, and its calls.
ghost use Rattle.std.specs.Prelude.{◌≡◌, None};
ghost use Rattle.record_pages.specs.Bounded.{IsKey};
ghost use Rattle.c_lane.specs.Getting.{Answers, AnswersOrLeases, LeasesKey, RefusesGet};
ghost use Rattle.c_lane.specs.declared.status.Status.{Status};
ghost use Rattle.c_lane.specs.Putting.{Puts, PutsOrRemoves, FillsOrNot, RemovesKey};
ghost use Rattle.kangaroo_c.specs.Telling.{IsFull, IsForeign, IsHere, IsPassedOver, Tells, TellsDue, TellsOpening, page_laws};

use crate::handle::Handle;
use crate::keeping::{open_in, put_back, take_lane, take_lane_of};
use crate::lent_pages::LentPages;
use c_lane::{Hit, LaneShape, Seed};
use service_lane::Lease;
use std::alloc::Global;

/// What each of the calls on a key answers if the key is another lane's: no status is this number. It does nothing then.
const OTHER_LANE: i32 = -1000;

/// Opens an empty lane over pages that C lends, and puts it into an empty place; or leaves the place empty, and the pages are C's
/// again.
#[unsafe(no_mangle)]
pub extern "C" fn kl_open(
    alloc: Global,
    shape: &LaneShape,
    seed: &Seed,
    number: u32,
    pages: LentPages,
    to: &mut Handle,
) -> i32
    requires { to.old.lane ≡ None }
    ensures { TellsOpening shape.now seed.now number pages.pages result to.new.lane }
{
    open_in(alloc, shape, seed, number, pages, to).number()
}

/// Closes a lane: all memory that it took is given back.
#[unsafe(no_mangle)]
pub extern "C" fn kl_close(alloc: Global, lane: &mut Handle)
    requires { IsFull lane.old.lane }
    ensures { lane.new.lane ≡ None }
{
    drop(take_lane(alloc, lane));
}

/// Looks a key up.
#[unsafe(no_mangle)]
pub extern "C" fn kl_get(
    alloc: Global,
    lane: &mut Handle,
    key: &[u8],
    moment: u64,
    into: &mut [u8],
    hit: &mut Hit,
) -> i32
    requires { IsFull lane.old.lane }
    ensures other_lane { IsForeign lane.old.lane key.now →
        IsPassedOver result lane.old.lane lane.new.lane × (into.new ≡ into.old) × (hit.new ≡ hit.old) }
    ensures answered { IsHere lane.old.lane key.now → IsKey key.now → Tells
        (λ status old new. Answers page_laws key.now moment into.old old status new into.new hit.new)
        result lane.old.lane lane.new.lane }
    ensures wrong_key { (IsKey key.now → ⊥) → Tells
        (λ status old new. RefusesGet into.old old status new into.new hit.new)
        result lane.old.lane lane.new.lane }
{
    let Some(mut kept) = take_lane_of(alloc, lane, key) else {
        return OTHER_LANE;
    };
    let status = kept.lane.get(key, moment, into, hit);
    put_back(lane, kept);
    status.number()
}

/// Looks a key up, and leases it at a miss.
#[unsafe(no_mangle)]
pub extern "C" fn kl_get_or_lease(
    alloc: Global,
    lane: &mut Handle,
    key: &[u8],
    moment: u64,
    into: &mut [u8],
    hit: &mut Hit,
    lease: &mut Lease,
) -> i32
    requires { IsFull lane.old.lane }
    ensures other_lane { IsForeign lane.old.lane key.now →
        IsPassedOver result lane.old.lane lane.new.lane × (into.new ≡ into.old) × (hit.new ≡ hit.old) × (lease.new ≡ lease.old) }
    ensures answered { IsHere lane.old.lane key.now → IsKey key.now → Tells
        (λ status old new. AnswersOrLeases page_laws key.now moment into.old lease.old old
        status new into.new hit.new lease.new)
        result lane.old.lane lane.new.lane }
    ensures wrong_key { (IsKey key.now → ⊥) → Tells
        (λ status old new. RefusesGet into.old old status new into.new hit.new)
        result lane.old.lane lane.new.lane }
    ensures no_lease { (IsKey key.now → ⊥) → lease.new ≡ lease.old }
{
    let Some(mut kept) = take_lane_of(alloc, lane, key) else {
        return OTHER_LANE;
    };
    let status = kept.lane.get_or_lease(key, moment, into, hit, lease);
    put_back(lane, kept);
    status.number()
}

/// Leases a key, whether it is there or not.
#[unsafe(no_mangle)]
pub extern "C" fn kl_lease(alloc: Global, lane: &mut Handle, key: &[u8], lease: &mut Lease) -> i32
    requires { IsFull lane.old.lane }
    ensures other_lane { IsForeign lane.old.lane key.now →
        IsPassedOver result lane.old.lane lane.new.lane × (lease.new ≡ lease.old) }
    ensures leased { IsHere lane.old.lane key.now → IsKey key.now → Tells
        (λ status old new. LeasesKey key.now old status new lease.new)
        result lane.old.lane lane.new.lane }
    ensures wrong_key { (IsKey key.now → ⊥) → Tells
        (λ status old new. (status ≡ Status.WrongKey) × (new ≡ old) × (lease.new ≡ lease.old))
        result lane.old.lane lane.new.lane }
{
    let Some(mut kept) = take_lane_of(alloc, lane, key) else {
        return OTHER_LANE;
    };
    let status = kept.lane.lease(key, lease);
    put_back(lane, kept);
    status.number()
}

/// Puts a value, and says whether upkeep is due after it: 1 or 0.
#[unsafe(no_mangle)]
pub extern "C" fn kl_put(
    alloc: Global,
    lane: &mut Handle,
    key: &[u8],
    value: &[u8],
    expires: u64,
    is_due: &mut u32,
) -> i32
    requires { IsFull lane.old.lane }
    ensures other_lane { IsForeign lane.old.lane key.now →
        IsPassedOver result lane.old.lane lane.new.lane × (is_due.new ≡ is_due.old) }
    ensures put { IsHere lane.old.lane key.now → Tells
        (λ status old new. Puts page_laws key.now value.now expires old status new)
        result lane.old.lane lane.new.lane }
    ensures due { IsHere lane.old.lane key.now → TellsDue is_due.new lane.new.lane }
{
    let Some(mut kept) = take_lane_of(alloc, lane, key) else {
        return OTHER_LANE;
    };
    let status = kept.lane.put(alloc, key, value, expires);
    *is_due = u32::from(kept.lane.is_due());
    put_back(lane, kept);
    status.number()
}

/// Puts a value, or removes the key if the put is refused; and says whether upkeep is due after it: 1 or 0.
#[unsafe(no_mangle)]
pub extern "C" fn kl_put_or_remove(
    alloc: Global,
    lane: &mut Handle,
    key: &[u8],
    value: &[u8],
    expires: u64,
    is_due: &mut u32,
) -> i32
    requires { IsFull lane.old.lane }
    ensures other_lane { IsForeign lane.old.lane key.now →
        IsPassedOver result lane.old.lane lane.new.lane × (is_due.new ≡ is_due.old) }
    ensures put { IsHere lane.old.lane key.now → Tells
        (λ status old new. PutsOrRemoves page_laws key.now value.now expires old status new)
        result lane.old.lane lane.new.lane }
    ensures due { IsHere lane.old.lane key.now → TellsDue is_due.new lane.new.lane }
{
    let Some(mut kept) = take_lane_of(alloc, lane, key) else {
        return OTHER_LANE;
    };
    let status = kept.lane.put_or_remove(alloc, key, value, expires);
    *is_due = u32::from(kept.lane.is_due());
    put_back(lane, kept);
    status.number()
}

/// Puts a value by a lease, and says whether upkeep is due after it: 1 or 0.
#[unsafe(no_mangle)]
pub extern "C" fn kl_fill(
    alloc: Global,
    lane: &mut Handle,
    lease: &Lease,
    key: &[u8],
    value: &[u8],
    expires: u64,
    is_due: &mut u32,
) -> i32
    requires { IsFull lane.old.lane }
    ensures other_lane { IsForeign lane.old.lane key.now →
        IsPassedOver result lane.old.lane lane.new.lane × (is_due.new ≡ is_due.old) }
    ensures filled { IsHere lane.old.lane key.now → Tells
        (λ status old new. FillsOrNot page_laws lease.now key.now value.now expires old status new)
        result lane.old.lane lane.new.lane }
    ensures due { IsHere lane.old.lane key.now → TellsDue is_due.new lane.new.lane }
{
    let Some(mut kept) = take_lane_of(alloc, lane, key) else {
        return OTHER_LANE;
    };
    let status = kept.lane.fill(alloc, lease, key, value, expires);
    *is_due = u32::from(kept.lane.is_due());
    put_back(lane, kept);
    status.number()
}

/// Removes a key.
#[unsafe(no_mangle)]
pub extern "C" fn kl_remove(alloc: Global, lane: &mut Handle, key: &[u8]) -> i32
    requires { IsFull lane.old.lane }
    ensures other_lane { IsForeign lane.old.lane key.now → IsPassedOver result lane.old.lane lane.new.lane }
    ensures removed { IsHere lane.old.lane key.now → Tells
        (λ status old new. RemovesKey page_laws key.now old status new)
        result lane.old.lane lane.new.lane }
{
    let Some(mut kept) = take_lane_of(alloc, lane, key) else {
        return OTHER_LANE;
    };
    let status = kept.lane.remove(key);
    put_back(lane, kept);
    status.number()
}

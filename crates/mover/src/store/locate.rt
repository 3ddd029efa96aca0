// Looking a key up in the tiers on flash, which changes nothing there.
ghost use Rattle.std.specs.Prelude.{◌≡◌, ◌≤◌, IfSome, IsTrue, None, Some};
ghost use Rattle.std.specs.Bool.{OnFalse};
ghost use Rattle.record_pages.specs.Expiry.{timed};
ghost use Rattle.record_pages.specs.Sizes.{IsPageSize};
ghost use Rattle.klog.specs.Names.{HasRoom};
ghost use Rattle.klog.specs.Shown.{place_in};
ghost use Rattle.kset.specs.Sets.{IsPlaceIn, set_count};
ghost use Rattle.mover.specs.Store.{IsStore, StoreState};
ghost use Rattle.mover.specs.Lane.{lane_of};
ghost use Rattle.mover.specs.Timed.{expiry_at, expiry_at_memory, flash_timed};
ghost use Rattle.mover.specs.Touch.{answer_at, has_value, touched, in_set, IsOfSets, LooksBelow, with_flash};

use crate::located::Located;
use klog::KLog;
use kset::KSet;
use page_device::PageDevice;
use record_pages::{MissCause, ValueBuffer};
use set_hash::Placed;

// Where the log, or else its set, has a key. Its value goes into the buffer. Nothing changes but the device. The two
// gets of the store, which copy a value or note where it is, and the recorded lane above them ask for one fact each.
pub(super) fn locate_below<D: PageDevice<PAGE>, const PAGE: usize>(
    log: &KLog<PAGE>,
    sets: &KSet<PAGE>,
    device: &mut D,
    placed: &Placed,
    key: &[u8],
    moment: u64,
    found: &mut ValueBuffer,
) -> Located
    requires page_size { IsPageSize PAGE }
    requires log_room { HasRoom (D.page_count device.old) log.now }
    requires set_room { set_count sets.now ≤ D.page_count device.old }
    requires at { placed.now ≡ place_in log.now.shape key.now }
    requires its { IsPlaceIn sets.now placed.now }
    ensures looks { (s : StoreState D) →
        IsStore PAGE D.page_count D.honest D.held (with_flash s device.old log.now sets.now) →
        LooksBelow PAGE D.honest D.failures D.held key.now moment
        (with_flash s device.old log.now sets.now) (answer_at result found.new)
        (touched key.now result (with_flash s device.new log.now sets.now)) }
    ensures pages { D.page_count device.new ≡ D.page_count device.old }
    ensures honest { D.honest device.new ≡ D.honest device.old }
    ensures same { IsTrue (D.honest device.old) → D.held device.new ≡ D.held device.old }
    ensures can { IsOfSets result (set_count sets.now) }
    ensures stays { OnFalse (has_value result) (found.new ≡ found.old) }
    // When a value expires.
    ensures timed { (s : StoreState D) →
        IsStore PAGE D.page_count D.honest D.held (with_flash s device.old log.now sets.now) →
        IsTrue (D.honest device.old) → IfSome (expiry_at result) (λ expires.
        flash_timed key.now (lane_of D.held (with_flash s device.old log.now sets.now))
        ≡ Some (timed found.new expires)) }
    // None of it is in memory.
    ensures below { expiry_at_memory result ≡ None }
{
    match log.locate(device, placed, key, moment, found) {
        klog::LocatedInLog::Hit { entry, expires } => Located::Log { entry, expires },
        klog::LocatedInLog::Expired => Located::Miss(MissCause::Expired),
        klog::LocatedInLog::Fault => Located::Miss(MissCause::Fault),
        klog::LocatedInLog::Damaged => Located::Miss(MissCause::Damaged),
        klog::LocatedInLog::Absent => {
            let located = sets.locate(device, placed, key, moment, found);
            in_set(placed.set, located)
        }
    }
}

// Where a store has what a set locates.
fn in_set(set: u32, located: kset::LocatedInSet) -> Located
    ensures { result ≡ in_set set located }
{
    match located {
        kset::LocatedInSet::Hit { slot, expires } => Located::Set { set, slot, expires },
        kset::LocatedInSet::Expired => Located::Miss(MissCause::Expired),
        kset::LocatedInSet::Absent => Located::Miss(MissCause::Absent),
        kset::LocatedInSet::Fault => Located::Miss(MissCause::Fault),
        kset::LocatedInSet::Damaged => Located::Miss(MissCause::Damaged),
    }
}

//! What users of a lane of items rely on, of any lane and any device: the contract of each function here denies what a wrong
//! body would do.
ghost use Rattle.record_pages.specs.Bounded.{IsKey};
ghost use Rattle.service_tests.specs.Seen.{KeepsLive, RepliesSum};

use item_lane::{
    CacheItem, Change, CommandReply, CommandTurn, Condition, Delta, StoreMode, change_number,
    store_if,
};
use page_device::PageDevice;
use record_pages::{PutFault, ValueBuffer};
use service_lane::ServiceLane;
use std::alloc::Global;

/// An increment adds the whole amount to the number of the live item, and replies the sum.
pub fn an_increment_adds_the_whole_amount<D: PageDevice<PAGE>, const PAGE: usize>(
    lane: &mut ServiceLane<D, PAGE>,
    alloc: Global,
    key: &[u8],
    amount: u64,
    cas: u64,
    turn: CommandTurn,
    found: &mut ValueBuffer,
) -> Result<CommandReply, PutFault>
    requires { IsKey key.now }
    ensures { RepliesSum PAGE D.honest D.failures D.held key.now turn amount lane.old result }
{
    let change = Change::Increment(amount);
    let delta = Delta {
        change,
        cas,
        compare: None,
    };
    let result = change_number(lane, alloc, key, delta, turn, found);
    result
}

/// An add stores nothing over a live item, whichever number is asked for, and leaves the lane as its look-up did.
pub fn an_add_keeps_the_live_item<D: PageDevice<PAGE>, const PAGE: usize>(
    lane: &mut ServiceLane<D, PAGE>,
    alloc: Global,
    key: &[u8],
    compare: Option<u64>,
    item: CacheItem<'_>,
    turn: CommandTurn,
    found: &mut ValueBuffer,
) -> Result<CommandReply, PutFault>
    requires { IsKey key.now }
    ensures { KeepsLive PAGE D.honest D.failures D.held key.now turn lane.old result lane.new }
{
    let condition = Condition {
        mode: StoreMode::Add,
        compare,
    };
    let result = store_if(lane, alloc, key, condition, item, turn, found);
    result
}

// Meta sets.
ghost use Rattle.std.specs.Prelude.{◌≡◌, Some};
ghost use Rattle.record_pages.specs.Bounded.{IsKey};
ghost use Rattle.item_lane.specs.Cells.{kept_shown};
ghost use Rattle.item_lane.specs.Meta.{unless_zero, cas_condition, condition_of};
ghost use Rattle.item_lane.specs.Doing.{SetsAs};

use crate::cache_item::CacheItem;
use crate::command_reply::CommandReply;
use crate::command_turn::CommandTurn;
use crate::condition::{Condition, StoreMode};
use crate::storing::{set, store_if};
use page_device::PageDevice;
use record_pages::{PutFault, ValueBuffer};
use service_lane::ServiceLane;
use std::alloc::Global;

/// The mode of a meta set: its flag `M`.
#[derive(Clone, Copy)]
pub enum MetaMode {
    /// `S`, and where no mode is named.
    Set,
    /// `E`: only if there is no live item.
    Add,
    /// `R`: only if there is one.
    Replace,
    /// `A`: after the data of the live item.
    Append,
    /// `P`: before the data of the live item.
    Prepend,
}

/// How a meta set stores.
#[derive(Clone, Copy)]
pub struct MetaSet {
    /// `M`: how it depends on the live item.
    pub mode: MetaMode,
    /// `C`: the cas unique that the live item must have, if one is asked for. `Add` does not look at it; `Append` and `Prepend`
    /// take 0 as none.
    pub compare: Option<u64>,
    /// `I`: whether a set or replace with a lower number than the item's is made, and leaves a stale item.
    pub invalidates: bool,
}

/// `ms`: stores an item as its mode says. The head brings the number that the item gets.
///
/// It replies `Stored`, `NotStored`, `Exists` or, for a set or replace with a number, `NotFound`. What is stored is neither
/// stale nor won, but over a greater number with `invalidates`. A store that is refused removes the key, as that of `set` does.
pub fn meta_set<D: PageDevice<PAGE>, const PAGE: usize>(
    lane: &mut ServiceLane<D, PAGE>,
    alloc: Global,
    key: &[u8],
    request: MetaSet,
    item: CacheItem<'_>,
    turn: CommandTurn,
    found: &mut ValueBuffer,
) -> Result<CommandReply, PutFault>
    requires { IsKey key.now }
    ensures { SetsAs PAGE D.honest D.failures D.held key.now turn
        (condition_of request.mode request.compare request.invalidates) (kept_shown item.entry)
        lane.old result lane.new }
{
    match request.condition() {
        None => set(lane, alloc, key, item, turn),
        Some(condition) => store_if(lane, alloc, key, condition, item, turn, found),
    }
}

impl MetaSet {
    // How it depends on the live item. A set without a number does not.
    fn condition(self) -> Option<Condition>
        ensures { result ≡ condition_of self.mode self.compare self.invalidates }
    {
        match self.mode {
            MetaMode::Set => match self.compare {
                Some(cas) => Some(cas_condition(self.invalidates, cas)),
                None => None,
            },
            MetaMode::Add => Some(Condition {
                mode: StoreMode::Add,
                compare: None,
            }),
            MetaMode::Replace => Some(self.replace_condition()),
            MetaMode::Append => Some(Condition {
                mode: StoreMode::Append,
                compare: unless_zero(self.compare),
            }),
            MetaMode::Prepend => Some(Condition {
                mode: StoreMode::Prepend,
                compare: unless_zero(self.compare),
            }),
        }
    }

    // How a replace depends on it.
    fn replace_condition(self) -> Condition
        ensures { Some result ≡ condition_of MetaMode.Replace self.compare self.invalidates }
    {
        match self.compare {
            Some(cas) => cas_condition(self.invalidates, cas),
            None => Condition {
                mode: StoreMode::Replace,
                compare: None,
            },
        }
    }
}

// How a store with a number depends on the live item. 0 is no item's number, and older than none.
fn cas_condition(invalidates: bool, cas: u64) -> Condition
    ensures { result ≡ cas_condition invalidates cas }
{
    let mode = if invalidates && cas != 0 {
        StoreMode::Invalidate
    } else {
        StoreMode::Replace
    };
    Condition {
        mode,
        compare: Some(cas),
    }
}

/// A number to compare, if it is not 0.
pub(crate) fn unless_zero(compare: Option<u64>) -> Option<u64>
    ensures { result ≡ unless_zero compare }
{
    match compare {
        Some(cas) if cas != 0 => Some(cas),
        Some(_) | None => None,
    }
}

// The calls that a pass lists, lent.
ghost use Rattle.std.specs.Prelude.{◌≡◌, ◌<◌, Some, All, length, slice_get};
ghost use Rattle.std.specs.Option.{option_map};
ghost use Rattle.shared_cache.specs.Listed.{listed_shown};
ghost use Rattle.shared_cache.specs.Passes.{IsInOrder};

use crate::listed_entry::ListedEntry;
use crate::listed_ref::ListedRef;
use recorded_lane::NotedRef;
use std::marker::Model;

/// The calls that a pass lists, in their order, lent by it. Threads may share it, as they may not share a pass.
#[derive(Drop)]
pub(crate) struct ListedCalls<'a> {
    entries: &'a [ListedEntry],
    // The bytes of their keys and values.
    bytes: &'a [u8],
}

impl<'a> Model for ListedCalls<'a> {
    ghost use Rattle.std.specs.Prelude.{List};
    ghost use Rattle.shared_cache.specs.Listed.{Listed, calls_listed};
    ghost use Rattle.shared_cache.specs.Passes.{KeepsListed};

    ghost Value = { List Listed };

    ghost view = { λ l. calls_listed l.bytes.now l.entries.now };

    ghost invariant = { λ l. KeepsListed l.bytes.now l.entries.now };
}

impl<'a> ListedCalls<'a> {
    ghost use Rattle.shared_cache.specs.Listed.{calls_listed};
    ghost use Rattle.shared_cache.specs.Passes.{KeepsListed};

    /// The calls of which these entries are kept, whose bytes lie in this store.
    pub(crate) fn new(entries: &'a [ListedEntry], bytes: &'a [u8]) -> ListedCalls<'a>
        requires { KeepsListed bytes.now entries.now }
        ensures { result ≡ calls_listed bytes.entry.now entries.entry.now }
    {
        ListedCalls { entries, bytes }
    }

    /// How many calls there are.
    pub(crate) fn len(&self) -> usize
        ensures count { result ≡ length self.now }
        ensures ended { All IsInOrder self.now }
    {
        self.entries.len()
    }

    /// The call at a place, counted from 0, lent.
    pub(crate) fn at(&self, place: usize) -> ListedRef<'a>
        requires { place < length self.now }
        ensures { slice_get self.entry.now place ≡ Some (listed_shown result) }
    {
        let entries = self.entries;
        let kept = entries[place];
        let call = kept.entry.lent(self.bytes);
        ListedRef {
            lane: kept.lane,
            position: kept.position,
            call: NotedRef {
                caller: call.caller,
                start: call.start,
                point: call.end,
                key: call.key,
                act: call.act,
            },
            end: kept.end,
        }
    }

    /// The lane of the call at a place, counted from 0.
    pub(crate) fn lane_at(&self, place: usize) -> u32
        requires { place < length self.now }
        ensures { option_map (λ l. l.lane) (slice_get self.now place) ≡ Some result }
    {
        let entries = self.entries;
        entries[place].lane
    }
}

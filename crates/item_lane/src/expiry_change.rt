// What becomes of an item's expiry.
ghost use Rattle.std.specs.Prelude.{◌≡◌};
ghost use Rattle.item_lane.specs.Cells.{kept_shown};
ghost use Rattle.item_lane.specs.Meta.{expiry_after, gives_expiry, with_expiry};

use crate::cache_item::CacheItem;
use crate::head::Head;

/// What a command does to the expiry of an item: the flag `T` of the meta commands.
#[derive(Clone, Copy)]
pub enum ExpiryChange {
    /// It stays.
    Stays,
    /// It becomes this one: the first second at which the item is not live any more, in the lane's moments; `None` if it never
    /// expires.
    Becomes(Option<u32>),
}

impl ExpiryChange {
    /// The expiry after the change of an item that has this one.
    pub(crate) fn after(self, expires: Option<u32>) -> Option<u32>
        ensures { result ≡ expiry_after self expires }
    {
        match self {
            ExpiryChange::Stays => expires,
            ExpiryChange::Becomes(other) => other,
        }
    }

    /// Whether it gives an expiry.
    pub(crate) fn gives_expiry(self) -> bool
        ensures { result ≡ gives_expiry self }
    {
        match self {
            ExpiryChange::Stays => false,
            ExpiryChange::Becomes(_) => true,
        }
    }

    /// An item with the expiry after the change.
    pub(crate) fn on(self, item: CacheItem<'_>) -> CacheItem<'_>
        ensures shown { kept_shown result ≡ with_expiry self (kept_shown item.entry) }
        ensures bytes { result.bytes.now ≡ item.entry.bytes.now }
    {
        let head = Head {
            expires: self.after(item.head.expires),
            ..item.head
        };
        CacheItem {
            head,
            bytes: item.bytes,
        }
    }
}

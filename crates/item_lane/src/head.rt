// What is kept of an item beside its data.
ghost use Rattle.std.specs.Prelude.{◌≡◌, ◌+◌, ◌≤◌};
ghost use Rattle.item_lane.specs.Cells.{marks_of, head_len, expires_of};
ghost use Rattle.item_lane.specs.Choosing.{renewed, counted};

use record_pages::NEVER;

/// The mark of an item that is stale.
pub(crate) const STALE: u8 = 1;

/// The mark of an item of which a client was told that it is to refresh it.
pub(crate) const WON: u8 = 2;

/// The mark of a head whose flags follow.
pub(crate) const FLAGS: u8 = 4;

/// The mark of a head whose expiry follows.
pub(crate) const EXPIRES: u8 = 8;

/// What is kept of an item beside its data. It takes 9 bytes of the item's cell, 4 more if the flags are not 0, and 4 more if
/// the item expires.
#[derive(Clone, Copy, PartialEq, Eq)]
pub struct Head {
    /// The client's flags, which nobody else reads.
    pub flags: u32,
    /// The number that the item got when it was stored, its cas unique.
    pub cas: u64,
    /// The first second at which it is not live any more, in the lane's moments; `None` if it never expires.
    pub expires: Option<u32>,
    /// Whether it was marked as stale.
    pub is_stale: bool,
    /// Whether a client was told that it is to refresh the item.
    pub is_won: bool,
}

impl Head {
    /// How many bytes it takes of a cell, 9 to 17. The data may have up to `Value::MAX_LEN` less as many.
    pub fn len(&self) -> usize
        ensures len { result ≡ head_len self.now }
        ensures bound { result ≤ 17 }
    {
        let flags = if self.flags == 0 { 0 } else { 4 };
        let expires = if self.expires.is_some() { 4 } else { 0 };
        9 + flags + expires
    }

    /// The head of the item after it got other data and this cas unique: its flags and its expiry stay, and its marks go.
    pub(crate) fn renewed(&self, cas: u64) -> Head
        ensures { result ≡ renewed self.now cas }
    {
        Head {
            flags: self.flags,
            cas,
            expires: self.expires,
            is_stale: false,
            is_won: false,
        }
    }

    /// The head of the item after its number was changed: it gets this cas unique, and all else stays, its marks too.
    pub(crate) fn counted(&self, cas: u64) -> Head
        ensures { result ≡ counted self.now cas }
    {
        Head { cas, ..*self }
    }

    /// The moment at which the item expires, as the lane has it.
    pub(crate) fn expires(&self) -> u64
        ensures { result ≡ expires_of self.now }
    {
        match self.expires {
            Some(moment) => u64::from(moment),
            None => NEVER,
        }
    }

    /// Its marks.
    pub(crate) fn marks(&self) -> u8
        ensures marks { result ≡ marks_of self.now }
    {
        let stale = if self.is_stale { STALE } else { 0 };
        let won = if self.is_won { WON } else { 0 };
        let flags = if self.flags == 0 { 0 } else { FLAGS };
        let expires = if self.expires.is_some() { EXPIRES } else { 0 };
        stale + won + flags + expires
    }
}

// Which keys' calls are read.
ghost use Rattle.std.specs.Prelude.{◌≡◌, ◌<◌, ◌≤◌, IfNone, IfSome};
ghost use Rattle.history_text.specs.Readings.{is_in_share, share_by};

use set_hash::hash;

/// A share of all keys: those whose hash leaves this remainder. The hash is FNV-1a with 64 bits of the bytes of the key. So runs
/// that read the shares 0 to N - 1 of N read the calls of each key once, on whichever machines they run.
#[derive(Clone, Copy, PartialEq, Eq)]
pub struct Share {
    part: u32,
    of: u32,
}

impl Share {
    /// All keys. No hash is taken.
    pub const ALL: Share = Share { part: 0, of: 1 };

    /// One share of so many, counted from 0, if there are so many.
    pub fn new(part: u32, of: u32) -> Option<Share>
        ensures some { IfSome result (λ share. (share ≡ share_by part of) × (part < of)) }
        ensures none { IfNone result (of ≤ part) }
    {
        if part < of {
            Some(Share { part, of })
        } else {
            None
        }
    }

    /// Whether a key is in the share.
    #[tactic(auto, unfolding(crate::specs::Readings::is_in_share))]
    pub fn has(&self, key: &[u8]) -> bool
        ensures { result ≡ is_in_share self.now key.now }
    {
        if self.of <= 1 {
            return true;
        }
        hash(key) % u64::from(self.of) == u64::from(self.part)
    }
}

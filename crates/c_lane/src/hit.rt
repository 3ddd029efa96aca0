// What a get tells of its hit.
ghost use Rattle.std.specs.Prelude.{◌≡◌, ◌≤◌, length};
ghost use Rattle.c_lane.specs.Getting.{no_hit, hit_with};

use record_pages::Tier;

/// What a get tells of its hit; all zeros if there is none.
#[repr(C)]
#[derive(Clone, Copy)]
pub struct Hit {
    /// Bytes of the value.
    pub length: u64,
    /// When it expires, 2^64 - 1 if it does not; 0 if there is no hit.
    pub expires: u64,
    /// Where it was found: 1 in memory, 2 in the log, 3 in a set; 0 if there is no hit.
    pub tier: u32,
    /// Always 0.
    pub reserved: u32,
}

impl Hit {
    // There is none.
    pub(crate) fn none() -> Hit
        ensures { result ≡ no_hit }
    {
        Hit {
            length: 0,
            expires: 0,
            tier: 0,
            reserved: 0,
        }
    }

    // A hit of these bytes in a tier, which expire then.
    pub(crate) fn of(value: &[u8], tier: Tier, expires: u64) -> Hit
        ensures { result ≡ hit_with value.now tier expires }
    {
        Hit {
            length: value.len() as u64,
            expires,
            tier: match tier {
                Tier::Memory => 1,
                Tier::Log => 2,
                Tier::Set => 3,
            },
            reserved: 0,
        }
    }
}

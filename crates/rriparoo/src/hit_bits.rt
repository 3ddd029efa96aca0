// The hits of one set since it was written.
ghost use Rattle.std.specs.Prelude.{◌≡◌, ◌<◌};
ghost use Rattle.std.specs.Ordering.{nat_cmp};
ghost use Rattle.std.specs.FinSet as set;
ghost use Rattle.std.specs.Coded.{coded_ℕ};
ghost use Rattle.record_pages.specs.Sizes.{max_set_records};
ghost use Rattle.rriparoo.specs.HitBits.{bits_of};

use std::marker::Model;

/// The places of a set's page whose records were hit since the page was written: a set of places below
/// `MAX_SET_RECORDS`, a bit of one word for each.
#[derive(Clone, Drop)]
pub struct HitBits {
    bits: u128,
}

impl Model for HitBits {
    ghost Value = { set.FinSet nat_cmp };

    ghost coded = { set.code coded_ℕ };

    ghost view = { λ h. bits_of h.bits };
}

impl HitBits {
    /// No place was hit.
    pub fn empty() -> HitBits
        ensures { result ≡ set.empty }
    {
        HitBits { bits: 0 }
    }

    /// Notes a hit at a place.
    pub fn set(&mut self, place: usize)
        requires { place < max_set_records }
        ensures { self.new ≡ set.insert self.old place }
    {
        self.bits |= 1 << place;
    }

    /// Whether the place was hit.
    pub fn has(&self, place: usize) -> bool
        requires { place < max_set_records }
        ensures { result ≡ set.contains self.now place }
    {
        (self.bits >> place) & 1 == 1
    }
}

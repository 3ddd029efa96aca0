// An item with its rank.
ghost use Rattle.std.specs.Prelude.{◌≡◌};

use crate::rank::Rank;
use record_pages::Prediction;
use std::cmp::Ordering;

/// An item that a policy may keep.
#[derive(Clone, Copy, PartialEq, Eq)]
pub struct Candidate {
    /// The number of the item in its job.
    pub item: usize,
    /// How many bytes it takes on a page.
    pub size: u32,
    /// The prediction that it is written with.
    pub prediction: Prediction,
    /// How early it is kept.
    pub rank: Rank,
}

impl Candidate {
    ghost use Rattle.std.specs.Ordering.{is_lt};
    ghost use Rattle.policy_laws.specs.Rank.{rank_before};

    /// Whether this candidate ranks before the other one.
    pub fn ranks_before(&self, other: &Candidate) -> bool
        ensures { result ≡ rank_before self.now other.now }
    {
        if self.rank.distance != other.rank.distance {
            return self.rank.distance < other.rank.distance;
        }
        if self.rank.late != other.rank.late {
            return other.rank.late;
        }
        self.item < other.item
    }
    // Less if this candidate ranks before the other one.
    pub(crate) fn order(&self, other: &Candidate) -> Ordering
        ensures { is_lt result ≡ rank_before self.now other.now }
    {
        if self.ranks_before(other) {
            return Ordering::Less;
        }
        if other.ranks_before(self) {
            return Ordering::Greater;
        }
        Ordering::Equal
    }
}

// A budget of pages.
ghost use Rattle.std.specs.Prelude.{◌≡◌, ◌/◌, ◌≤◌};
ghost use Rattle.write_budget.specs.declared.limits.TheConstants.{MILLISECONDS_A_DAY, MAX_PAGES_A_DAY};
ghost use Rattle.write_budget.specs.Bucket.{IsBucket, new_bucket, filled, is_granted, after_asking};

use crate::limits::{MILLISECONDS_A_DAY, MILLISECONDS_OF_ROOM};
use std::marker::Model;

/// So many pages a day, and no more than those of a minute, or one, saved up. It asks for moments of a clock, in milliseconds from
/// any start. A moment before the latest one is of a clock that went back: nothing is granted, and nothing is lost.
#[derive(Drop)]
pub struct WriteBudget {
    pages: u64,
    latest: u64,
    credit: u64,
}

impl Model for WriteBudget {
    ghost use Rattle.write_budget.specs.Bucket.{Bucket, IsBucket};

    ghost Value = { Bucket };

    ghost view = { λ b. record { pages = b.pages; latest = b.latest; credit = b.credit } };

    ghost invariant = { λ b. IsBucket b.pages b.credit };
}

impl WriteBudget {
    /// A budget of so many pages a day, of which none is saved up at this moment.
    pub fn new(pages: u64, now: u64) -> WriteBudget
        requires { pages ≤ MAX_PAGES_A_DAY }
        ensures { result ≡ new_bucket pages now }
    {
        WriteBudget {
            pages,
            latest: now,
            credit: 0,
        }
    }

    /// The pages that are saved up.
    pub fn saved(&self) -> u64
        ensures pages { result ≡ self.now.credit / MILLISECONDS_A_DAY }
        ensures bucket { IsBucket self.now.pages self.now.credit }
    {
        self.credit / MILLISECONDS_A_DAY
    }

    /// Whether a page may be written at this moment. If so it counts as written.
    pub fn grant(&mut self, now: u64) -> bool
        ensures granted { result ≡ is_granted self.old now }
        ensures after { self.new ≡ after_asking self.old now }
    {
        if now < self.latest {
            return false;
        }
        let credit = self.credit_at(now);
        let is_granted = MILLISECONDS_A_DAY <= credit;
        self.latest = now;
        self.credit = if is_granted {
            credit - MILLISECONDS_A_DAY
        } else {
            credit
        };
        is_granted
    }

    // The credit at a moment.
    fn credit_at(&self, now: u64) -> u64
        ensures { result ≡ filled self.now now }
    {
        let gained = self.pages.saturating_mul(now.saturating_sub(self.latest));
        let room = MILLISECONDS_A_DAY.max(MILLISECONDS_OF_ROOM * self.pages);
        self.credit.saturating_add(gained).min(room)
    }
}

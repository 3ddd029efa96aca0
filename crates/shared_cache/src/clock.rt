// A clock that threads share, and the seats that draw from it.
ghost use Rattle.std.specs.Prelude.{◌≡◌, ◌+◌, ◌<◌, ◌≤◌, ◌^◌, max, length, All, IfOk, OnOk, OnErr};
ghost use Rattle.shared_cache.specs.Stamps.{new_sight};

use crate::clock_full::ClockFull;
use crate::clock_rule::{ClockLook, ClockRule, Raise, Twin, View};
use atomic_table::{Seat, Table};
use std::alloc::{AllocError, Global};
use std::marker::Model;

/// The greatest stamp, `2^63 - 1`.
pub const LAST_STAMP: u64 = 0x7fff_ffff_ffff_ffff;

/// One word that threads raise and that never falls. A new clock is at 0. Contracts see which clock it is.
#[derive(Drop)]
pub struct Clock {
    table: Table<(), View, (), ClockRule, Global>,
}

impl Model for Clock {
    ghost use Rattle.std.specs.Prelude.{◌≡◌};
    ghost use Rattle.atomic_table.specs.Seated.{TableId, table_id_coded};

    ghost Value = { TableId };

    ghost coded = { table_id_coded };

    ghost view = { λ c. c.table.shared.table_id };

    ghost invariant = { λ c. c.table.shared.table_id.words ≡ 1 };
}

/// The right to step with one clock, and the greatest stamp that its holder has seen. It is one thread's at a time.
#[derive(Drop)]
pub struct ClockSeat {
    seat: Seat<(), View>,
    seen: u64,
}

impl Model for ClockSeat {
    ghost use Rattle.std.specs.Prelude.{◌≡◌, ◌≤◌, ◌<◌, ◌^◌, []};
    ghost use Rattle.shared_cache.specs.Stamps.{Sight, IsSeat};

    ghost Value = { Sight };

    ghost view = { λ s. record { clock = s.seat.table_id; seen = s.seen; loaded = s.seat.me.0.loaded; raised = s.seat.me.0.raised } };

    ghost invariant = { λ s. IsSeat s.seat.me s.seen };
}

impl Clock {
    /// A clock at 0 and this many seats, which have seen 0. `AllocError` if memory was refused.
    pub fn new(alloc: Global, seats: u16) -> Result<(Clock, Vec<ClockSeat>), AllocError>
        requires { 0 < seats }
        ensures many { IfOk result (λ r. length r.1.items ≡ seats) }
        ensures seats { IfOk result (λ r. All (λ s. s ≡ new_sight r.0) r.1.items) }
    {
        let mut all = Vec::with_capacity(alloc, usize::from(seats))?;
        let (table, mut seat) = Table::of_words(alloc, &[0], &())?;
        for _ in 1..seats {
            let twin = table.shared.split_seat::<Twin>(&mut seat);
            all.push(ClockSeat {
                seat: twin,
                seen: 0,
            })?;
        }
        all.push(ClockSeat { seat, seen: 0 })?;
        Ok((Clock { table }, all))
    }

    /// A stamp: one more than the greatest of the word and all that the seat has seen. The word and the seat are at
    /// least there then. `ClockFull` if it would pass the last stamp: then the word is not raised, and the seat has
    /// seen the last stamp.
    pub fn tick(&self, seat: &mut ClockSeat) -> Result<u64, ClockFull>
        requires { seat.old.clock ≡ self.now }
        ensures clock { seat.new.clock ≡ self.now }
        ensures stamp { IfOk result (λ t.
            (t ≡ max seat.new.loaded seat.old.seen + 1) × (t < 2 ^ 63)) }
        ensures seen { IfOk result (λ t. (seat.new.seen ≡ t) × (seat.new.raised ≡ t)) }
        ensures full { OnErr result ((seat.new.seen ≡ max seat.new.loaded seat.old.seen)
            × (seat.new.seen + 1 ≡ 2 ^ 63)) }
        ensures not_raised { OnErr result (seat.new.raised ≡ seat.old.raised) }
        ensures grows { seat.old.seen ≤ seat.new.seen }
    {
        let found = self.table.shared.load::<ClockLook>(&mut seat.seat, 0);
        seat.seen = seat.seen.max(found);
        if seat.seen == LAST_STAMP {
            return Err(ClockFull);
        }
        let stamp = seat.seen + 1;
        self.table
            .shared
            .fetch_max::<Raise>(&mut seat.seat, 0, stamp);
        seat.seen = stamp;
        Ok(stamp)
    }

    /// Makes the word and the seat see a stamp: both are at least there then.
    pub fn observe(&self, seat: &mut ClockSeat, stamp: u64)
        requires clock { seat.old.clock ≡ self.now }
        requires stamp { stamp < 2 ^ 63 }
        ensures seen { seat.new.seen ≡ max stamp seat.old.seen }
        ensures raised { seat.new.raised ≡ max seat.old.raised stamp }
        ensures same { (seat.new.clock ≡ self.now) × (seat.new.loaded ≡ seat.old.loaded) }
    {
        self.table
            .shared
            .fetch_max::<Raise>(&mut seat.seat, 0, stamp);
        seat.seen = seat.seen.max(stamp);
    }
}

impl ClockSeat {
    /// The greatest stamp that it has seen.
    pub fn seen(&self) -> u64
        ensures seen { result ≡ self.now.seen }
        ensures within { result < 2 ^ 63 }
    {
        self.seen
    }

    /// Has seen a stamp that it was told of, with no step of the clock. A stamp past the last one is refused with
    /// `ClockFull`, and changes nothing.
    pub fn meet(&mut self, stamp: u64) -> Result<(), ClockFull>
        ensures met { OnOk result ((stamp < 2 ^ 63)
            × (self.new ≡ record self.old { seen = max stamp self.old.seen })) }
        ensures full { OnErr result ((2 ^ 63 ≤ stamp) × (self.new ≡ self.old)) }
    {
        if stamp > LAST_STAMP {
            return Err(ClockFull);
        }
        self.seen = self.seen.max(stamp);
        Ok(())
    }
}

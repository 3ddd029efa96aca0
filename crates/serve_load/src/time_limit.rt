// The limit of time of a load.
ghost use Rattle.std.specs.Prelude.{◌≡◌, ◌≢◌, ◌↔◌, ◌<◌, ◌≤◌, ◌+◌, ◌*◌, IsTrue, false, true};
ghost use Rattle.std.specs.Duration.{as_nanos};
ghost use Rattle.serve_load.specs.Limits.{IsFresh};

use std::time::{Clock, Duration, Instant};

/// The limit of time of a load, as a caller asks for it before each operation. The clock is the one that the load is timed by, which
/// never goes back.
#[derive(Clone, Copy)]
pub(crate) struct TimeLimit {
    start: Instant,
    /// So many seconds after the start of the load; 0 for no limit.
    pub(crate) seconds: u32,
    /// How often it was told that time is left.
    pub(crate) left: u32,
    /// Whether it was told that the time is over.
    pub(crate) is_over: bool,
}

impl TimeLimit {
    /// So many seconds from this start on, of which nobody was told anything.
    pub(crate) fn new(start: Instant, seconds: u32) -> TimeLimit
        ensures { IsFresh seconds result }
    {
        TimeLimit {
            start,
            seconds,
            left: 0,
            is_over: false,
        }
    }

    /// Tells whether the time is over. A clock that fails tells no end.
    pub(crate) fn tell<R: Clock>(&mut self, rt: &R) -> bool
        requires few { self.old.left < 4294967295 }
        requires unended { self.old.is_over ≡ false }
        ensures told { self.new.is_over ≡ result }
        ensures over { result ≡ true → self.new.left ≡ self.old.left }
        ensures left { result ≡ false → self.new.left ≡ self.old.left + 1 }
        ensures limited { result ≡ true → self.old.seconds ≢ 0 }
        ensures seconds { self.new.seconds ≡ self.old.seconds }
    {
        self.is_over = self.is_reached(rt);
        if !self.is_over {
            self.left += 1;
        }
        self.is_over
    }

    /// Whether the clock tells that the time is over. It is not asked if there is no limit.
    fn is_reached<R: Clock>(&self, rt: &R) -> bool
        ensures { result ≡ true → self.now.seconds ≢ 0 }
    {
        if self.seconds == 0 {
            return false;
        }
        match self.start.elapsed(rt) {
            Ok(taken) => reaches(taken, self.seconds),
            Err(_) => false,
        }
    }
}

/// Whether so many seconds or more were taken.
fn reaches(taken: Duration, seconds: u32) -> bool
    ensures { IsTrue result ↔ (seconds * 1000000000 ≤ as_nanos taken) }
{
    taken.as_secs() >= u64::from(seconds)
}

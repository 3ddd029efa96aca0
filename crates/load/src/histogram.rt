// How long calls took.
ghost use Rattle.std.specs.Prelude.{◌≡◌, ℕ, ◌+◌, ◌<◌, ◌≤◌, ◌++◌, ◌∷◌, [], List, IfOk, length, min};
ghost use Rattle.load.specs.Cells.{longest};
ghost use Rattle.load.specs.Holding.{Holds, most_times};
ghost use Rattle.load.specs.Quantile.{IsQuantile, greatest};

use crate::cells::{LONGEST, add_counts, cell_of, cell_with, tops, zeros};
use crate::times::{Times, note_added, note_merged};
use crate::times_step::TimesStep;
use std::alloc::{AllocError, Global};
use std::marker::Model;

/// How many times a histogram takes at most.
pub const MOST_TIMES: u64 = 9_007_199_254_740_992;

/// How long calls took, in nanoseconds. Clauses see the list of the times, in the order in which they were added.
///
/// Times are counted in cells whose width grows with the time, as in HdrHistogram (Tene). So its memory stays the same,
/// some 14 kB, and a percentile is exact to a thirty-second part.
#[derive(Drop)]
pub struct Histogram {
    tops: Vec<u64>,
    counts: Vec<u64>,
    len: u64,
    most: u64,
    times: Times,
}

impl Model for Histogram {
    ghost Value = { List ℕ };

    ghost view = { λ h. h.times.times };

    ghost invariant = { λ h. Holds h.tops.items h.counts.items h.len h.most h.times.times };
}

/// Four figures of a histogram, in nanoseconds: the times that 500, 990, 999 and all of 1000 calls do not exceed.
#[derive(Clone, Copy, PartialEq, Eq)]
pub struct Quantiles {
    pub p50: u64,
    pub p99: u64,
    pub p999: u64,
    pub most: u64,
}

impl Histogram {
    /// A histogram of no times. It is an error only if memory runs out.
    pub fn new(alloc: Global) -> Result<Histogram, AllocError>
        ensures { IfOk result (λ made. made ≡ []) }
    {
        let tops = tops(alloc)?;
        let counts = zeros(alloc, tops.len())?;
        Ok(Histogram {
            tops,
            counts,
            len: 0,
            most: 0,
            times: Times::after(&TimesStep::Begun),
        })
    }

    /// Adds a time in nanoseconds: one above `LONGEST` counts as `LONGEST`. It takes no more than `MOST_TIMES`.
    pub fn add(&mut self, nanoseconds: u64)
        ensures added { length self.old < most_times
            → self.new ≡ self.old ++ min nanoseconds longest ∷ [] }
        ensures full { most_times ≤ length self.old → self.new ≡ self.old }
    {
        if self.len >= MOST_TIMES {
            return;
        }
        let time = nanoseconds.min(LONGEST);
        let cell = cell_of(&self.tops, time);
        self.counts[cell] += 1;
        self.len += 1;
        self.most = self.most.max(time);
        note_added(&mut self.times, time);
    }

    /// Adds the times of another histogram, unless they would be more than `MOST_TIMES`.
    pub fn merge(&mut self, other: &Histogram)
        ensures merged { length self.old + length other.now ≤ most_times
            → self.new ≡ self.old ++ other.now }
        ensures full { most_times < length self.old + length other.now → self.new ≡ self.old }
    {
        if self.len + other.len > MOST_TIMES {
            return;
        }
        add_counts(&mut self.counts, &other.counts);
        self.len += other.len;
        self.most = self.most.max(other.most);
        note_merged(&mut self.times, &other.times);
    }

    /// How many times were added.
    pub fn len(&self) -> u64
        ensures { result ≡ length self.now }
    {
        self.len
    }

    /// The longest time in nanoseconds, 0 of none.
    pub fn most(&self) -> u64
        ensures { result ≡ greatest self.now }
    {
        self.most
    }

    /// The time in nanoseconds that this many thousandths of the times do not exceed, 0 of no times. It is the greatest
    /// time of a cell, or the longest time that was added.
    pub fn quantile(&self, thousandths: u32) -> u64
        requires some { 0 < thousandths }
        requires within { thousandths ≤ 1000 }
        ensures { IsQuantile self.now thousandths result }
    {
        if self.len == 0 {
            return 0;
        }
        let cell = cell_with(&self.counts, thousandths as u64 * self.len);
        self.tops[cell].min(self.most)
    }

    /// The four figures.
    pub fn quantiles(&self) -> Quantiles
        ensures p50 { IsQuantile self.now 500 result.p50 }
        ensures p99 { IsQuantile self.now 990 result.p99 }
        ensures p999 { IsQuantile self.now 999 result.p999 }
        ensures most { result.most ≡ greatest self.now }
    {
        Quantiles {
            p50: self.quantile(500),
            p99: self.quantile(990),
            p999: self.quantile(999),
            most: self.most(),
        }
    }
}

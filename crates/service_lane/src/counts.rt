// How often a lane did what.
ghost use Rattle.std.specs.Prelude.{◌≡◌};

use crate::counter::Counter;

/// How many counters there are.
pub const COUNTERS: usize = 36;

/// How often a lane did what since it was opened, or lanes together: a number for each `Counter`, modulo 2^64.
#[derive(Clone, Copy, PartialEq, Eq)]
pub struct Counts {
    numbers: [u64; COUNTERS],
}

impl Counts {
    ghost use Rattle.service_lane.specs.Counters.{no_counts, number, with_more, with_one, with_one_if, together};

    /// Nothing was done.
    pub fn none() -> Counts
        ensures { result ≡ no_counts }
    {
        Counts {
            numbers: [0; COUNTERS],
        }
    }

    /// The number of a counter.
    pub fn of(&self, counter: Counter) -> u64
        ensures { result ≡ number counter self.now }
    {
        self.numbers[counter.place()]
    }

    /// Adds to the number of a counter.
    pub fn add(&mut self, counter: Counter, more: u64)
        ensures { self.new ≡ with_more more counter self.old }
    {
        let place = counter.place();
        self.numbers[place] = self.numbers[place].wrapping_add(more);
    }

    /// Counts one more.
    pub(crate) fn count(&mut self, counter: Counter)
        ensures { self.new ≡ with_one counter self.old }
    {
        self.add(counter, 1);
    }

    /// Counts one more of a counter, if there is one.
    pub(crate) fn count_if(&mut self, counter: Option<Counter>)
        ensures { self.new ≡ with_one_if counter self.old }
    {
        if let Some(counter) = counter {
            self.count(counter);
        }
    }

    /// The counts of both together, each number modulo 2^64.
    pub fn together(&self, other: &Counts) -> Counts
        ensures { result ≡ together self.now other.now }
    {
        let mut numbers = [0; COUNTERS];
        for place in 0..COUNTERS {
            numbers[place] = self.numbers[place].wrapping_add(other.numbers[place]);
        }
        Counts { numbers }
    }
}

//! Histograms of times, through public calls. The functions are rows: their clauses deny wrong bodies of the calls that they make.
ghost use Rattle.std.specs.Prelude.{◌≡◌, []};

use load::{Histogram, LONGEST};
use std::test::Fail;

/// Half of a short and a long time do not exceed the short one: neither the next cell nor the longest time is answered.
fn half_of_two(histogram: &mut Histogram) -> u64
    requires { histogram.old ≡ [] }
    ensures { result ≡ 1 }
{
    histogram.add(1);
    histogram.add(64);
    histogram.quantile(500)
}

/// More than half of them do not exceed the long one only: the cell before is not answered.
fn more_than_half_of_two(histogram: &mut Histogram) -> u64
    requires { histogram.old ≡ [] }
    ensures { result ≡ 64 }
{
    histogram.add(64);
    histogram.add(1);
    histogram.quantile(501)
}

/// A percentile is not above the longest time, as the end of its cell may be.
fn all_of_one(histogram: &mut Histogram) -> u64
    requires { histogram.old ≡ [] }
    ensures { result ≡ 100 }
{
    histogram.add(100);
    histogram.quantile(1000)
}

/// A histogram to which another one was added has the times of both.
fn merged_longest(histogram: &mut Histogram, other: &mut Histogram) -> (u64, u64)
    requires none { histogram.old ≡ [] }
    requires other_none { other.old ≡ [] }
    ensures { result ≡ (2, 9) }
{
    histogram.add(7);
    other.add(9);
    histogram.merge(other);
    (histogram.len(), histogram.most())
}

#[test]
fn a_histogram_tells_its_times(rt: HostRuntime) -> Result<(), Fail> {
    let alloc = rt.alloc();
    assert!(rt;
        half_of_two(&mut Histogram::new(alloc)?) == 1
            && more_than_half_of_two(&mut Histogram::new(alloc)?) == 64
            && all_of_one(&mut Histogram::new(alloc)?) == 100
    );
    let merged = merged_longest(&mut Histogram::new(alloc)?, &mut Histogram::new(alloc)?);
    assert!(rt; merged.0 == 2 && merged.1 == 9);
    Ok(())
}

#[test]
fn a_longer_time_than_the_longest_counts_as_that(rt: HostRuntime) -> Result<(), Fail> {
    let mut histogram = Histogram::new(rt.alloc())?;
    assert!(rt; histogram.quantiles().most == 0);
    histogram.add(18446744073709551615);
    assert!(rt; histogram.quantiles().p50 == LONGEST);
    Ok(())
}

// The cells of a histogram, by their greatest times.
ghost use Rattle.std.specs.Prelude.{◌≡◌, ℕ, ◌+◌, ◌*◌, ◌<◌, ◌≤◌, IfOk, length, take, slice_index};
ghost use Rattle.std.specs.List.{sum};
ghost use Rattle.load.specs.Cells.{AreTops, longest, next_top, top_of};
ghost use Rattle.load.specs.Holding.{most_times};

use std::alloc::{AllocError, Global};

/// The greatest time that is told apart, in nanoseconds, about 18 minutes: a longer one counts as this one.
pub const LONGEST: u64 = 1_099_511_627_776;

/// The greatest time of the cell after that with the greatest time `top`.
fn next_top(top: u64) -> u64
    requires { top ≤ longest }
    ensures { result ≡ next_top top }
{
    LONGEST.min(top + (top / 32).max(1))
}

/// The greatest times of all cells, in order.
pub(crate) fn tops(alloc: Global) -> Result<Vec<u64>, AllocError>
    ensures { IfOk result (λ made. AreTops made.items) }
{
    let mut tops = Vec::new(alloc);
    let mut top: u64 = 1;
    while top < LONGEST {
        tops.push(top)?;
        top = next_top(top);
    }
    tops.push(top)?;
    Ok(tops)
}

/// A count of zero for each cell.
pub(crate) fn zeros(alloc: Global, cells: usize) -> Result<Vec<u64>, AllocError>
    ensures len { IfOk result (λ made. length made.items ≡ cells) }
    ensures none { IfOk result (λ made. (cell : ℕ) → sum (take cell made.items) ≡ 0) }
{
    let mut counts = Vec::new(alloc);
    for _ in 0..cells {
        counts.push(0)?;
    }
    Ok(counts)
}

/// The cell of a time: the first one whose top is not below it.
pub(crate) fn cell_of(tops: &[u64], time: u64) -> usize
    requires tops_are { AreTops tops.now }
    requires short { time ≤ longest }
    ensures inside { result < length tops.now }
    ensures reached { time ≤ top_of result }
    ensures below { (cell : ℕ) → cell < result → top_of cell < time }
{
    let (mut low, mut high) = (0, tops.len() - 1);
    while low < high {
        let middle = low + (high - low) / 2;
        if tops[middle] < time {
            low = middle + 1;
        } else {
            high = middle;
        }
    }
    low
}

/// The first cell up to which the counts, a thousand times each, sum to `share`.
pub(crate) fn cell_with(counts: &[u64], share: u64) -> usize
    requires few { sum counts.now ≤ most_times }
    requires some { 0 < share }
    requires enough { share ≤ 1000 * sum counts.now }
    ensures inside { result < length counts.now }
    ensures reached { share ≤ 1000 * sum (take (result + 1) counts.now) }
    ensures below { (cell : ℕ) → cell < result → 1000 * sum (take (cell + 1) counts.now) < share }
{
    let (mut cell, mut seen) = (0, counts[0]);
    while 1000 * seen < share {
        cell += 1;
        seen += counts[cell];
    }
    cell
}

/// Adds the counts of the same cells.
pub(crate) fn add_counts(counts: &mut [u64], more: &[u64])
    requires alike { length more.now ≡ length counts.old }
    requires few { sum counts.old + sum more.now ≤ most_times }
    ensures len { length counts.new ≡ length counts.old }
    ensures sums { (cell : ℕ) → cell ≤ length counts.old
        → sum (take cell counts.new) ≡ sum (take cell counts.old) + sum (take cell more.now) }
{
    for cell in 0..counts.len() {
        counts[cell] += more[cell];
    }
}

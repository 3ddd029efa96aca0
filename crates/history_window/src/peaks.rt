// Peaks in order, and the greatest height before a number.
ghost use Rattle.std.specs.Prelude.{◌<◌, ◌↔◌, IfOk, IsTrue, length};
ghost use Rattle.std.specs.List.Sorted.{IsNonDecreasingBy};
ghost use Rattle.certificate_finder.specs.Writing.{IsSplitBelow};
ghost use Rattle.history_window.specs.Peaks.{AreTops, foot_of};

use crate::peak::{Peak, peak_at};
use crate::ranks::rank_at;
use std::alloc::{AllocError, Global};

/// Peaks in order.
#[derive(Drop)]
pub(crate) struct Peaks {
    /// The peaks, by where they stand.
    pub(crate) items: Vec<Peak>,
    /// For each the greatest height up to it.
    pub(crate) tops: Vec<u128>,
}

impl Peaks {
    ghost use Rattle.history_window.specs.Peaks.{ArePeaks, AreRaised, IsCovered, IsHeightBefore};
    ghost use Rattle.history_window.specs.Ranks.{IsGreatest};

    /// These in order.
    pub(crate) fn of(alloc: Global, made: Vec<Peak>) -> Result<Peaks, AllocError>
        ensures { IfOk result (ArePeaks made.items) }
    {
        let mut items = made;
        items.sort_unstable_by_key(|peak| peak.foot);
        let tops = tops_of(alloc, items.as_slice())?;
        Ok(Peaks { items, tops })
    }

    /// The greatest height of those that stand before a limit.
    pub(crate) fn top_before(&self, limit: u128) -> Option<u128>
        requires { AreRaised self.now }
        ensures { IsGreatest (IsHeightBefore self.now.items.items limit) result }
    {
        let items = self.items.as_slice();
        let count = peaks_before(items, limit);
        if count == 0 {
            return None;
        }
        let tops = self.tops.as_slice();
        Some(rank_at(tops, count - 1))
    }

    /// Whether one of them stands before a number and is at least as high.
    pub(crate) fn covers(&self, number: u128) -> bool
        requires { AreRaised self.now }
        ensures { IsTrue result ↔ IsCovered self.now.items.items number }
    {
        match self.top_before(number) {
            Some(top) => number <= top,
            None => false,
        }
    }
}

/// For each of these peaks the greatest height up to it.
fn tops_of(alloc: Global, peaks: &[Peak]) -> Result<Vec<u128>, AllocError>
    ensures { IfOk result (λ tops. AreTops peaks.now (length peaks.now) tops.items) }
{
    let mut tops = Vec::new(alloc);
    let mut top = 0;
    for index in 0..peaks.len() {
        let peak = peak_at(peaks, index);
        top = peak.height.max(top);
        tops.push(top)?;
    }
    Ok(tops)
}

/// How many peaks stand before a limit.
fn peaks_before(peaks: &[Peak], limit: u128) -> usize
    requires { IsNonDecreasingBy foot_of peaks.now }
    ensures { IsSplitBelow foot_of peaks.now limit result }
{
    peaks.partition_point(|peak| peak.foot < limit)
}

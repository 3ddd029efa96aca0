// Where the parts of a picture lie, in pixels.
ghost use Rattle.std.specs.Prelude.{◌≡◌, ◌^◌, ◌<◌, ◌++◌, IfOk, OnOk, slice_get};
ghost use Rattle.std.specs.List.{flat_map};
ghost use Rattle.history_picture.specs.Drawings.{AreCallers, IsDrawing, callers_at};
ghost use Rattle.history_picture.specs.Names.{names_of};
ghost use Rattle.history_picture.specs.Layout.{across, axis_of, height_of, right_end, top_of, width_of, x_of, y_of};
ghost use Rattle.history_picture.specs.Pictures.{next_at, next_of};

use crate::axis::times_width;
use crate::call_at::call_at;
use crate::columns::{NEVER_ENDED, column_of};
use crate::scene::Scene;
use crate::sheet::Sheet;
use std::alloc::{AllocError, Global};
use trace_file::History;

/// The width of a column.
const COLUMN: u128 = 24;
/// The height of a caller's row.
const ROW: u128 = 46;
/// The width of a letter.
pub(crate) const LETTER: u128 = 8;
/// The height of a line of the sentence, or of a label.
pub(crate) const LINE: u128 = 18;

/// Where the parts of a picture lie.
#[derive(Drop)]
pub struct Drawing {
    /// The stamps that have columns, and the width of callers' names.
    pub sheet: Sheet,
    /// The callers, a row each.
    pub callers: Vec<u16>,
    /// How many lines of the sentence follow the first one.
    pub feeds: usize,
    /// How many calls have a label.
    pub labels: usize,
    /// How many signs the longest time of the axis has.
    pub times: usize,
}

impl Drawing {
    /// The places for the calls at these positions, under a sentence with this many line feeds, and this many labels.
    pub(crate) fn of(
        alloc: Global,
        scene: &Scene<'_>,
        shown: &[u32],
        feeds: usize,
        labels: usize,
    ) -> Result<Drawing, AllocError>
        ensures calls { IfOk result (λ drawing. IsDrawing scene.now.history.now scene.now.lines.now
            (names_of scene.now.callers.now) shown.now drawing) }
        ensures feeds { IfOk result (λ drawing. drawing.feeds ≡ feeds) }
        ensures labels { IfOk result (λ drawing. drawing.labels ≡ labels) }
    {
        let sheet = Sheet::of(alloc, scene, shown)?;
        let callers = callers_of(alloc, scene.history, shown)?;
        let times = times_width(alloc, sheet.stamps.as_slice())?;
        Ok(Drawing {
            sheet,
            callers,
            feeds,
            labels,
            times,
        })
    }

    /// Where a column lies.
    pub(crate) fn across(&self, column: usize) -> u128
        ensures at { result ≡ across self.now column }
        ensures small { result < 2 ^ 80 }
    {
        COLUMN * column as u128 + LETTER * self.sheet.callers as u128 + 32
    }

    /// Where the columns end.
    fn right(&self) -> u128
        ensures at { result ≡ right_end self.now }
        ensures small { result < 2 ^ 81 }
    {
        self.across(self.sheet.stamps.len()) + 2 * COLUMN
    }

    /// The width.
    pub(crate) fn width(&self) -> u128
        ensures is { result ≡ width_of self.now }
    {
        (self.right() + 16).max(800)
    }

    /// Where the rows begin: under the lines of the sentence, and those of the labels.
    pub(crate) fn top(&self) -> u128
        ensures at { result ≡ top_of self.now }
        ensures small { result < 2 ^ 75 }
    {
        LINE * (self.feeds as u128 + self.labels as u128) + 36
    }

    /// Where the times are written, under the rows.
    pub(crate) fn axis_top(&self) -> u128
        ensures at { result ≡ axis_of self.now }
        ensures small { result < 2 ^ 80 }
    {
        ROW * self.callers.len() as u128 + self.top() + 8
    }

    /// The height.
    pub(crate) fn height(&self) -> u128
        ensures is { result ≡ height_of self.now }
    {
        self.axis_top() + LETTER * self.times as u128 + 40
    }

    /// Where a stamp lies: at the end of the columns what never comes.
    pub(crate) fn x(&self, stamp: u64) -> u128
        ensures at { result ≡ x_of self.now stamp }
        ensures small { result < 2 ^ 81 }
    {
        if stamp == NEVER_ENDED {
            return self.right();
        }
        self.across(column_of(self.sheet.stamps.as_slice(), stamp))
    }

    /// Where the bars of a caller lie.
    pub(crate) fn y(&self, caller: u16) -> u128
        ensures at { result ≡ y_of self.now caller }
        ensures small { result < 2 ^ 80 }
    {
        let before = self.callers.iter().filter(|other| **other < caller).count();
        ROW * before as u128 + self.top() + 20
    }

    /// Where the next of these calls of a caller starts after a stamp, or the columns end.
    pub(crate) fn next(&self, history: &History, caller: u16, start: u64, shown: &[u32]) -> u128
        ensures { result ≡ next_of self.now history.now caller start shown.now }
    {
        let mut next = self.right();
        for position in shown {
            next = next.min(self.next_at(history, caller, start, *position));
        }
        next
    }

    /// Where the call at a position starts, if it is a caller's and after a stamp, otherwise the columns end.
    fn next_at(&self, history: &History, caller: u16, start: u64, position: u32) -> u128
        ensures { result
            ≡ next_at self.now caller start (slice_get history.now position) }
    {
        let Some(other) = call_at(history, position) else {
            return self.right();
        };
        if other.caller == caller && start < other.start {
            return self.x(other.start);
        }
        self.right()
    }
}

/// The callers of the calls at these positions, each once and rising.
fn callers_of(alloc: Global, history: &History, shown: &[u32]) -> Result<Vec<u16>, AllocError>
    ensures { IfOk result (λ callers. AreCallers history.now shown.now callers.items) }
{
    let mut callers = all_callers(alloc, history, shown)?;
    callers.sort_unstable();
    callers.dedup();
    Ok(callers)
}

/// The callers of the calls at these positions.
fn all_callers(alloc: Global, history: &History, shown: &[u32]) -> Result<Vec<u16>, AllocError>
    ensures { IfOk result (λ callers.
        callers.items ≡ flat_map (callers_at history.now) shown.now) }
{
    let mut callers: Vec<u16> = Vec::new(alloc);
    for position in shown {
        push_caller(&mut callers, history, *position)?;
    }
    Ok(callers)
}

/// Appends the caller of the call at a position.
fn push_caller(callers: &mut Vec<u16>, history: &History, position: u32) -> Result<(), AllocError>
    ensures { OnOk result (
        callers.new.items ≡ callers.old.items ++ callers_at history.now position) }
{
    let Some(call) = call_at(history, position) else {
        return Ok(());
    };
    callers.push(call.caller)?;
    Ok(())
}

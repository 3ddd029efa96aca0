// Which calls are shown.
ghost use Rattle.std.specs.Prelude.{◌≡◌, ◌≤◌, IfOk, OnOk, length};
ghost use Rattle.history_picture.specs.Shown.{AreShown, AreTaken, started};
ghost use Rattle.history_picture.specs.Chosen.{AreAdded, AreChosen, IsTakenNew, IsTakenUp};

use crate::call_at::call_at;
use crate::near::{is_among, nearest};
use std::alloc::{AllocError, Global};
use trace_file::History;

/// The most calls that an explanation or a picture shows.
pub(crate) const MOST_CALLS: usize = 24;

/// The positions of the calls that are shown if these matter, by their starts: these, and the calls of the first one's
/// key that are nearest to it in time, at most `most` in all.
pub(crate) fn shown(
    alloc: Global,
    history: &History,
    marks: &[u32],
    most: usize,
) -> Result<Vec<u32>, AllocError>
    requires { length marks.now ≤ most }
    ensures { IfOk result (λ shown. AreShown history.now marks.now most shown.items) }
{
    let mut shown = taken(alloc, history, marks, most)?;
    shown.sort_unstable_by_key(|position| start_of(history, *position));
    Ok(shown)
}

/// The same, in any order.
fn taken(
    alloc: Global,
    history: &History,
    marks: &[u32],
    most: usize,
) -> Result<Vec<u32>, AllocError>
    requires { length marks.now ≤ most }
    ensures { IfOk result (λ shown. AreTaken history.now marks.now most shown.items) }
{
    let mut shown = marked(alloc, history, marks)?;
    let Some(first) = marks.first() else {
        return Ok(shown);
    };
    push_nearest(alloc, history, *first, &mut shown, most)?;
    Ok(shown)
}

/// The positions that matter and have a call, each once.
fn marked(alloc: Global, history: &History, marks: &[u32]) -> Result<Vec<u32>, AllocError>
    ensures { IfOk result (λ shown. AreChosen history.now marks.now shown.items) }
{
    let mut shown: Vec<u32> = Vec::new(alloc);
    for mark in marks {
        take_up(history, &mut shown, *mark)?;
    }
    Ok(shown)
}

/// Takes a position up, if it has a call and was not taken up before.
fn take_up(history: &History, shown: &mut Vec<u32>, mark: u32) -> Result<(), AllocError>
    ensures { OnOk result (IsTakenUp history.now mark shown.old.items shown.new.items) }
{
    if (mark as usize) < history.len() {
        take_new(shown, mark)?;
        return Ok(());
    }
    Ok(())
}

/// Takes a position up, if it was not taken up before.
fn take_new(shown: &mut Vec<u32>, mark: u32) -> Result<(), AllocError>
    ensures { OnOk result (IsTakenNew mark shown.old.items shown.new.items) }
{
    let has = is_among(shown.as_slice(), mark);
    if has {
        return Ok(());
    }
    shown.push(mark)?;
    Ok(())
}

/// Puts the calls that are nearest to a call, of its key, after those that are shown.
fn push_nearest(
    alloc: Global,
    history: &History,
    first: u32,
    shown: &mut Vec<u32>,
    most: usize,
) -> Result<(), AllocError>
    requires { length shown.old.items ≤ most }
    ensures { OnOk result (AreAdded history.now first most shown.old.items shown.new.items) }
{
    let Some(call) = call_at(history, first) else {
        return Ok(());
    };
    let room = most.saturating_sub(shown.len());
    let near = nearest(alloc, history, &call, shown.as_slice(), room)?;
    shown.extend_from_slice(near.as_slice())?;
    Ok(())
}

/// The start of the call at a position, 0 if there is none.
pub(crate) fn start_of(history: &History, position: u32) -> u64
    ensures { result ≡ started history.now position }
{
    match call_at(history, position) {
        Some(call) => call.start,
        None => 0,
    }
}

// Calls of a history, and their lines, by positions.
ghost use Rattle.std.specs.Prelude.{◌≡◌, ◌∷◌, ◌++◌, [], IfOk, OnOk, slice_get};
ghost use Rattle.std.specs.List.{filter_map};

use std::alloc::{AllocError, Global};
use trace_file::History;

/// The calls at these positions, copied in their order. A position at which no call stands is passed over. If memory is refused, nothing was made.
pub fn history_at(
    alloc: Global,
    history: &History,
    positions: &[u32],
) -> Result<History, AllocError>
    ensures { IfOk result (λ calls. calls ≡ filter_map (slice_get history.now) positions.now) }
{
    let mut calls = History::new(alloc);
    for position in positions {
        push_at(&mut calls, history, *position as usize)?;
    }
    Ok(calls)
}

/// Puts the call at a position, if there is one, after the others.
fn push_at(calls: &mut History, history: &History, position: usize) -> Result<(), AllocError>
    ensures { OnOk result (calls.new
        ≡ calls.old ++ filter_map (slice_get history.now) (position ∷ [])) }
{
    if position < history.len() {
        calls.push_ref(&history.at(position))?;
    }
    Ok(())
}

/// The lines at these positions. A position at which no line stands is passed over.
pub(crate) fn lines_at(
    alloc: Global,
    lines: &[u64],
    positions: &[u32],
) -> Result<Vec<u64>, AllocError>
    ensures { IfOk result (λ kept. kept.items ≡ filter_map (slice_get lines.now) positions.now) }
{
    let mut kept = Vec::new(alloc);
    for position in positions {
        push_line_at(&mut kept, lines, *position as usize)?;
    }
    Ok(kept)
}

/// Puts the line at a position, if there is one, after the others.
fn push_line_at(kept: &mut Vec<u64>, lines: &[u64], position: usize) -> Result<(), AllocError>
    ensures { OnOk result (kept.new.items
        ≡ kept.old.items ++ filter_map (slice_get lines.now) (position ∷ [])) }
{
    if position < lines.len() {
        kept.push(lines[position])?;
    }
    Ok(())
}

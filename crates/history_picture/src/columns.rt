// The columns of stamps.
ghost use Rattle.std.specs.Prelude.{◌≡◌, ◌++◌, IfOk, OnOk, string_bytes};
ghost use Rattle.std.specs.List.{flat_map};
ghost use Rattle.history_picture.specs.Rows.{bar_text, column};
ghost use Rattle.history_picture.specs.Scale.{IsScale, stamps_at};

use crate::blanks::{Blanks, Dashes};
use crate::call_at::call_at;
use std::alloc::{AllocError, Global};
use trace_file::History;

/// The end of a call that never returned.
pub(crate) const NEVER_ENDED: u64 = u64::MAX;

/// The starts and the ends of calls, each once and rising. A call that never returned gives no end.
pub(crate) fn stamps_of(
    alloc: Global,
    history: &History,
    shown: &[u32],
) -> Result<Vec<u64>, AllocError>
    ensures { IfOk result (λ stamps. IsScale history.now shown.now stamps.items) }
{
    let mut stamps = all_stamps(alloc, history, shown)?;
    stamps.sort_unstable();
    stamps.dedup();
    Ok(stamps)
}

/// The starts and the ends of calls, one after the other.
fn all_stamps(alloc: Global, history: &History, shown: &[u32]) -> Result<Vec<u64>, AllocError>
    ensures { IfOk result (λ stamps.
        stamps.items ≡ flat_map (stamps_at history.now) shown.now) }
{
    let mut stamps: Vec<u64> = Vec::new(alloc);
    for position in shown {
        push_stamps(&mut stamps, history, *position)?;
    }
    Ok(stamps)
}

/// Appends the start and the end of the call at a position.
fn push_stamps(stamps: &mut Vec<u64>, history: &History, position: u32) -> Result<(), AllocError>
    ensures { OnOk result (
        stamps.new.items ≡ stamps.old.items ++ stamps_at history.now position) }
{
    let Some(call) = call_at(history, position) else {
        return Ok(());
    };
    stamps.push(call.start)?;
    if call.end == NEVER_ENDED {
        return Ok(());
    }
    stamps.push(call.end)?;
    Ok(())
}

/// The column of a stamp: how many of the stamps are below it.
#[tactic(auto, unfolding(crate::specs::Rows::column))]
pub(crate) fn column_of(stamps: &[u64], stamp: u64) -> usize
    ensures { result ≡ column stamps.now stamp }
{
    stamps.iter().filter(|other| **other < stamp).count()
}

/// The bar of a call: from the column of its start to that of its end, or on and on if it never returned.
#[tactic(auto, unfolding(crate::specs::Rows::bar_text))]
pub(crate) fn bar(alloc: Global, stamps: &[u64], start: u64, end: u64) -> Result<String, AllocError>
    ensures { IfOk result (λ text. string_bytes text ≡ bar_text stamps.now start end) }
{
    let first = column_of(stamps, start);
    if end == NEVER_ENDED {
        let dashes = stamps.len().saturating_sub(first);
        return format!(in alloc; "{}[{}>", Blanks(first), Dashes(dashes));
    }
    let last = column_of(stamps, end);
    if first < last {
        return format!(in alloc; "{}[{}]", Blanks(first), Dashes(last - first - 1));
    }
    if last < first {
        return format!(in alloc; "{}]{}[", Blanks(last), Dashes(first - last - 1));
    }
    format!(in alloc; "{}|", Blanks(first))
}

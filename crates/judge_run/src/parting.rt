// Parting the calls of a piece by whether they are decided.
ghost use Rattle.std.specs.Prelude.{◌≡◌, ◌++◌, [], IfOk, OnOk, length, not, true};
ghost use Rattle.history_window.specs.Streams.{IsPartedIf};
ghost use Rattle.judge_run.specs.Telling.{lines_at};

use crate::lined_calls::LinedCalls;
use crate::warming::add_line;
use history_text::{TextHistory, history_at};
use history_window::{past, recent};
use std::alloc::{AllocError, Global};
use std::hash::BuildHasher;

/// Leaves in a text the calls that are decided at a stamp, and hands out the hits that wait. If the input is over, none wait.
pub(crate) fn part_if<S: BuildHasher + Drop>(
    alloc: Global,
    text: &mut TextHistory<S>,
    over: bool,
    bound: u64,
) -> Result<LinedCalls, AllocError>
    requires { length text.old.lines.items ≡ length text.old.history }
    ensures parted { IfOk result (λ waiting. IsPartedIf (not over) bound text.old.history text.old.lines.items
        text.new.history text.new.lines.items waiting.history waiting.lines.items) }
    ensures callers { text.new.callers ≡ text.old.callers }
    ensures as_many { OnOk result (length text.new.lines.items ≡ length text.new.history) }
    ensures waiting { IfOk result (λ waiting. length waiting.lines.items ≡ length waiting.history) }
{
    if over {
        return Ok(LinedCalls::new(alloc));
    }
    match part(alloc, text, bound) {
        Ok(waiting) => Ok(waiting),
        Err(refused) => Err(refused),
    }
}

/// The same while more may come.
fn part<S: BuildHasher + Drop>(
    alloc: Global,
    text: &mut TextHistory<S>,
    bound: u64,
) -> Result<LinedCalls, AllocError>
    requires { length text.old.lines.items ≡ length text.old.history }
    ensures parted { IfOk result (λ waiting. IsPartedIf true bound text.old.history text.old.lines.items
        text.new.history text.new.lines.items waiting.history waiting.lines.items) }
    ensures callers { text.new.callers ≡ text.old.callers }
    ensures as_many { OnOk result (length text.new.lines.items ≡ length text.new.history) }
    ensures waiting { IfOk result (λ waiting. length waiting.lines.items ≡ length waiting.history) }
{
    let Ok(waits) = recent(alloc, &text.history, bound) else {
        return Err(AllocError);
    };
    let Ok(history) = history_at(alloc, &text.history, &waits) else {
        return Err(AllocError);
    };
    let Ok(lines) = lines_of(alloc, &text.lines, &waits) else {
        return Err(AllocError);
    };
    let Ok(stays) = past(alloc, &text.history, bound) else {
        return Err(AllocError);
    };
    match text.keep(alloc, &stays) {
        Ok(()) => Ok(LinedCalls { history, lines }),
        Err(refused) => Err(refused),
    }
}

/// The lines of the calls at these positions.
fn lines_of(alloc: Global, lines: &[u64], positions: &[u32]) -> Result<Vec<u64>, AllocError>
    ensures { IfOk result (λ all. all.items ≡ lines_at lines.now positions.now) }
{
    let mut all = Vec::new(alloc);
    for position in positions {
        match add_line(&mut all, lines, *position) {
            Ok(()) => {}
            Err(refused) => return Err(refused),
        }
    }
    Ok(all)
}

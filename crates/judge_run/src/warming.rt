// The text whose cache was filled before it begins.
ghost use Rattle.std.specs.Prelude.{◌≡◌, ◌++◌, ◌∷◌, [], IfOk, OnOk, Some, length, true};
ghost use Rattle.history_text.specs.Text.{text_by};
ghost use Rattle.judge_run.specs.Scopes.{IsWarmedIf};
ghost use Rattle.judge_run.specs.Telling.{lines_at};

use certificate_finder::warm_with_hasher;
use history_text::TextHistory;
use std::alloc::{AllocError, Global};
use std::hash::BuildHasher;
use std::mem::replace;
use trace_file::History;

/// Adds a put to a text for each value that is taken as there from the start, if that is wanted, and answers how many those are.
pub(crate) fn warm_if<S: BuildHasher + Copy + Drop>(
    alloc: Global,
    hash_builder: S,
    text: &mut TextHistory<S>,
    wanted: bool,
) -> Result<Option<usize>, AllocError>
    requires { length text.old.lines.items ≡ length text.old.history }
    ensures warmed { IfOk result (IsWarmedIf wanted
        (text_by text.old.history text.old.lines.items text.old.callers)
        (text_by text.new.history text.new.lines.items text.new.callers)) }
    ensures as_many { OnOk result (length text.new.lines.items ≡ length text.new.history) }
{
    if !wanted {
        return Ok(None);
    }
    match warm(alloc, hash_builder, text) {
        Ok(values) => Ok(Some(values)),
        Err(refused) => Err(refused),
    }
}

/// The same if it is wanted.
fn warm<S: BuildHasher + Copy + Drop>(
    alloc: Global,
    hash_builder: S,
    text: &mut TextHistory<S>,
) -> Result<usize, AllocError>
    requires { length text.old.lines.items ≡ length text.old.history }
    ensures warmed { IfOk result (λ values. IsWarmedIf true
        (text_by text.old.history text.old.lines.items text.old.callers)
        (text_by text.new.history text.new.lines.items text.new.callers) (Some values)) }
    ensures as_many { OnOk result (length text.new.lines.items ≡ length text.new.history) }
{
    let history = replace(&mut text.history, History::new(alloc));
    let Ok(warm) = warm_with_hasher(alloc, hash_builder, history) else {
        return Err(AllocError);
    };
    let Ok(lines) = with_lines(alloc, &text.lines, &warm.hits) else {
        return Err(AllocError);
    };
    let values = warm.hits.len();
    text.history = warm.history;
    text.lines = lines;
    Ok(values)
}

/// Lines, and after them those of the calls at these positions.
fn with_lines(alloc: Global, lines: &[u64], positions: &[u32]) -> Result<Vec<u64>, AllocError>
    ensures { IfOk result (λ all. all.items ≡ lines.now ++ lines_at lines.now positions.now) }
{
    let mut all = Vec::from_slice(alloc, lines)?;
    for position in positions {
        match add_line(&mut all, lines, *position) {
            Ok(()) => {}
            Err(refused) => return Err(refused),
        }
    }
    Ok(all)
}

/// Appends the line of the call at a position, if there is one.
pub(crate) fn add_line(all: &mut Vec<u64>, lines: &[u64], position: u32) -> Result<(), AllocError>
    ensures { OnOk result (all.new.items
        ≡ all.old.items ++ lines_at lines.now (position ∷ [])) }
{
    let place = position as usize;
    if place >= lines.len() {
        return Ok(());
    }
    match all.push(lines[place]) {
        Ok(()) => Ok(()),
        Err(_) => Err(AllocError),
    }
}

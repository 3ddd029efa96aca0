// Telling of the puts that were added for values that were there from the start.
ghost use Rattle.std.specs.Prelude.{◌≡◌, ◌++◌, ◌∷◌, [], IfOk, OnOk, string_bytes};
ghost use Rattle.figures.specs.Figures.{with_rows};
ghost use Rattle.judge_run.specs.FromStart.{added_among, start_lines, start_rows, start_sentence, start_text, start_why, start_words};

use crate::told_lines::{ascending_lines, positions_of};
use certificate_finder::Witness;
use figures::{Figure, Form};
use std::alloc::{AllocError, Global};

/// The lines of the hits that read first what was there from the start, of the values that a reason speaks of, if so many calls were
/// recorded; ascending and each once.
pub(crate) fn start_lines(
    alloc: Global,
    lines: &[u64],
    recorded: usize,
    witness: &Witness,
) -> Result<Vec<u64>, AllocError>
    ensures { IfOk result (λ told. told.items ≡ start_lines lines.now recorded witness.now) }
{
    let positions = positions_of(alloc, witness)?;
    let added = added_among(alloc, recorded, &positions)?;
    match ascending_lines(alloc, lines, &added) {
        Ok(told) => Ok(told),
        Err(refused) => Err(refused),
    }
}

/// Those of these positions at which puts were added, if so many calls were recorded.
fn added_among(alloc: Global, recorded: usize, positions: &[u32]) -> Result<Vec<u32>, AllocError>
    ensures { IfOk result (λ added. added.items ≡ added_among recorded positions.now) }
{
    let mut added = Vec::new(alloc);
    for position in positions {
        add_if_added(&mut added, recorded, *position)?;
    }
    Ok(added)
}

/// Appends a position if a put was added there.
fn add_if_added(added: &mut Vec<u32>, recorded: usize, position: u32) -> Result<(), AllocError>
    ensures { OnOk result (added.new.items
        ≡ added.old.items ++ added_among recorded (position ∷ [])) }
{
    if (position as usize) < recorded {
        return Ok(());
    }
    match added.push(position) {
        Ok(()) => Ok(()),
        Err(_) => Err(AllocError),
    }
}

/// What the line of a fault says of one of these lines.
#[tactic(auto, unfolding(crate::specs::FromStart::start_words))]
fn start_words(alloc: Global, line: u64) -> Result<String, AllocError>
    ensures { IfOk result (λ text. string_bytes text ≡ start_words line) }
{
    format!(in alloc; ", a value was there from the start, read in line {line}")
}

/// What the line of a fault says of these lines.
pub(crate) fn start_text(alloc: Global, lines: &[u64]) -> Result<String, AllocError>
    ensures { IfOk result (λ text. string_bytes text ≡ start_text lines.now) }
{
    let mut text = String::new(alloc);
    for line in lines {
        let words = start_words(alloc, *line)?;
        text.push_str(words.as_str())?;
    }
    Ok(text)
}

/// What is said of one of these lines after an explanation.
#[tactic(auto, unfolding(crate::specs::FromStart::start_sentence))]
fn start_sentence(alloc: Global, line: u64) -> Result<String, AllocError>
    ensures { IfOk result (λ text. string_bytes text ≡ start_sentence line) }
{
    format!(in alloc;
        "the put at 0 (line {line}) was not recorded: its value was there from the start, read in line {line}\n"
    )
}

/// What is said of these lines after an explanation.
pub(crate) fn start_why(alloc: Global, lines: &[u64]) -> Result<String, AllocError>
    ensures { IfOk result (λ text. string_bytes text ≡ start_why lines.now) }
{
    let mut text = String::new(alloc);
    for line in lines {
        let sentence = start_sentence(alloc, *line)?;
        text.push_str(sentence.as_str())?;
    }
    Ok(text)
}

/// Tells these lines, if there are any.
pub(crate) fn tell_start(
    alloc: Global,
    form: Form,
    text: &mut String,
    lines: &[u64],
) -> Result<(), AllocError>
    ensures { OnOk result (string_bytes text.new
        ≡ with_rows form (string_bytes text.old) (start_rows lines.now)) }
{
    if lines.is_empty() {
        return Ok(());
    }
    form.tell(alloc, text, "from-start-lines", Figure::Numbers(lines))
}

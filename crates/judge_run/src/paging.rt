// The page of a text that was judged.
ghost use Rattle.std.specs.Prelude.{◌≡◌, ◌++◌, IfOk, OnOk, option_map, string_bytes};
ghost use Rattle.std.specs.List.{flat_map};
ghost use Rattle.history_picture.specs.Names.{names_of};
ghost use Rattle.history_text.specs.Text.{text_by};
ghost use Rattle.judge_run.specs.Paged.{fault_words, page_if, page_of, page_report};

use crate::fault_lines::fault_text;
use crate::judged_text::JudgedText;
use crate::telling_rows::own_in;
use crate::text_answers::lines_of;
use crate::told_fault::ToldFault;
use history_page::page;
use history_picture::Scene;
use std::alloc::{AllocError, Global};
use std::hash::BuildHasher;

/// The line of a fault, and on the next one its sentence, if so many calls were recorded.
fn fault_words(
    alloc: Global,
    scene: &Scene<'_>,
    recorded: usize,
    fault: &ToldFault,
) -> Result<String, AllocError>
    ensures { IfOk result (λ text. string_bytes text
        ≡ fault_words scene.now.history.now scene.now.lines.now recorded fault.now) }
{
    let line = fault_text(alloc, scene.history, scene.lines, recorded, fault)?;
    let sentence = scene.witness_sentence(alloc, &fault.reason)?;
    format!(in alloc; "{line}{sentence}\n")
}

/// Appends these of each fault.
fn push_faults(
    alloc: Global,
    text: &mut String,
    scene: &Scene<'_>,
    recorded: usize,
    faults: &[ToldFault],
) -> Result<(), AllocError>
    ensures { OnOk result (string_bytes text.new ≡ string_bytes text.old
        ++ flat_map (fault_words scene.now.history.now scene.now.lines.now recorded) faults.now) }
{
    for fault in faults {
        let words = fault_words(alloc, scene, recorded, fault)?;
        text.push_str(words.as_str())?;
    }
    Ok(())
}

/// What a page tells of a text that was judged: the lines of its verdict, then its faults.
fn page_report<S: BuildHasher>(alloc: Global, judged: &JudgedText<S>) -> Result<String, AllocError>
    ensures { IfOk result (λ text. string_bytes text ≡ page_report judged.now.text.history
        judged.now.text.lines.items judged.now.extent judged.now.found judged.now.faults.faults.items) }
{
    let mut text = lines_of(alloc, judged)?;
    let scene = Scene {
        history: &judged.text.history,
        lines: &judged.text.lines,
        callers: &[],
    };
    let recorded = own_in(judged);
    match push_faults(alloc, &mut text, &scene, recorded, &judged.faults.faults) {
        Ok(()) => Ok(text),
        Err(refused) => Err(refused),
    }
}

/// The page of a text that was judged.
fn page_of<S: BuildHasher>(alloc: Global, judged: &JudgedText<S>) -> Result<Vec<u8>, AllocError>
    ensures { IfOk result (λ page. page.items ≡ page_of
        (text_by judged.now.text.history judged.now.text.lines.items judged.now.text.callers)
        judged.now.extent judged.now.found judged.now.faults.faults.items) }
{
    let scene = Scene {
        history: &judged.text.history,
        lines: &judged.text.lines,
        callers: judged.text.callers.names(),
    };
    let report = page_report(alloc, judged)?;
    let recorded = own_in(judged);
    match page(alloc, &scene, recorded, report.as_str()) {
        Ok(page) => Ok(page),
        Err(refused) => Err(refused),
    }
}

/// The same if it is wanted.
pub(crate) fn page_if<S: BuildHasher>(
    alloc: Global,
    is_wanted: bool,
    judged: &JudgedText<S>,
) -> Result<Option<Vec<u8>>, AllocError>
    ensures { IfOk result (λ page. option_map (λ bytes. bytes.items) page ≡ page_if is_wanted
        (text_by judged.now.text.history judged.now.text.lines.items judged.now.text.callers)
        judged.now.extent judged.now.found judged.now.faults.faults.items) }
{
    if !is_wanted {
        return Ok(None);
    }
    match page_of(alloc, judged) {
        Ok(page) => Ok(Some(page)),
        Err(refused) => Err(refused),
    }
}

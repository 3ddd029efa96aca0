// The lines of calls in a page.
ghost use Rattle.std.specs.Prelude.{◌≡◌, ◌<◌, ◌++◌, IfOk, OnOk, length, slice_get, string_bytes};
ghost use Rattle.trace_file.specs.Lent.{call_shown};
ghost use Rattle.history_picture.specs.Names.{names_of};
ghost use Rattle.history_page.specs.CallLines.{call_line, caller_word, calls_text, front_text, line_at, line_number, line_word};
ghost use Rattle.history_page.specs.Guarding.{guard};

use crate::guarding::push_guarded;
use history_picture::Scene;
use history_text::{act_text, end_text, word};
use std::alloc::{AllocError, Global};
use trace_file::CallRef;

/// The number of the line of the call at a position; its position if it has no line.
#[tactic(auto, using(std::proofs::lemmas::Option::slice_get_past))]
fn line_number(lines: &[u64], position: usize) -> usize
    ensures { result ≡ line_number (slice_get lines.now position) position }
{
    if position < lines.len() {
        lines[position] as usize
    } else {
        position
    }
}

/// A line's number as a word, after a plus if no call was recorded there.
fn line_word(alloc: Global, is_recorded: bool, line: usize) -> Result<String, AllocError>
    ensures { IfOk result (λ text. string_bytes text ≡ line_word is_recorded line) }
{
    if is_recorded {
        format!(in alloc; "{line}")
    } else {
        format!(in alloc; "+{line}")
    }
}

/// A caller by its name as a word, or by its number if it has no name.
fn caller_word(alloc: Global, names: &[Vec<u8>], caller: u16) -> Result<String, AllocError>
    ensures { IfOk result (λ text. string_bytes text
        ≡ caller_word (slice_get (names_of names.now) caller) caller) }
{
    let place = caller as usize;
    if place < names.len() {
        word(alloc, names[place].as_slice())
    } else {
        caller.to_string(alloc)
    }
}

/// What the line of a call begins with: the line where it was recorded, its caller and its stamps.
#[tactic(auto, unfolding(crate::specs::CallLines::front_text))]
fn front_text(
    alloc: Global,
    names: &[Vec<u8>],
    is_recorded: bool,
    line: usize,
    call: &CallRef<'_>,
) -> Result<String, AllocError>
    ensures { IfOk result (λ text. string_bytes text
        ≡ front_text (names_of names.now) is_recorded line (call_shown call.now)) }
{
    let line = line_word(alloc, is_recorded, line)?;
    let caller = caller_word(alloc, names, call.caller)?;
    let start = call.start;
    let end = end_text(alloc, call.end)?;
    format!(in alloc; "{line} {caller} {start} {end}")
}

/// The line of a call, with its line feed.
fn call_line(
    alloc: Global,
    names: &[Vec<u8>],
    is_recorded: bool,
    line: usize,
    call: &CallRef<'_>,
) -> Result<String, AllocError>
    ensures { IfOk result (λ text. string_bytes text
        ≡ call_line (names_of names.now) is_recorded line (call_shown call.now)) }
{
    let front = front_text(alloc, names, is_recorded, line, call)?;
    let key = word(alloc, call.key)?;
    match act_text(alloc, front.as_str(), key.as_str(), &call.act) {
        Ok(text) => Ok(text),
        Err(refused) => Err(refused),
    }
}

/// The line of the call at a position, if so many calls were recorded.
fn line_at(
    alloc: Global,
    scene: &Scene<'_>,
    recorded: usize,
    position: usize,
) -> Result<String, AllocError>
    requires { position < length scene.now.history.now }
    ensures { IfOk result (λ text. string_bytes text ≡ line_at scene.now.history.now
        scene.now.lines.now (names_of scene.now.callers.now) recorded position) }
{
    let line = line_number(scene.lines, position);
    let is_recorded = position < recorded;
    let call = scene.history.at(position);
    match call_line(alloc, scene.callers, is_recorded, line, &call) {
        Ok(text) => Ok(text),
        Err(refused) => Err(refused),
    }
}

/// Appends the same, guarded.
fn push_line(
    alloc: Global,
    page: &mut Vec<u8>,
    scene: &Scene<'_>,
    recorded: usize,
    position: usize,
) -> Result<(), AllocError>
    requires { position < length scene.now.history.now }
    ensures { OnOk result (page.new.items ≡ page.old.items ++ guard (line_at scene.now.history.now
        scene.now.lines.now (names_of scene.now.callers.now) recorded position)) }
{
    let line = line_at(alloc, scene, recorded, position)?;
    push_guarded(page, line.as_str())
}

/// Appends the lines of all calls, guarded.
pub(crate) fn push_calls(
    alloc: Global,
    page: &mut Vec<u8>,
    scene: &Scene<'_>,
    recorded: usize,
) -> Result<(), AllocError>
    ensures { OnOk result (page.new.items ≡ page.old.items ++ guard (calls_text scene.now.history.now
        scene.now.lines.now (names_of scene.now.callers.now) recorded)) }
{
    for position in 0..scene.history.len() {
        match push_line(alloc, page, scene, recorded, position) {
            Ok(()) => {}
            Err(refused) => return Err(refused),
        }
    }
    Ok(())
}

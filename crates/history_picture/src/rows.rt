// The lines of the calls that are shown.
ghost use Rattle.std.specs.Prelude.{◌≡◌, IfOk, slice_get, string_bytes};
ghost use Rattle.std.specs.List.{flat_map};
ghost use Rattle.trace_file.specs.Lent.{act_shown, call_shown};
ghost use Rattle.history_picture.specs.Names.{names_of};
ghost use Rattle.history_picture.specs.Rows.{act_name, back_text, caller_words, end_words, front_text, label_number, mark_words, row_text, times_text, value_words};

use crate::blanks::{padded_left, padded_right};
use crate::call_at::{call_at, line_at, name_at};
use crate::coded::coded;
use crate::columns::{NEVER_ENDED, bar};
use crate::near::is_among;
use crate::scene::Scene;
use crate::sheet::Sheet;
use std::alloc::{AllocError, Global};
use trace_file::{ActRef, CallRef};

/// A caller by its name, or by its number.
pub(crate) fn caller_name(
    alloc: Global,
    scene: &Scene<'_>,
    caller: u16,
) -> Result<String, AllocError>
    ensures { IfOk result (λ text. string_bytes text
        ≡ caller_words (slice_get (names_of scene.now.callers.now) caller) caller) }
{
    let Some(name) = name_at(scene.callers, caller) else {
        return caller.to_string(alloc);
    };
    coded(alloc, name)
}

/// The end of a call.
pub(crate) fn end_text(alloc: Global, end: u64) -> Result<String, AllocError>
    ensures { IfOk result (λ text. string_bytes text ≡ end_words end) }
{
    if end == NEVER_ENDED {
        return String::from_str(alloc, "-");
    }
    end.to_string(alloc)
}

/// The value that was put or read.
pub(crate) fn value_text(alloc: Global, act: &ActRef<'_>) -> Result<String, AllocError>
    ensures { IfOk result (λ text. string_bytes text ≡ value_words (act_shown act.now)) }
{
    match act {
        ActRef::Put(value, _) => coded(alloc, value),
        ActRef::Remove => Ok(String::new(alloc)),
        ActRef::Hit(value, _) => coded(alloc, value),
        ActRef::Miss => Ok(String::new(alloc)),
    }
}

/// What was done.
pub(crate) fn act_word(act: &ActRef<'_>) -> &'static str
    ensures { result.now ≡ act_name (act_shown act.now) }
{
    match act {
        ActRef::Put(..) => "put",
        ActRef::Remove => "remove",
        ActRef::Hit(..) => "hit",
        ActRef::Miss => "miss",
    }
}

/// The sign before a call that matters, or before one that doesn't.
fn mark_of(marks: &[u32], position: u32) -> &'static str
    ensures { result.now ≡ mark_words marks.now position }
{
    if is_among(marks, position) {
        "* "
    } else {
        "  "
    }
}

impl Scene<'_> {
    /// The number that tells where a call was recorded.
    pub(crate) fn label_number(&self, position: u32) -> u64
        ensures { result ≡ label_number (slice_get self.now.lines.now position) position }
    {
        match line_at(self.lines, position) {
            Some(line) => line,
            None => u64::from(position),
        }
    }

    /// The lines of the calls at these positions.
    pub(crate) fn rows(
        &self,
        alloc: Global,
        marks: &[u32],
        sheet: &Sheet,
        shown: &[u32],
    ) -> Result<String, AllocError>
        ensures { IfOk result (λ text. string_bytes text ≡ flat_map (row_text self.now.history.now
            self.now.lines.now (names_of self.now.callers.now) marks.now sheet.now) shown.now) }
    {
        let mut text = String::new(alloc);
        for position in shown {
            let row = self.row(alloc, marks, sheet, *position)?;
            text.push_str(row.as_str())?;
        }
        Ok(text)
    }

    /// The line of the call at a position.
    #[tactic(auto, unfolding(crate::specs::Rows::row_text))]
    fn row(
        &self,
        alloc: Global,
        marks: &[u32],
        sheet: &Sheet,
        position: u32,
    ) -> Result<String, AllocError>
        ensures { IfOk result (λ text. string_bytes text ≡ row_text self.now.history.now
            self.now.lines.now (names_of self.now.callers.now) marks.now sheet.now position) }
    {
        let Some(call) = call_at(self.history, position) else {
            return Ok(String::new(alloc));
        };
        let mark = mark_of(marks, position);
        let front = self.front(alloc, sheet, position, &call)?;
        let back = back(alloc, sheet, &call)?;
        format!(in alloc; "{mark}{front}  {back}\n")
    }

    /// Where a call was recorded, who made it, and its stamps.
    #[tactic(auto, unfolding(crate::specs::Rows::front_text))]
    fn front(
        &self,
        alloc: Global,
        sheet: &Sheet,
        position: u32,
        call: &CallRef<'_>,
    ) -> Result<String, AllocError>
        ensures { IfOk result (λ text. string_bytes text ≡ front_text self.now.lines.now
            (names_of self.now.callers.now) sheet.now position (call_shown call.now)) }
    {
        let label = self.label_number(position).to_string(alloc)?;
        let label = padded_right(alloc, label.as_str(), sheet.labels)?;
        let caller = caller_name(alloc, self, call.caller)?;
        let caller = padded_left(alloc, caller.as_str(), sheet.callers)?;
        let times = times(alloc, sheet, call.start, call.end)?;
        format!(in alloc; "{label}  {caller}  {times}")
    }
}

/// The stamps of a call.
#[tactic(auto, unfolding(crate::specs::Rows::times_text))]
fn times(alloc: Global, sheet: &Sheet, start: u64, end: u64) -> Result<String, AllocError>
    ensures { IfOk result (λ text. string_bytes text ≡ times_text sheet.now start end) }
{
    let start = start.to_string(alloc)?;
    let start = padded_right(alloc, start.as_str(), sheet.starts)?;
    let end = end_text(alloc, end)?;
    let end = padded_right(alloc, end.as_str(), sheet.ends)?;
    format!(in alloc; "{start}  {end}")
}

/// What a call did, and its bar.
#[tactic(auto, unfolding(crate::specs::Rows::back_text))]
fn back(alloc: Global, sheet: &Sheet, call: &CallRef<'_>) -> Result<String, AllocError>
    ensures { IfOk result (λ text. string_bytes text
        ≡ back_text sheet.now (call_shown call.now)) }
{
    let act = padded_left(alloc, act_word(&call.act), 6)?;
    let value = value_text(alloc, &call.act)?;
    let value = padded_left(alloc, value.as_str(), sheet.values)?;
    let bar = bar(alloc, sheet.stamps.as_slice(), call.start, call.end)?;
    format!(in alloc; "{act} {value}  {bar}")
}

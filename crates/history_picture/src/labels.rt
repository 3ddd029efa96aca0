// The labels of the calls that matter, each on a line of its own.
ghost use Rattle.std.specs.Prelude.{◌≡◌, ◌<◌, ◌^◌, IfOk, count_by, string_bytes};
ghost use Rattle.std.specs.List.{flat_map};
ghost use Rattle.trace_file.specs.Lent.{call_shown};
ghost use Rattle.history_picture.specs.Labels.{base_of, is_before, is_marked, label_at, label_line, label_text, label_words_of};

use crate::call_at::call_at;
use crate::call_words::{act_text, label};
use crate::drawing::{Drawing, LETTER, LINE};
use crate::escaped::escaped;
use crate::near::is_among;
use crate::scene::Scene;
use crate::shown::start_of;
use crate::strokes::{down, words_at};
use std::alloc::{AllocError, Global};
use trace_file::{CallRef, History};

/// The colour of the line from a label to its bar.
const GREY: &str = "#9a9a9a";

/// How many of these calls matter.
pub(crate) fn marked_count(marks: &[u32], shown: &[u32]) -> usize
    ensures { result ≡ count_by (is_marked marks.now) shown.now }
{
    shown
        .iter()
        .filter(|position| is_among(marks, **position))
        .count()
}

/// Whether the call at a position matters, and is labelled before the one at another.
fn is_before(history: &History, marks: &[u32], position: u32, other: u32) -> bool
    ensures { result ≡ is_before history.now marks.now position other }
{
    let start = start_of(history, position);
    let first = start_of(history, other);
    is_among(marks, other) && (first < start || (first == start && other < position))
}

/// The line of the label of the call at a position: how many labels stand before it.
fn label_line(history: &History, marks: &[u32], shown: &[u32], position: u32) -> usize
    ensures { result ≡ label_line history.now marks.now shown.now position }
{
    shown
        .iter()
        .filter(|other| is_before(history, marks, position, **other))
        .count()
}

/// What the label of a call says: where it was recorded, and what it did.
#[tactic(auto, unfolding(crate::specs::Labels::label_words_of))]
fn label_words(
    alloc: Global,
    lines: &[u64],
    position: u32,
    call: &CallRef<'_>,
) -> Result<String, AllocError>
    ensures { IfOk result (λ words. string_bytes words
        ≡ label_words_of lines.now position (call_shown call.now)) }
{
    let label = label(alloc, lines, position)?;
    let act = act_text(alloc, &call.act)?;
    format!(in alloc; "{label}: {act}")
}

impl Drawing {
    /// The labels of those of these calls that matter.
    pub(crate) fn labels(
        &self,
        alloc: Global,
        scene: &Scene<'_>,
        marks: &[u32],
        shown: &[u32],
    ) -> Result<String, AllocError>
        ensures { IfOk result (λ text. string_bytes text ≡ flat_map (label_at scene.now.history.now
            scene.now.lines.now self.now marks.now shown.now) shown.now) }
    {
        let mut text = String::new(alloc);
        for position in shown {
            let label = self.label_at(alloc, scene, marks, shown, *position)?;
            text.push_str(label.as_str())?;
        }
        Ok(text)
    }

    /// The label of the call at a position, or nothing if there is no call or it does not matter.
    #[tactic(auto, unfolding(crate::specs::Labels::label_at))]
    fn label_at(
        &self,
        alloc: Global,
        scene: &Scene<'_>,
        marks: &[u32],
        shown: &[u32],
        position: u32,
    ) -> Result<String, AllocError>
        ensures { IfOk result (λ text. string_bytes text ≡ label_at scene.now.history.now
            scene.now.lines.now self.now marks.now shown.now position) }
    {
        let Some(call) = call_at(scene.history, position) else {
            return Ok(String::new(alloc));
        };
        if !is_among(marks, position) {
            return Ok(String::new(alloc));
        }
        let line = label_line(scene.history, marks, shown, position);
        let words = label_words(alloc, scene.lines, position, &call)?;
        match self.label(alloc, line, &call, words.as_str()) {
            Ok(text) => Ok(text),
            Err(refused) => Err(refused),
        }
    }

    /// A label on this line: its words, whole, and a line down to the bar of its call.
    #[tactic(auto, unfolding(crate::specs::Labels::label_text))]
    fn label(
        &self,
        alloc: Global,
        line: usize,
        call: &CallRef<'_>,
        words: &str,
    ) -> Result<String, AllocError>
        ensures { IfOk result (λ text. string_bytes text
            ≡ label_text self.now line (call_shown call.now) words.now) }
    {
        let base = self.base(line);
        let x = self.x(call.start);
        let down = down(alloc, x, base + 4, self.y(call.caller), GREY)?;
        let left = x.min(
            self.width()
                .saturating_sub(LETTER * words.len() as u128 + 16),
        );
        let shown = escaped(alloc, words)?;
        let words = words_at(alloc, left, base, shown.as_str())?;
        format!(in alloc; "{down}{words}")
    }

    /// Where the letters of the label on this line stand.
    fn base(&self, line: usize) -> u128
        ensures at { result ≡ base_of self.now line }
        ensures small { result < 2 ^ 80 }
    {
        LINE * (self.feeds as u128 + line as u128) + 46
    }
}

// The bars and the arrows of a picture.
ghost use Rattle.std.specs.Prelude.{◌≡◌, ◌<◌, ◌^◌, IfOk, string_bytes};
ghost use Rattle.std.specs.List.{flat_map};
ghost use Rattle.trace_file.specs.Lent.{act_shown, call_shown};
ghost use Rattle.history_picture.specs.Pictures.{arrow_text, bar_at, bar_drawn, bar_place, box_text, colour_for, curve_text, leaving_text, reaching_text, title_text, word_text, words_over};

use crate::arrows::Arrow;
use crate::call_at::call_at;
use crate::call_words::{act_text, label};
use crate::drawing::Drawing;
use crate::escaped::escaped;
use crate::near::is_among;
use crate::rows::{act_word, end_text};
use crate::scene::Scene;
use crate::strokes::place;
use std::alloc::{AllocError, Global};
use trace_file::{ActRef, CallRef, History};

impl Drawing {
    /// The bars of the calls at these positions.
    pub(crate) fn bars(
        &self,
        alloc: Global,
        scene: &Scene<'_>,
        marks: &[u32],
        shown: &[u32],
    ) -> Result<String, AllocError>
        ensures { IfOk result (λ text. string_bytes text ≡ flat_map (bar_at scene.now.history.now
            scene.now.lines.now self.now marks.now shown.now) shown.now) }
    {
        let mut text = String::new(alloc);
        for position in shown {
            let bar = self.bar_at(alloc, scene, marks, shown, *position)?;
            text.push_str(bar.as_str())?;
        }
        Ok(text)
    }

    /// The bar of the call at a position, or nothing if there is no call.
    #[tactic(auto, unfolding(crate::specs::Pictures::bar_at))]
    fn bar_at(
        &self,
        alloc: Global,
        scene: &Scene<'_>,
        marks: &[u32],
        shown: &[u32],
        position: u32,
    ) -> Result<String, AllocError>
        ensures { IfOk result (λ text. string_bytes text ≡ bar_at scene.now.history.now
            scene.now.lines.now self.now marks.now shown.now position) }
    {
        let Some(call) = call_at(scene.history, position) else {
            return Ok(String::new(alloc));
        };
        let next = self.next(scene.history, call.caller, call.start, shown);
        let room = next.saturating_sub(self.x(call.start));
        let marked = is_among(marks, position);
        match self.bar(alloc, scene.lines, room, marked, position, &call) {
            Ok(text) => Ok(text),
            Err(refused) => Err(refused),
        }
    }

    /// The bar of a call, with what it did above it if it has no label, and all of it as a title.
    #[tactic(auto, unfolding(crate::specs::Pictures::bar_drawn))]
    fn bar(
        &self,
        alloc: Global,
        lines: &[u64],
        room: u128,
        marked: bool,
        position: u32,
        call: &CallRef<'_>,
    ) -> Result<String, AllocError>
        ensures { IfOk result (λ text. string_bytes text
            ≡ bar_drawn lines.now self.now room marked position (call_shown call.now)) }
    {
        let word = self.word_over(alloc, room, marked, call)?;
        let place = self.bar_place(alloc, call)?;
        let title = title(alloc, lines, position, call)?;
        let box_text = box_of(
            alloc,
            place.as_str(),
            colour_of(&call.act, marked),
            title.as_str(),
        )?;
        format!(in alloc; "{word}{box_text}")
    }

    /// The word for what a call did, over its bar, unless it has a label.
    fn word_over(
        &self,
        alloc: Global,
        room: u128,
        marked: bool,
        call: &CallRef<'_>,
    ) -> Result<String, AllocError>
        ensures { IfOk result (λ text. string_bytes text
            ≡ words_over self.now room marked (call_shown call.now)) }
    {
        if marked {
            return Ok(String::new(alloc));
        }
        match self.word(alloc, room, call) {
            Ok(text) => Ok(text),
            Err(refused) => Err(refused),
        }
    }

    /// The word for what a call did, over its bar, cut where the next one starts.
    #[tactic(auto, unfolding(crate::specs::Pictures::word_text))]
    fn word(&self, alloc: Global, room: u128, call: &CallRef<'_>) -> Result<String, AllocError>
        ensures { IfOk result (λ text. string_bytes text
            ≡ word_text self.now room (call_shown call.now)) }
    {
        let act = act_word(&call.act);
        let top = self.y(call.caller).saturating_sub(16);
        let place = place(alloc, self.x(call.start), top, room, 16)?;
        format!(in alloc; "<svg {place}><text y=\"12\">{act}</text></svg>\n")
    }

    /// Where the bar of a call lies: from its start to its end, in its caller's row.
    fn bar_place(&self, alloc: Global, call: &CallRef<'_>) -> Result<String, AllocError>
        ensures { IfOk result (λ text. string_bytes text
            ≡ bar_place self.now (call_shown call.now)) }
    {
        let start = self.x(call.start);
        let end = self.x(call.end);
        let left = start.min(end);
        let width = start.max(end).saturating_sub(left).max(6);
        match place(alloc, left, self.y(call.caller), width, 16) {
            Ok(text) => Ok(text),
            Err(refused) => Err(refused),
        }
    }

    /// The arrows.
    pub(crate) fn arrow_lines(
        &self,
        alloc: Global,
        history: &History,
        arrows: &[Arrow],
    ) -> Result<String, AllocError>
        ensures { IfOk result (λ text. string_bytes text
            ≡ flat_map (arrow_text history.now self.now) arrows.now) }
    {
        let mut text = String::new(alloc);
        for arrow in arrows {
            let line = self.arrow_line(alloc, history, *arrow)?;
            text.push_str(line.as_str())?;
        }
        Ok(text)
    }

    /// An arrow from the end of a call to the start of another, if the one precedes the other.
    #[tactic(auto, unfolding(crate::specs::Pictures::arrow_text))]
    fn arrow_line(
        &self,
        alloc: Global,
        history: &History,
        arrow: Arrow,
    ) -> Result<String, AllocError>
        ensures { IfOk result (λ text. string_bytes text
            ≡ arrow_text history.now self.now arrow) }
    {
        let Some(from) = call_at(history, arrow.from) else {
            return Ok(String::new(alloc));
        };
        let Some(to) = call_at(history, arrow.to) else {
            return Ok(String::new(alloc));
        };
        if from.end >= to.start {
            return Ok(String::new(alloc));
        }
        let top = self.y(from.caller) + 8;
        let bottom = self.y(to.caller) + 8;
        match curve(alloc, self.x(from.end), top, self.x(to.start), bottom) {
            Ok(text) => Ok(text),
            Err(refused) => Err(refused),
        }
    }
}

/// A curve with a point at its end.
#[tactic(auto, unfolding(crate::specs::Pictures::curve_text))]
fn curve(
    alloc: Global,
    first: u128,
    top: u128,
    last: u128,
    bottom: u128,
) -> Result<String, AllocError>
    requires { first < 2 ^ 100 }
    ensures { IfOk result (λ text. string_bytes text ≡ curve_text first top last bottom) }
{
    let from = leaving(alloc, first, top)?;
    let to = reaching(alloc, last, bottom)?;
    format!(in alloc;
        "<path d=\"{from} {to}\" fill=\"none\" stroke=\"#b3261e\" stroke-width=\"2\" marker-end=\"url(#point)\"/>\n"
    )
}

/// How a curve leaves the end of a call, to the right.
#[tactic(auto, unfolding(crate::specs::Pictures::leaving_text))]
fn leaving(alloc: Global, first: u128, top: u128) -> Result<String, AllocError>
    requires { first < 2 ^ 100 }
    ensures { IfOk result (λ text. string_bytes text ≡ leaving_text first top) }
{
    let behind = first + 24;
    format!(in alloc; "M {first} {top} C {behind} {top}")
}

/// How it comes to the start of another, from the left.
fn reaching(alloc: Global, last: u128, bottom: u128) -> Result<String, AllocError>
    ensures { IfOk result (λ text. string_bytes text ≡ reaching_text last bottom) }
{
    let before = last.saturating_sub(24);
    format!(in alloc; "{before} {bottom} {last} {bottom}")
}

/// All that is said of a call.
#[tactic(auto, unfolding(crate::specs::Pictures::title_text))]
fn title(
    alloc: Global,
    lines: &[u64],
    position: u32,
    call: &CallRef<'_>,
) -> Result<String, AllocError>
    ensures { IfOk result (λ text. string_bytes text
        ≡ title_text lines.now position (call_shown call.now)) }
{
    let label = label(alloc, lines, position)?;
    let act = act_text(alloc, &call.act)?;
    let act = escaped(alloc, act.as_str())?;
    let end = end_text(alloc, call.end)?;
    let start = call.start;
    format!(in alloc; "{label}: {act}, from {start} to {end}")
}

/// A box with a title.
#[tactic(auto, unfolding(crate::specs::Pictures::box_text))]
fn box_of(alloc: Global, place: &str, colour: &str, title: &str) -> Result<String, AllocError>
    ensures { IfOk result (λ text. string_bytes text
        ≡ box_text place.now colour.now title.now) }
{
    format!(in alloc;
        "<rect {place} rx=\"3\" fill=\"{colour}\" stroke=\"#444444\"><title>{title}</title></rect>\n"
    )
}

/// The colour of a bar: of a call that matters red for a hit and blue for a write, otherwise grey.
fn colour_of(act: &ActRef<'_>, marked: bool) -> &'static str
    ensures { result.now ≡ colour_for marked (act_shown act.now) }
{
    if !marked {
        return "#d4d4d4";
    }
    match act {
        ActRef::Put(..) => "#7fb2e5",
        ActRef::Remove => "#7fb2e5",
        ActRef::Hit(..) => "#ee8a80",
        ActRef::Miss => "#ee8a80",
    }
}

// The axis of a picture: how long after the first stamp each stamp came.
ghost use Rattle.std.specs.Prelude.{◌≡◌, ◌-◌, IfOk, length, string_bytes};
ghost use Rattle.std.specs.Fmt.{decimal};
ghost use Rattle.std.specs.List.{flat_map};
ghost use Rattle.history_picture.specs.Axes.{axis_text, caption_base, caption_text, caption_words, tick_text};
ghost use Rattle.history_picture.specs.Layout.{first_stamp};
ghost use Rattle.history_picture.specs.Scale.{first_of, last_of};

use crate::drawing::{Drawing, LETTER};
use crate::strokes::{down, turned, words_at};
use std::alloc::{AllocError, Global};

/// The colour of the line of a stamp.
const LIGHT: &str = "#eeeeee";

/// The first stamp, 0 if there is none.
fn first_of(stamps: &[u64]) -> u64
    ensures { result ≡ first_of stamps.now }
{
    match stamps.first() {
        Some(stamp) => *stamp,
        None => 0,
    }
}

/// The last stamp, 0 if there is none.
fn last_of(stamps: &[u64]) -> u64
    ensures { result ≡ last_of stamps.now }
{
    match stamps.last() {
        Some(stamp) => *stamp,
        None => 0,
    }
}

/// How many signs the longest time between stamps has.
pub(crate) fn times_width(alloc: Global, stamps: &[u64]) -> Result<usize, AllocError>
    ensures { IfOk result (λ width.
        width ≡ length (decimal (last_of stamps.now - first_of stamps.now))) }
{
    let time = last_of(stamps).saturating_sub(first_of(stamps));
    let word = time.to_string(alloc)?;
    Ok(word.len())
}

/// What the axis shows, in words.
#[tactic(auto, unfolding(crate::specs::Axes::caption_words))]
fn caption_words(alloc: Global, first: u64) -> Result<String, AllocError>
    ensures { IfOk result (λ words. string_bytes words ≡ caption_words first) }
{
    format!(in alloc; "the time after stamp {first}: in order, and not to scale")
}

impl Drawing {
    /// The axis: each stamp that is shown, and what it shows.
    #[tactic(auto, unfolding(crate::specs::Axes::axis_text))]
    pub(crate) fn axis(&self, alloc: Global) -> Result<String, AllocError>
        ensures { IfOk result (λ text. string_bytes text ≡ axis_text self.now) }
    {
        let ticks = self.ticks(alloc)?;
        let caption = self.caption(alloc)?;
        format!(in alloc; "{ticks}{caption}")
    }

    /// The stamps on the axis.
    fn ticks(&self, alloc: Global) -> Result<String, AllocError>
        ensures { IfOk result (λ text. string_bytes text
            ≡ flat_map (tick_text self.now) self.now.sheet.stamps.items) }
    {
        let mut text = String::new(alloc);
        for stamp in &self.sheet.stamps {
            let tick = self.tick(alloc, *stamp)?;
            text.push_str(tick.as_str())?;
        }
        Ok(text)
    }

    /// A stamp on the axis: a line down through the rows, and under it how long after the first stamp it came.
    #[tactic(auto, unfolding(crate::specs::Axes::tick_text))]
    fn tick(&self, alloc: Global, stamp: u64) -> Result<String, AllocError>
        ensures { IfOk result (λ text. string_bytes text ≡ tick_text self.now stamp) }
    {
        let x = self.x(stamp);
        let axis = self.axis_top();
        let time = stamp.saturating_sub(self.first_stamp());
        let line = down(alloc, x, self.top(), axis, LIGHT)?;
        let time = turned(alloc, x.saturating_sub(4), axis + 4, time)?;
        format!(in alloc; "{line}{time}")
    }

    /// What the axis shows.
    fn caption(&self, alloc: Global) -> Result<String, AllocError>
        ensures { IfOk result (λ text. string_bytes text ≡ caption_text self.now) }
    {
        let words = caption_words(alloc, self.first_stamp())?;
        match words_at(alloc, 16, self.caption_base(), words.as_str()) {
            Ok(text) => Ok(text),
            Err(refused) => Err(refused),
        }
    }

    /// Where its words stand: under the times.
    fn caption_base(&self) -> u128
        ensures { result ≡ caption_base self.now }
    {
        self.axis_top() + LETTER * self.times as u128 + 28
    }

    /// The first stamp that is shown, 0 if there is none.
    fn first_stamp(&self) -> u64
        ensures { result ≡ first_stamp self.now }
    {
        first_of(self.sheet.stamps.as_slice())
    }
}

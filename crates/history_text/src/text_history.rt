// A history that was read from a text, with what the text says beside it.
ghost use Rattle.std.specs.Prelude.{◌≡◌, ◌≢◌, ◌+◌, ◌<◌, ◌≤◌, ◌^◌, Ok, false, length, slice_get, IfOk, IfErr, OnErr, OnOk};
ghost use Rattle.std.specs.List.{filter_map};
ghost use Rattle.history_text.specs.Spelled.{skipped_or};

use crate::callers::Callers;
use crate::keeping::{history_at, lines_at};
use crate::line_cause::LineCause;
use crate::line_kind::act_by;
use crate::line_taking::{is_passed_over, take_line};
use crate::pair_bytes::PairBytes;
use crate::reading::Reading;
use crate::spelling::Spelling;
use crate::text_fault::TextFault;
use std::alloc::{AllocError, Global};
use std::hash::BuildHasher;
use trace_file::{CallRef, History};

/// The most calls of a history: those of the longest trace.
const MAX_CALLS: usize = 268435456;

/// The number of the last line that a text may have.
const MAX_LINES: u64 = 9223372036854775807;

/// A history that was read from a text, with the line of each call and the names of its callers.
#[derive(Drop)]
pub struct TextHistory<S: BuildHasher> {
    /// The calls, in the order of their lines.
    pub history: History,
    /// The number of the line of each call, by the call's position; the first line of the text has the number 1.
    pub lines: Vec<u64>,
    /// The callers, numbered as they first appear.
    pub callers: Callers<S>,
}

impl<S: BuildHasher> TextHistory<S> {
    ghost use Rattle.history_text.specs.Text.{no_text, of_history, read_by, recorded, text_by, with_line};
    ghost use Rattle.history_text.specs.Readings.{is_of_line};
    ghost use Rattle.history_text.specs.Spelled.{IsSaid, spelled_by};
    ghost use Rattle.record_pages.specs.Bounded.{IsKey, IsValue};

    /// The history of a text with no lines. Callers' names are looked up by hashes as `hash_builder` makes them.
    pub fn new(alloc: Global, hash_builder: S) -> TextHistory<S>
        ensures { text_by result.history result.lines.items result.callers ≡ no_text }
    {
        TextHistory {
            history: History::new(alloc),
            lines: Vec::new(alloc),
            callers: Callers::new(alloc, hash_builder),
        }
    }

    /// Keeps the calls at these positions, in their order, with their lines. The callers stay as they are. If memory is refused, all
    /// calls stay.
    pub fn keep(&mut self, alloc: Global, positions: &[u32]) -> Result<(), AllocError>
        ensures history { OnOk result (
            self.new.history ≡ filter_map (slice_get self.old.history) positions.now) }
        ensures lines { OnOk result (
            self.new.lines.items ≡ filter_map (slice_get self.old.lines.items) positions.now) }
        ensures as_many { length self.old.lines.items ≡ length self.old.history
            → length self.new.lines.items ≡ length self.new.history }
        ensures callers { self.new.callers ≡ self.old.callers }
        ensures err { OnErr result (self.new ≡ self.old) }
    {
        let history = history_at(alloc, &self.history, positions)?;
        let lines = lines_at(alloc, self.lines.as_slice(), positions)?;
        self.history = history;
        self.lines = lines;
        Ok(())
    }

    /// Takes the next line, of at most `MAX_TEXT_LINE_LEN` bytes, or passes over it if it is bad and may be passed over. It answers
    /// how many lines were passed over then, if before it were so many. A bad line leaves the text as it was. Its head is long for its arguments.
    pub(crate) fn take_or_skip(
        &mut self,
        alloc: Global,
        reading: Reading,
        number: u64,
        line: &[u8],
        parts: &mut PairBytes,
        skipped: u64,
    ) -> Result<u64, TextFault>
        requires short { length line.now ≤ 8192 }
        requires before { skipped < number }
        ensures ok { IfOk result (λ after.
            with_line of_history reading
            (read_by (text_by self.old.history self.old.lines.items self.old.callers) skipped) number line.now
            ≡ Ok (read_by (text_by self.new.history self.new.lines.items self.new.callers) after)) }
        ensures bad { IfErr result (IsSaid (
            with_line of_history reading
            (read_by (text_by self.old.history self.old.lines.items self.old.callers) skipped) number line.now)) }
        ensures kept { IfErr result (λ fault. fault ≢ TextFault.OutOfMemory → self.new ≡ self.old) }
        ensures few { OnOk result (number < 2 ^ 63) }
        ensures before { IfOk result (λ after. after ≤ skipped + 1) }
    {
        if number > MAX_LINES {
            return Err(TextFault::Bad(LineCause::TooManyLines));
        }
        if is_passed_over(line) {
            return Ok(skipped);
        }
        let spelling = match take_line(line, &mut parts.key, &mut parts.value) {
            Ok(spelling) => spelling,
            Err(fault) => {
                return match skip_or(reading, skipped, fault) {
                    Ok(skipped) => Ok(skipped),
                    Err(fault) => Err(fault),
                };
            }
        };
        if !reading.share.has(&parts.key) {
            return Ok(skipped);
        }
        match self.record(alloc, number, &spelling, parts) {
            Ok(()) => Ok(skipped),
            Err(fault) => Err(fault),
        }
    }

    /// Records the call that a line spells.
    #[tactic(auto, unfolding(crate::specs::Text::recorded), using(crate::proofs::Saying::said_caller))]
    fn record(
        &mut self,
        alloc: Global,
        number: u64,
        spelling: &Spelling<'_>,
        parts: &PairBytes,
    ) -> Result<(), TextFault>
        requires key { IsKey parts.now.key.items }
        requires value { IsValue parts.now.value.items }
        ensures ok { OnOk result (
            recorded of_history (text_by self.old.history self.old.lines.items self.old.callers) number
            (spelled_by spelling.now parts.now.key.items parts.now.value.items)
            ≡ Ok (text_by self.new.history self.new.lines.items self.new.callers)) }
        ensures bad { IfErr result (IsSaid (
            recorded of_history (text_by self.old.history self.old.lines.items self.old.callers) number
            (spelled_by spelling.now parts.now.key.items parts.now.value.items))) }
        ensures kept { IfErr result (λ fault. fault ≢ TextFault.OutOfMemory → self.new ≡ self.old) }
        ensures full { IfErr result (λ fault. (cause : LineCause) → fault ≡ TextFault.Bad cause
            → is_of_line cause ≡ false) }
    {
        if self.history.len() >= MAX_CALLS {
            return Err(TextFault::Bad(LineCause::TooManyCalls));
        }
        let caller = self.callers.number(alloc, spelling.caller)?;
        let act = act_by(spelling.head.kind, &parts.value, spelling.time);
        let call = CallRef::new(
            caller,
            spelling.head.start,
            spelling.head.end,
            &parts.key,
            act,
        );
        self.history.push_ref(&call)?;
        let Ok(()) = self.lines.push(number) else {
            return Err(TextFault::OutOfMemory);
        };
        Ok(())
    }
}

/// How many lines were passed over with one for which this was said, if so many were before it; or what was said, if the line may not be.
fn skip_or(reading: Reading, skipped: u64, fault: TextFault) -> Result<u64, TextFault>
    requires { skipped < 2 ^ 63 }
    ensures { result ≡ skipped_or reading skipped fault }
{
    match fault {
        TextFault::OutOfMemory => Err(TextFault::OutOfMemory),
        TextFault::Bad(cause) => {
            if reading.skip_bad && cause.is_of_line() {
                Ok(skipped + 1)
            } else {
                Err(TextFault::Bad(cause))
            }
        }
    }
}

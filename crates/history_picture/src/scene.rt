// What is spoken of and drawn.
use crate::call_at::call_at;
use crate::call_words::{CallWords, act_text, label};
use std::alloc::{AllocError, Global};
use trace_file::History;

/// A history, and how its calls and callers are called.
#[derive(Clone, Copy)]
pub struct Scene<'a> {
    /// The calls.
    pub history: &'a History,
    /// The line of each call, by its position. A call that has none here is named by its position.
    pub lines: &'a [u64],
    /// The callers' names, by their numbers. A caller that has none here is named by its number.
    pub callers: &'a [Vec<u8>],
}

impl Scene<'_> {
    ghost use Rattle.std.specs.Prelude.{◌≡◌, IfOk, slice_get, string_bytes};
    ghost use Rattle.history_picture.specs.Naming.{end_of, moment_of, name_of, start_of};

    /// The call at a position in words: what it did, and where it was recorded.
    #[tactic(auto, unfolding(crate::specs::Naming::name_of))]
    pub(crate) fn name(&self, alloc: Global, position: u32) -> Result<String, AllocError>
        ensures { IfOk result (λ name. string_bytes name
            ≡ name_of self.now.history.now self.now.lines.now position) }
    {
        let label = label(alloc, self.lines, position)?;
        let Some(call) = call_at(self.history, position) else {
            return format!(in alloc; "a call that is not there ({label})");
        };
        let act = act_text(alloc, &call.act)?;
        format!(in alloc; "{act} ({label})")
    }

    /// What a sentence says of the call at a position.
    pub(crate) fn told(&self, alloc: Global, position: u32) -> Result<CallWords, AllocError>
        ensures name { IfOk result (λ told. string_bytes told.name
            ≡ name_of self.now.history.now self.now.lines.now position) }
        ensures start { IfOk result (λ told.
            told.start ≡ start_of (slice_get self.now.history.now position)) }
        ensures end { IfOk result (λ told.
            told.end ≡ end_of (slice_get self.now.history.now position)) }
        ensures time { IfOk result (λ told.
            told.time ≡ moment_of (slice_get self.now.history.now position)) }
    {
        let name = self.name(alloc, position)?;
        let Some(call) = call_at(self.history, position) else {
            return Ok(CallWords {
                name,
                start: 0,
                end: 0,
                time: 0,
            });
        };
        Ok(CallWords {
            name,
            start: call.start,
            end: call.end,
            time: call.act.time(),
        })
    }
}

// A call as sentences speak of it.
ghost use Rattle.std.specs.Prelude.{◌≡◌, IfOk, string_bytes};
ghost use Rattle.trace_file.specs.Lent.{act_shown};
ghost use Rattle.history_picture.specs.Naming.{act_words, label_of};

use crate::call_at::line_at;
use crate::coded::coded;
use std::alloc::{AllocError, Global};
use trace_file::ActRef;

/// What a sentence says of a call.
#[derive(Drop)]
pub(crate) struct CallWords {
    /// What it did, and where it was recorded.
    pub name: String,
    /// Its start.
    pub start: u64,
    /// Its end.
    pub end: u64,
    /// The time that it speaks of: when what it put expires, or the moment that it was made at.
    pub time: u64,
}

/// Where the call at a position was recorded.
pub(crate) fn label(alloc: Global, lines: &[u64], position: u32) -> Result<String, AllocError>
    ensures { IfOk result (λ label. string_bytes label ≡ label_of lines.now position) }
{
    match line_at(lines, position) {
        Some(line) => format!(in alloc; "line {line}"),
        None => format!(in alloc; "position {position}"),
    }
}

/// What a call did, in words.
pub(crate) fn act_text(alloc: Global, act: &ActRef<'_>) -> Result<String, AllocError>
    ensures { IfOk result (λ text. string_bytes text ≡ act_words (act_shown act.now)) }
{
    match act {
        ActRef::Put(value, _) => {
            let value = coded(alloc, value)?;
            format!(in alloc; "put {value}")
        }
        ActRef::Remove => String::from_str(alloc, "the removal"),
        ActRef::Hit(value, _) => {
            let value = coded(alloc, value)?;
            format!(in alloc; "the hit of {value}")
        }
        ActRef::Miss => String::from_str(alloc, "the miss"),
    }
}

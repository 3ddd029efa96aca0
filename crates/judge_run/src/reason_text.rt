// What a reason speaks of, in words.
ghost use Rattle.std.specs.Prelude.{◌≡◌, IfOk, string_bytes};
ghost use Rattle.judge_run.specs.Telling.{reason_text};

use crate::key_word::{key_word, kind_word};
use crate::told_lines::{lines_of, spaced};
use certificate_finder::Witness;
use std::alloc::{AllocError, Global};
use trace_file::History;

/// The kind of a reason, the key that it is about, and the lines of the calls that it speaks of.
pub(crate) fn reason_text(
    alloc: Global,
    history: &History,
    lines: &[u64],
    witness: &Witness,
) -> Result<String, AllocError>
    ensures { IfOk result (λ text. string_bytes text ≡ reason_text history.now lines.now witness.now) }
{
    let key = key_word(alloc, history, witness)?;
    let kind = kind_word(witness);
    let told = lines_of(alloc, lines, witness)?;
    let numbers = spaced(alloc, &told)?;
    format!(in alloc; "{kind} key {key} lines{numbers}")
}

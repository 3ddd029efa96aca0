// The line that tells what was found for the history of a text.
ghost use Rattle.std.specs.Prelude.{◌≡◌, IfOk, length, string_bytes};
ghost use Rattle.judge_run.specs.VerdictText.{verdict_text};

use crate::extent::Extent;
use crate::extents::{own_of, recorded_of};
use crate::from_start::{start_lines, start_text};
use crate::judged_text::JudgedText;
use crate::reason_text::reason_text;
use certificate_checker::Verdict;
use certificate_finder::{Found, Witness};
use std::alloc::{AllocError, Global};
use std::hash::BuildHasher;
use trace_file::History;

/// The line that tells why a history is rejected.
fn rejected_text(
    alloc: Global,
    history: &History,
    lines: &[u64],
    extent: &Extent,
    witness: &Witness,
) -> Result<String, AllocError>
    ensures { IfOk result (λ text. string_bytes text
        ≡ verdict_text history.now lines.now extent.now (Found.Rejected witness.now)) }
{
    let reason = reason_text(alloc, history, lines, witness)?;
    let start = start_lines(alloc, lines, own_of(extent, history.len()), witness)?;
    let start = start_text(alloc, &start)?;
    format!(in alloc; "rejected {reason}{start}\n")
}

/// The line that tells what was found for the history of a text, with its line feed: `accepted N calls`, `rejected`, the kind
/// of the reason, the key and the lines that it speaks of, or `undecided N hits`. The calls are those that were recorded.
pub(crate) fn verdict_text<S: BuildHasher>(
    alloc: Global,
    judged: &JudgedText<S>,
) -> Result<String, AllocError>
    ensures { IfOk result (λ text. string_bytes text
        ≡ verdict_text judged.now.text.history judged.now.text.lines.items judged.now.extent
        judged.now.found) }
{
    let history = &judged.text.history;
    match &judged.found {
        Found::Accepted(_) => {
            let calls = recorded_of(&judged.extent, history.len());
            let line = Verdict::Accepted.line(alloc, calls)?;
            format!(in alloc; "{line}\n")
        }
        Found::Rejected(witness) => rejected_text(
            alloc,
            history,
            &judged.text.lines,
            &judged.extent,
            witness,
        ),
        Found::Undecided(hits) => {
            let count = hits.len();
            format!(in alloc; "undecided {count} hits\n")
        }
    }
}

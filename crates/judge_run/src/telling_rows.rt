// The rows that tell what was found for the history of a text.
ghost use Rattle.std.specs.Prelude.{◌≡◌, OnOk, length, string_bytes};
ghost use Rattle.certificate_finder.specs.Finding.{IfRejected};
ghost use Rattle.figures.specs.Figures.{with_rows};
ghost use Rattle.judge_run.specs.Extents.{own_of, recorded_of};
ghost use Rattle.judge_run.specs.FoundRows.{count_rows, found_rows, outcome_rows, rejected_rows, undecided_rows};
ghost use Rattle.judge_run.specs.Listing.{IsListed, key_count};
ghost use Rattle.judge_run.specs.ReasonRows.{reason_rows};

use crate::extents::{own_of, recorded_of, tell_extent};
use crate::from_start::{start_lines, tell_start};
use crate::judged_text::JudgedText;
use crate::key_word::{key_word, kind_word};
use crate::kinds::tell_kinds;
use crate::told_lines::lines_of;
use certificate_finder::{Found, Witness};
use figures::{Figure, Form};
use std::alloc::{AllocError, Global};
use std::hash::BuildHasher;
use trace_file::History;

/// Tells what a reason speaks of, if so many calls were recorded.
pub(crate) fn tell_reason(
    alloc: Global,
    form: Form,
    text: &mut String,
    history: &History,
    lines: &[u64],
    recorded: usize,
    witness: &Witness,
) -> Result<(), AllocError>
    ensures { OnOk result (string_bytes text.new
        ≡ with_rows form (string_bytes text.old)
        (reason_rows history.now lines.now recorded witness.now)) }
{
    let key = key_word(alloc, history, witness)?;
    let told = lines_of(alloc, lines, witness)?;
    let start = start_lines(alloc, lines, recorded, witness)?;
    form.tell(alloc, text, "kind", Figure::Word(kind_word(witness)))?;
    form.tell(alloc, text, "key", Figure::Word(key.as_str()))?;
    form.tell(alloc, text, "lines", Figure::Numbers(&told))?;
    match tell_start(alloc, form, text, &start) {
        Ok(()) => Ok(()),
        Err(refused) => Err(refused),
    }
}

/// Tells how many faults there are, and at how many keys.
fn tell_counts(
    alloc: Global,
    form: Form,
    text: &mut String,
    faults: usize,
    keys: usize,
) -> Result<(), AllocError>
    ensures { OnOk result (string_bytes text.new
        ≡ with_rows form (string_bytes text.old) (count_rows faults keys)) }
{
    form.tell(alloc, text, "fault-count", Figure::Count(faults as u64))?;
    form.tell(alloc, text, "fault-keys", Figure::Count(keys as u64))
}

/// How many calls that are held of a text that was judged are its own.
pub(crate) fn own_in<S: BuildHasher>(judged: &JudgedText<S>) -> usize
    ensures { result ≡ own_of judged.now.extent (length judged.now.text.history) }
{
    own_of(&judged.extent, judged.text.history.len())
}

/// Tells what the reason speaks of for which a text is rejected.
fn tell_witness<S: BuildHasher>(
    alloc: Global,
    form: Form,
    text: &mut String,
    judged: &JudgedText<S>,
    witness: &Witness,
) -> Result<(), AllocError>
    ensures { OnOk result (string_bytes text.new
        ≡ with_rows form (string_bytes text.old)
        (reason_rows judged.now.text.history judged.now.text.lines.items
        (own_of judged.now.extent (length judged.now.text.history)) witness.now)) }
{
    let recorded = own_in(judged);
    let history = &judged.text.history;
    match tell_reason(
        alloc,
        form,
        text,
        history,
        &judged.text.lines,
        recorded,
        witness,
    ) {
        Ok(()) => Ok(()),
        Err(refused) => Err(refused),
    }
}

/// Tells how many faults a text has, and at how many keys.
fn tell_fault_counts<S: BuildHasher>(
    alloc: Global,
    form: Form,
    text: &mut String,
    judged: &JudgedText<S>,
) -> Result<(), AllocError>
    requires { judged.now.faults.keys ≡ key_count judged.now.text.history judged.now.faults.faults.items }
    ensures { OnOk result (string_bytes text.new
        ≡ with_rows form (string_bytes text.old)
        (count_rows (length judged.now.faults.faults.items)
        (key_count judged.now.text.history judged.now.faults.faults.items))) }
{
    let faults = judged.faults.faults.len();
    match tell_counts(alloc, form, text, faults, judged.faults.keys) {
        Ok(()) => Ok(()),
        Err(refused) => Err(refused),
    }
}

/// Tells why a history is rejected, and how many faults it has.
fn tell_rejected<S: BuildHasher>(
    alloc: Global,
    form: Form,
    text: &mut String,
    judged: &JudgedText<S>,
    witness: &Witness,
) -> Result<(), AllocError>
    requires { judged.now.faults.keys ≡ key_count judged.now.text.history judged.now.faults.faults.items }
    ensures { OnOk result (string_bytes text.new
        ≡ with_rows form (string_bytes text.old)
        (rejected_rows judged.now.text.history judged.now.text.lines.items
        (own_of judged.now.extent (length judged.now.text.history)) witness.now
        judged.now.faults.faults.items)) }
{
    form.tell(alloc, text, "verdict", Figure::Word("rejected"))?;
    tell_witness(alloc, form, text, judged, witness)?;
    match tell_fault_counts(alloc, form, text, judged) {
        Ok(()) => Ok(()),
        Err(refused) => Err(refused),
    }
}

/// Tells that this many hits are undecided.
fn tell_undecided(
    alloc: Global,
    form: Form,
    text: &mut String,
    hits: usize,
) -> Result<(), AllocError>
    ensures { OnOk result (string_bytes text.new
        ≡ with_rows form (string_bytes text.old) (undecided_rows hits)) }
{
    form.tell(alloc, text, "verdict", Figure::Word("undecided"))?;
    form.tell(alloc, text, "undecided-hits", Figure::Count(hits as u64))
}

/// Tells what was found for the history of a text, after the number of its calls.
fn tell_verdict<S: BuildHasher>(
    alloc: Global,
    form: Form,
    text: &mut String,
    judged: &JudgedText<S>,
) -> Result<(), AllocError>
    requires { IfRejected judged.now.found (λ _. IsListed judged.now.text.history judged.now.faults) }
    ensures { OnOk result (string_bytes text.new
        ≡ with_rows form (string_bytes text.old)
        (outcome_rows judged.now.text.history judged.now.text.lines.items
        (own_of judged.now.extent (length judged.now.text.history)) judged.now.found
        judged.now.faults.faults.items)) }
{
    match &judged.found {
        Found::Accepted(_) => form.tell(alloc, text, "verdict", Figure::Word("accepted")),
        Found::Rejected(witness) => tell_rejected(alloc, form, text, judged, witness),
        Found::Undecided(hits) => tell_undecided(alloc, form, text, hits.len()),
    }
}

/// Tells what was found for the history of a text by rows: `calls`, the number of its calls that were recorded, then how many of them are `puts`,
/// `removals`, `hits` and `misses`, each number of its extent that is there (`values-from-start`, `bad-lines`, `calls-forgotten`), and `verdict`, which is `accepted`, `rejected` or `undecided`. After `rejected` come the `kind`
/// of the reason, its `key` and the `lines` that it speaks of, the number of all faults, `fault-count`, and that of their keys,
/// `fault-keys`; after `undecided` comes the number of the `undecided-hits`. If memory
/// is refused, the text is a front of the whole.
pub fn tell_found<S: BuildHasher>(
    alloc: Global,
    form: Form,
    text: &mut String,
    judged: &JudgedText<S>,
) -> Result<(), AllocError>
    requires { IfRejected judged.now.found (λ _. IsListed judged.now.text.history judged.now.faults) }
    ensures { OnOk result (string_bytes text.new
        ≡ with_rows form (string_bytes text.old)
        (found_rows judged.now.text.history judged.now.text.lines.items judged.now.extent judged.now.found
        judged.now.faults.faults.items)) }
{
    let calls = recorded_of(&judged.extent, judged.text.history.len());
    form.tell(alloc, text, "calls", Figure::Count(calls as u64))?;
    tell_kinds(alloc, form, text, &judged.extent, &judged.text.history)?;
    tell_extent(alloc, form, text, &judged.extent)?;
    match tell_verdict(alloc, form, text, judged) {
        Ok(()) => Ok(()),
        Err(refused) => Err(refused),
    }
}

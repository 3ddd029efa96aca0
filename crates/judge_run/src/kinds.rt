// How many calls of each kind a history has.
ghost use Rattle.std.specs.Prelude.{◌≡◌, OnOk, string_bytes};
ghost use Rattle.trace_file.specs.Lent.{call_shown};
ghost use Rattle.figures.specs.Figures.{with_rows};
ghost use Rattle.judge_run.specs.Kinds.{calls_of, gone_of, is_of, kind_rows, told_of};

use crate::extent::Extent;
use crate::extents::{added_before, own_of, with_forgotten};
use crate::forgotten::Forgotten;
use figures::{Figure, Form};
use std::alloc::{AllocError, Global};
use trace_file::{ActRef, CallKind, CallRef, History};

/// Whether a call is of a kind.
fn is_of(kind: CallKind, call: &CallRef<'_>) -> bool
    ensures { result ≡ is_of kind (call_shown call.now) }
{
    match kind {
        CallKind::Put => matches!(call.act, ActRef::Put(..)),
        CallKind::Remove => matches!(call.act, ActRef::Remove),
        CallKind::Hit => matches!(call.act, ActRef::Hit(..)),
        CallKind::Miss => matches!(call.act, ActRef::Miss),
    }
}

/// How many calls of a kind a history has.
pub(crate) fn calls_of(history: &History, kind: CallKind) -> usize
    ensures { result ≡ calls_of kind history.now }
{
    let mut calls = 0;
    for position in 0..history.len() {
        if is_of(kind, &history.at(position)) {
            calls += 1;
        }
    }
    calls
}

/// How many calls of a kind were judged and forgotten.
fn gone_of(kind: CallKind, forgotten: Option<Forgotten>) -> usize
    ensures { result ≡ gone_of kind forgotten }
{
    let Some(gone) = forgotten else {
        return 0;
    };
    match kind {
        CallKind::Put => gone.puts as usize,
        CallKind::Remove => gone.removals as usize,
        CallKind::Hit => gone.hits as usize,
        CallKind::Miss => gone.misses as usize,
    }
}

/// So many calls of a kind, and those that were forgotten.
fn told_of(kind: CallKind, extent: &Extent, own: usize) -> usize
    ensures { result ≡ told_of kind extent.now own }
{
    with_forgotten(own, gone_of(kind, extent.forgotten))
}

/// Tells how many calls of each kind were judged of a text that has this history.
pub(crate) fn tell_kinds(
    alloc: Global,
    form: Form,
    text: &mut String,
    extent: &Extent,
    history: &History,
) -> Result<(), AllocError>
    ensures { OnOk result (string_bytes text.new
        ≡ with_rows form (string_bytes text.old) (kind_rows extent.now history.now)) }
{
    let own = own_of(extent, calls_of(history, CallKind::Put));
    let puts = told_of(CallKind::Put, extent, own).saturating_sub(added_before(extent.forgotten));
    let removals = calls_of(history, CallKind::Remove);
    let removals = told_of(CallKind::Remove, extent, removals);
    let hits = calls_of(history, CallKind::Hit);
    let hits = told_of(CallKind::Hit, extent, hits);
    let misses = calls_of(history, CallKind::Miss);
    let misses = told_of(CallKind::Miss, extent, misses);
    form.tell(alloc, text, "puts", Figure::Count(puts as u64))?;
    form.tell(alloc, text, "removals", Figure::Count(removals as u64))?;
    form.tell(alloc, text, "hits", Figure::Count(hits as u64))?;
    form.tell(alloc, text, "misses", Figure::Count(misses as u64))
}

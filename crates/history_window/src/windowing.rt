// The window of a history.
ghost use Rattle.std.specs.Prelude.{◌≡◌, ◌↔◌, ◌≤◌, ◌<◌, ◌^◌, All, Contains, IfOk, IsTrue, OnOk, length};
ghost use Rattle.certificate_finder.specs.Lists.{AreAllBelow};
ghost use Rattle.history_window.specs.Codes.{AreSound, IsFitCode};
ghost use Rattle.history_window.specs.Cuts.{AreCuts, IsLateFrom, StaysAt, StaysCode};
ghost use Rattle.history_window.specs.Tables.{AreTables};
ghost use Rattle.history_window.specs.Windows.{IsWindow};

use crate::blocks::{blocks_of, last_start};
use crate::coded_call::{CodedCall, code_at};
use crate::coding::codes_of;
use crate::cuts::{Cuts, cuts_of, last_cut};
use crate::settling::list_position;
use crate::tables::{Tables, tables_of};
use certificate_finder::MAX_CALLS;
use std::alloc::{AllocError, Global};
use std::hash::BuildHasher;
use trace_file::History;

/// The positions of the calls in the window of a history at a stamp, in order. No call may end before it starts.
///
/// Misses are not in it. Of a key without a cut all other calls are. Of a key with cuts its last cut is, with each call that follows
/// it in time, and each hit of a value that the cut puts, or that a put after it does, if the hit does not precede that put. A cut
/// is a write that ended before the stamp. Each other write of its key precedes it or follows it in time, and no hit beside it can
/// have read a put before it and as well the cut or a put after it. `hash_builder` hashes the keys and the values. The time is
/// that of sorting the calls. `AllocError` comes if memory was refused, and if there are more than `MAX_CALLS` calls.
pub fn window<S: BuildHasher + Drop>(
    alloc: Global,
    hash_builder: S,
    history: &History,
    bound: u64,
) -> Result<Vec<u32>, AllocError>
    requires { All (λ call. call.start ≤ call.end) history.now }
    ensures { IfOk result (λ kept. IsWindow bound history.now kept.items) }
{
    if history.len() > MAX_CALLS {
        return Err(AllocError);
    }
    let codes = codes_of(alloc, hash_builder, history)?;
    match window_of(alloc, codes.as_slice(), bound) {
        Ok(kept) => Ok(kept),
        Err(refused) => Err(refused),
    }
}

/// The same, of calls in numbers.
fn window_of(alloc: Global, codes: &[CodedCall], bound: u64) -> Result<Vec<u32>, AllocError>
    requires few { length codes.now < 2 ^ 31 }
    requires sound { AreSound codes.now }
    ensures { IfOk result (λ kept. AreAllBelow (StaysAt codes.now bound) (length codes.now) kept.items) }
{
    let tables = tables_of(alloc, codes)?;
    let blocks = blocks_of(alloc, &tables)?;
    let cuts = cuts_of(alloc, &tables, &blocks, bound)?;
    match window_by(alloc, &tables, &cuts) {
        Ok(kept) => Ok(kept),
        Err(refused) => Err(refused),
    }
}

/// The same, by the cuts of each key.
fn window_by(alloc: Global, tables: &Tables<'_>, cuts: &Cuts) -> Result<Vec<u32>, AllocError>
    requires few { length tables.now.codes.now < 2 ^ 31 }
    requires tables { AreTables tables.now }
    requires cuts { AreCuts tables.now.codes.now cuts.now }
    ensures { IfOk result (λ kept. AreAllBelow (StaysAt tables.now.codes.now cuts.now.bound) (length tables.now.codes.now) kept.items) }
{
    let mut kept = Vec::new(alloc);
    for index in 0..tables.codes.len() {
        let code = code_at(tables.codes, index);
        let test = stays(tables, cuts, &code);
        list_position(&mut kept, index as u32, test)?;
    }
    Ok(kept)
}

/// Whether a call stays.
fn stays(tables: &Tables<'_>, cuts: &Cuts, code: &CodedCall) -> bool
    requires tables { AreTables tables.now }
    requires cuts { AreCuts tables.now.codes.now cuts.now }
    requires listed { Contains tables.now.codes.now code.now }
    ensures { IsTrue result ↔ StaysCode tables.now.codes.now cuts.now.bound code.now }
{
    if code.is_miss() {
        return false;
    }
    let Some(cut) = last_cut(tables, cuts, code.key) else {
        return true;
    };
    if code.position == cut.position {
        return true;
    }
    if cut.end < code.start {
        return true;
    }
    if !code.reads {
        return false;
    }
    starts_late(tables, code, cut.start)
}

/// Whether the last start of the puts of a hit's value that it does not precede is a stamp or comes after it.
fn starts_late(tables: &Tables<'_>, code: &CodedCall, stamp: u64) -> bool
    requires tables { AreTables tables.now }
    requires fit { IsFitCode code.now }
    ensures { IsTrue result ↔ IsLateFrom tables.now.codes.now code.now stamp }
{
    match last_start(tables, code) {
        Some(start) => stamp <= start,
        None => false,
    }
}

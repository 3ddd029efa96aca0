// Between which stamps writes are blocked by hits.
ghost use Rattle.std.specs.Prelude.{◌≡◌, ◌++◌, ◌∷◌, [], Contains, IfOk, MatchOption, OnOk, length};
ghost use Rattle.history_window.specs.Codes.{IsFitCode};
ghost use Rattle.history_window.specs.Ranks.{IsGreatest, IsLeast};
ghost use Rattle.history_window.specs.Reaches.{AreBlocks, AreBlocksBelow, IsBlock, IsBlocking, IsEarlyEnd, IsLastOver, IsLateStart};
ghost use Rattle.history_window.specs.Tables.{AreTables};

use crate::coded_call::{CodedCall, code_at};
use crate::peak::Peak;
use crate::peaks::Peaks;
use crate::ranks::{first_from, last_upto, rank, stamp_of};
use crate::tables::Tables;
use std::alloc::{AllocError, Global};

/// The last start of the writes of a call's key that ended before the call started, or 0 if there are none.
fn last_over(tables: &Tables<'_>, code: &CodedCall) -> u64
    requires tables { AreTables tables.now }
    requires fit { IsFitCode code.now }
    ensures { IsLastOver tables.now.codes.now code.now result }
{
    let key = code.key as u64;
    let limit = rank(key, code.start);
    let Some(top) = tables.hits.overs.top_before(limit) else {
        return 0;
    };
    match stamp_of(key, top) {
        Some(stamp) => stamp,
        None => 0,
    }
}

/// The first end of the puts of a hit's value that no write replaced before the hit started.
fn first_end(tables: &Tables<'_>, code: &CodedCall) -> Option<u64>
    requires tables { AreTables tables.now }
    requires fit { IsFitCode code.now }
    ensures { IsLeast (IsEarlyEnd tables.now.codes.now code.now) result }
{
    let over = last_over(tables, code);
    let ends = tables.hits.ends.as_slice();
    match first_from(ends, code.value, over) {
        Some(end) => Some(end),
        None => None,
    }
}

/// The last start of the puts of a hit's value that the hit does not precede.
pub(crate) fn last_start(tables: &Tables<'_>, code: &CodedCall) -> Option<u64>
    requires tables { AreTables tables.now }
    requires fit { IsFitCode code.now }
    ensures { IsGreatest (IsLateStart tables.now.codes.now code.now) result }
{
    let starts = tables.hits.starts.as_slice();
    match last_upto(starts, code.value, code.end) {
        Some(start) => Some(start),
        None => None,
    }
}

/// From the first such end on the last such start, if the call is a hit and has both.
fn block_of(tables: &Tables<'_>, code: &CodedCall) -> Option<Peak>
    requires tables { AreTables tables.now }
    requires fit { IsFitCode code.now }
    ensures { MatchOption result (¬ IsBlocking tables.now.codes.now code.now) (IsBlock tables.now.codes.now code.now) }
{
    if !code.reads {
        return None;
    }
    let Some(end) = first_end(tables, code) else {
        return None;
    };
    let Some(start) = last_start(tables, code) else {
        return None;
    };
    let foot = rank(code.key as u64, end);
    let height = rank(code.key as u64, start);
    Some(Peak { foot, height })
}

/// Lists a peak, if there is one.
fn list_peak(peaks: &mut Vec<Peak>, peak: Option<Peak>) -> Result<(), AllocError>
    ensures { OnOk result (MatchOption peak (peaks.new.items ≡ peaks.old.items) (λ one. peaks.new.items ≡ peaks.old.items ++ one ∷ [])) }
{
    match peak {
        None => Ok(()),
        Some(one) => {
            peaks.push(one)?;
            Ok(())
        }
    }
}

/// Those of all hits, in the order of the history.
fn listed_blocks(alloc: Global, tables: &Tables<'_>) -> Result<Vec<Peak>, AllocError>
    requires { AreTables tables.now }
    ensures { IfOk result (λ peaks. AreBlocksBelow tables.now.codes.now (length tables.now.codes.now) peaks.items) }
{
    let mut peaks = Vec::new(alloc);
    for index in 0..tables.codes.len() {
        let code = code_at(tables.codes, index);
        let block = block_of(tables, &code);
        list_peak(&mut peaks, block)?;
    }
    Ok(peaks)
}

/// Those of all hits, in order.
pub(crate) fn blocks_of(alloc: Global, tables: &Tables<'_>) -> Result<Peaks, AllocError>
    requires { AreTables tables.now }
    ensures { IfOk result (AreBlocks tables.now.codes.now) }
{
    let made = listed_blocks(alloc, tables)?;
    match Peaks::of(alloc, made) {
        Ok(blocks) => Ok(blocks),
        Err(refused) => Err(refused),
    }
}

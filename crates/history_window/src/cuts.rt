// The cuts of a history.
ghost use Rattle.std.specs.Prelude.{◌≡◌, ◌≢◌, ◌↔◌, ℕ, true, Contains, IfOk, IsTrue, MatchOption, OnOk, length};
ghost use Rattle.certificate_finder.specs.Lists.{GrowsIf};
ghost use Rattle.history_window.specs.declared.coded_call.CodedCall.{CodedCall};
ghost use Rattle.history_window.specs.Cuts.{AreCuts, AreCutTurns, IsAlone, IsCutCode, IsLastCode};
ghost use Rattle.history_window.specs.Reaches.{AreBlocks};
ghost use Rattle.history_window.specs.Tables.{AreTables};

use crate::coded_call::{CodedCall, code_at};
use crate::peaks::Peaks;
use crate::ranks::{greatest_upto, rank, sort_ranks, turn};
use crate::tables::Tables;
use std::alloc::{AllocError, Global};

/// The cuts at a stamp.
#[derive(Drop)]
pub(crate) struct Cuts {
    /// The stamp.
    pub(crate) bound: u64,
    /// Their turns, in order.
    pub(crate) turns: Vec<u128>,
}

/// Whether each other write of a write's key precedes it or follows it.
fn is_alone(tables: &Tables<'_>, code: &CodedCall) -> bool
    requires tables { AreTables tables.now }
    requires listed { Contains tables.now.codes.now code.now }
    requires writes { code.now.writes ≡ true }
    ensures { IsTrue result ↔ IsAlone tables.now.codes.now code.now }
{
    let own = code.first_turn();
    if tables.writes.spans.covers(own) {
        return false;
    }
    let turns = tables.writes.turns.as_slice();
    let limit = code.last_turn();
    let Some(last) = greatest_upto(turns, limit) else {
        return false;
    };
    last == own
}

/// Whether a call is a cut.
fn is_cut(tables: &Tables<'_>, blocks: &Peaks, code: &CodedCall, bound: u64) -> bool
    requires tables { AreTables tables.now }
    requires blocks { AreBlocks tables.now.codes.now blocks.now }
    requires listed { Contains tables.now.codes.now code.now }
    ensures { IsTrue result ↔ IsCutCode tables.now.codes.now bound code.now }
{
    if !code.writes {
        return false;
    }
    if code.end >= bound {
        return false;
    }
    if !is_alone(tables, code) {
        return false;
    }
    let at = rank(code.key as u64, code.start);
    !blocks.covers(at)
}

/// Lists a number, if a test holds.
fn list_turn(turns: &mut Vec<u128>, turn: u128, test: bool) -> Result<(), AllocError>
    ensures { OnOk result (GrowsIf test turn turns.old.items turns.new.items) }
{
    if test {
        turns.push(turn)?;
    }
    Ok(())
}

/// The turns of all cuts, in the order of the history.
fn listed_cuts(
    alloc: Global,
    tables: &Tables<'_>,
    blocks: &Peaks,
    bound: u64,
) -> Result<Vec<u128>, AllocError>
    requires tables { AreTables tables.now }
    requires blocks { AreBlocks tables.now.codes.now blocks.now }
    ensures { IfOk result (λ turns. AreCutTurns tables.now.codes.now bound (length tables.now.codes.now) turns.items) }
{
    let mut turns = Vec::new(alloc);
    for index in 0..tables.codes.len() {
        let code = code_at(tables.codes, index);
        let cut = is_cut(tables, blocks, &code, bound);
        let own = code.first_turn();
        list_turn(&mut turns, own, cut)?;
    }
    Ok(turns)
}

/// The cuts at a stamp.
pub(crate) fn cuts_of(
    alloc: Global,
    tables: &Tables<'_>,
    blocks: &Peaks,
    bound: u64,
) -> Result<Cuts, AllocError>
    requires tables { AreTables tables.now }
    requires blocks { AreBlocks tables.now.codes.now blocks.now }
    ensures bound { IfOk result (λ cuts. cuts.bound ≡ bound) }
    ensures cuts { IfOk result (AreCuts tables.now.codes.now) }
{
    let made = listed_cuts(alloc, tables, blocks, bound)?;
    let turns = sort_ranks(made);
    Ok(Cuts { bound, turns })
}

/// The last cut of a key.
pub(crate) fn last_cut(tables: &Tables<'_>, cuts: &Cuts, key: u32) -> Option<CodedCall>
    requires tables { AreTables tables.now }
    requires cuts { AreCuts tables.now.codes.now cuts.now }
    ensures { MatchOption result ((cut : CodedCall) → Contains tables.now.codes.now cut → IsCutCode tables.now.codes.now cuts.now.bound cut → cut.key ≢ key) (IsLastCode tables.now.codes.now cuts.now.bound key) }
{
    let limit = turn(key, u64::MAX, u32::MAX);
    let turns = cuts.turns.as_slice();
    let Some(found) = greatest_upto(turns, limit) else {
        return None;
    };
    let place = (found % 4294967296) as usize;
    let cut = code_at(tables.codes, place);
    if cut.key != key {
        return None;
    }
    Some(cut)
}

// What is sorted of calls in numbers.
ghost use Rattle.std.specs.Prelude.{◌≡◌, IfOk};
ghost use Rattle.std.specs.List.{filter_map};
ghost use Rattle.history_window.specs.Codes.{AreSound};
ghost use Rattle.history_window.specs.Peaks.{ArePeaks};
ghost use Rattle.history_window.specs.Ranks.{AreSorted};
ghost use Rattle.history_window.specs.Tables.{AreHitTables, AreTables, AreWriteTables, put_end, put_start, write_over, write_span, write_turn};

use crate::coded_call::CodedCall;
use crate::peak::Peak;
use crate::peaks::Peaks;
use crate::ranks::sort_ranks;
use std::alloc::{AllocError, Global};

/// What is asked for a hit.
#[derive(Drop)]
pub(crate) struct HitTables {
    /// From the end of each write on, its start.
    pub(crate) overs: Peaks,
    /// The starts of the puts, by values.
    pub(crate) starts: Vec<u128>,
    /// The ends of the puts, by values.
    pub(crate) ends: Vec<u128>,
}

/// What is asked for a write.
#[derive(Drop)]
pub(crate) struct WriteTables {
    /// From the turn of each write on, its last turn.
    pub(crate) spans: Peaks,
    /// The turns of the writes.
    pub(crate) turns: Vec<u128>,
}

/// Calls in numbers, and what is asked about them.
#[derive(Drop)]
pub(crate) struct Tables<'a> {
    /// The calls.
    pub(crate) codes: &'a [CodedCall],
    /// What is asked for a hit.
    pub(crate) hits: HitTables,
    /// What is asked for a write.
    pub(crate) writes: WriteTables,
}

/// The tables of these calls.
pub(crate) fn tables_of<'a>(alloc: Global, codes: &'a [CodedCall]) -> Result<Tables<'a>, AllocError>
    requires { AreSound codes.now }
    ensures same { IfOk result (λ tables. tables.codes.now ≡ codes.now) }
    ensures tables { IfOk result AreTables }
{
    let hits = hit_tables_of(alloc, codes)?;
    let writes = write_tables_of(alloc, codes)?;
    Ok(Tables {
        codes,
        hits,
        writes,
    })
}

/// What is asked for a hit of these calls.
fn hit_tables_of(alloc: Global, codes: &[CodedCall]) -> Result<HitTables, AllocError>
    ensures { IfOk result (AreHitTables codes.now) }
{
    let overs = overs_of(alloc, codes)?;
    let starts = starts_of(alloc, codes)?;
    let ends = ends_of(alloc, codes)?;
    Ok(HitTables {
        overs,
        starts,
        ends,
    })
}

/// What is asked for a write of these calls.
fn write_tables_of(alloc: Global, codes: &[CodedCall]) -> Result<WriteTables, AllocError>
    ensures { IfOk result (AreWriteTables codes.now) }
{
    let spans = spans_of(alloc, codes)?;
    let turns = turns_of(alloc, codes)?;
    Ok(WriteTables { spans, turns })
}

/// The starts of the puts, by values.
fn starts_of(alloc: Global, codes: &[CodedCall]) -> Result<Vec<u128>, AllocError>
    ensures { IfOk result (λ starts. AreSorted (filter_map put_start codes.now) starts.items) }
{
    let starts: Vec<u128> = codes
        .iter()
        .filter_map(|code| code.put_start())
        .collect(alloc)?;
    Ok(sort_ranks(starts))
}

/// The ends of the puts, by values.
fn ends_of(alloc: Global, codes: &[CodedCall]) -> Result<Vec<u128>, AllocError>
    ensures { IfOk result (λ ends. AreSorted (filter_map put_end codes.now) ends.items) }
{
    let ends: Vec<u128> = codes
        .iter()
        .filter_map(|code| code.put_end())
        .collect(alloc)?;
    Ok(sort_ranks(ends))
}

/// The turns of the writes.
fn turns_of(alloc: Global, codes: &[CodedCall]) -> Result<Vec<u128>, AllocError>
    ensures { IfOk result (λ turns. AreSorted (filter_map write_turn codes.now) turns.items) }
{
    let turns: Vec<u128> = codes
        .iter()
        .filter_map(|code| code.write_turn())
        .collect(alloc)?;
    Ok(sort_ranks(turns))
}

/// From the end of each write on, its start.
fn overs_of(alloc: Global, codes: &[CodedCall]) -> Result<Peaks, AllocError>
    ensures { IfOk result (ArePeaks (filter_map write_over codes.now)) }
{
    let made: Vec<Peak> = codes
        .iter()
        .filter_map(|code| code.write_over())
        .collect(alloc)?;
    match Peaks::of(alloc, made) {
        Ok(overs) => Ok(overs),
        Err(refused) => Err(refused),
    }
}

/// From the turn of each write on, its last turn.
fn spans_of(alloc: Global, codes: &[CodedCall]) -> Result<Peaks, AllocError>
    ensures { IfOk result (ArePeaks (filter_map write_span codes.now)) }
{
    let made: Vec<Peak> = codes
        .iter()
        .filter_map(|code| code.write_span())
        .collect(alloc)?;
    match Peaks::of(alloc, made) {
        Ok(spans) => Ok(spans),
        Err(refused) => Err(refused),
    }
}

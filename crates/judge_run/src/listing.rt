// Listing all faults of a history that is rejected.
ghost use Rattle.std.specs.Prelude.{◌≡◌, [], ◌∷◌, ◌++◌, IfOk, OnOk, map};
ghost use Rattle.certificate_finder.specs.Finding.{IfRejected};
ghost use Rattle.judge_run.specs.Listing.{IsListed, crossed_fault, hit_fault, reversed_fault, told_of, unread_fault};

use crate::fault_keys::key_count;
use crate::fault_list::FaultList;
use crate::told_fault::ToldFault;
use crate::told_lines::MOST_PUTS;
use certificate_finder::{
    CrossedWrites, Faults, Found, UnreadHit, Witness, WrongHit, find_faults_with_hasher,
};
use std::alloc::{AllocError, Global};
use std::hash::BuildHasher;
use trace_file::History;

/// Appends a fault.
fn add(faults: &mut Vec<ToldFault>, reason: Witness, late: Option<u64>) -> Result<(), AllocError>
    ensures { OnOk result (faults.new.items
        ≡ faults.old.items ++ record { reason = reason; late = late } ∷ []) }
{
    match faults.push(ToldFault { reason, late }) {
        Ok(()) => Ok(()),
        Err(_) => Err(AllocError),
    }
}

/// Appends the calls that end before they start.
fn add_reversed(faults: &mut Vec<ToldFault>, reversed: &[u32]) -> Result<(), AllocError>
    ensures { OnOk result (faults.new.items ≡ faults.old.items ++ map reversed_fault reversed.now) }
{
    for call in reversed {
        add(faults, Witness::Interval(*call), None)?;
    }
    Ok(())
}

/// Appends the wrong hits.
fn add_hits(faults: &mut Vec<ToldFault>, hits: Vec<WrongHit>) -> Result<(), AllocError>
    ensures { OnOk result (faults.new.items ≡ faults.old.items ++ map hit_fault hits.items) }
{
    for wrong in hits {
        add(faults, Witness::Hit(wrong.hit, wrong.puts), wrong.late)?;
    }
    Ok(())
}

/// Appends the crossed writes.
fn add_crossed(faults: &mut Vec<ToldFault>, crossed: &[CrossedWrites]) -> Result<(), AllocError>
    ensures { OnOk result (faults.new.items ≡ faults.old.items ++ map crossed_fault crossed.now) }
{
    for writes in crossed {
        add(faults, Witness::Crossed(writes.one, writes.other), None)?;
    }
    Ok(())
}

/// Appends the hits that would cross two writes whichever of several puts they read.
fn add_unread(faults: &mut Vec<ToldFault>, hits: Vec<UnreadHit>) -> Result<(), AllocError>
    ensures { OnOk result (faults.new.items ≡ faults.old.items ++ map unread_fault hits.items) }
{
    for unread in hits {
        add(faults, Witness::Unread(unread), None)?;
    }
    Ok(())
}

/// Faults as they are told, in their order.
fn told_of(alloc: Global, found: Faults) -> Result<Vec<ToldFault>, AllocError>
    ensures { IfOk result (λ told. told.items ≡ told_of found) }
{
    let Faults {
        reversed,
        hits,
        crossed,
        unread,
    } = found;
    let mut told = Vec::new(alloc);
    add_reversed(&mut told, &reversed)?;
    add_hits(&mut told, hits)?;
    add_crossed(&mut told, &crossed)?;
    add_unread(&mut told, unread)?;
    Ok(told)
}

/// All faults of a history.
fn faults_in<S: BuildHasher + Copy + Drop>(
    alloc: Global,
    hash_builder: S,
    history: &History,
) -> Result<FaultList, AllocError>
    ensures { IfOk result (IsListed history.now) }
{
    let found = find_faults_with_hasher(alloc, hash_builder, history, MOST_PUTS)?;
    let faults = told_of(alloc, found)?;
    let keys = key_count(alloc, hash_builder, history, &faults)?;
    Ok(FaultList { faults, keys })
}

/// All faults of a history for which this was found, if it is rejected; otherwise an empty list.
pub(crate) fn faults_of<S: BuildHasher + Copy + Drop>(
    alloc: Global,
    hash_builder: S,
    history: &History,
    found: &Found,
) -> Result<FaultList, AllocError>
    ensures { IfOk result (λ list. IfRejected found.now (λ _. IsListed history.now list)) }
{
    match found {
        Found::Rejected(_) => match faults_in(alloc, hash_builder, history) {
            Ok(list) => Ok(list),
            Err(refused) => Err(refused),
        },
        Found::Accepted(_) | Found::Undecided(_) => Ok(FaultList {
            faults: Vec::new(alloc),
            keys: 0,
        }),
    }
}

// Why a hit can have read no put.
ghost use Rattle.std.specs.Prelude.{◌≡◌, ◌≤◌, All, IfOk, length};
ghost use Rattle.std.specs.List.Sorted.{IsNonDecreasingBy};
ghost use Rattle.certificate_finder.specs.Excluding.{AreExcludedAt, AreLike, excused_between, excuse_of};
ghost use Rattle.certificate_finder.specs.Owning.{IsRefused};
ghost use Rattle.certificate_finder.specs.Putting.{ArePuts, put_rank};
ghost use Rattle.certificate_finder.specs.Steps.{IsFit};

use crate::excluded::{Excluded, Excuse};
use crate::items::item_at;
use crate::numbered_call::NumberedCall;
use crate::put::{Put, value_rank};
use crate::put_range::PutRange;
use crate::puts::{puts_below, puts_upto};
use std::alloc::{AllocError, Global};

/// The puts of a hit's key and value, by their indexes.
pub(crate) fn puts_like(puts: &[Put], hit: &NumberedCall) -> PutRange
    requires { IsNonDecreasingBy put_rank puts.now }
    ensures { AreLike puts.now hit.now result.from result.upto }
{
    PutRange {
        from: puts_below(puts, value_rank(hit.key, hit.value, 0)),
        upto: puts_upto(puts, value_rank(hit.key, hit.value, u64::MAX)),
    }
}

/// The puts from an index up to another one, each with what excludes it.
pub(crate) fn excluded_between(
    alloc: Global,
    puts: &[Put],
    hit: &NumberedCall,
    from: usize,
    upto: usize,
) -> Result<Vec<Excluded>, AllocError>
    requires order { from ≤ upto }
    requires within { upto ≤ length puts.now }
    ensures { IfOk result (λ excluded. excluded.items ≡ excused_between puts.now hit.now from upto) }
{
    let mut excluded = Vec::new(alloc);
    for index in from..upto {
        let put = item_at(puts, index);
        let why = excuse_of(&put, hit);
        excluded.push(Excluded {
            put: put.position,
            why,
        })?;
    }
    Ok(excluded)
}

/// All puts of a hit's key and value, each with what excludes it.
pub(crate) fn excluded_of(
    alloc: Global,
    steps: &[NumberedCall],
    puts: &[Put],
    position: u32,
) -> Result<Vec<Excluded>, AllocError>
    requires fit { All IsFit steps.now }
    requires puts { ArePuts steps.now puts.now }
    requires refused { IsRefused steps.now position }
    ensures { IfOk result (λ excluded. AreExcludedAt steps.now position excluded.items) }
{
    let hit = item_at(steps, position as usize);
    let like = puts_like(puts, &hit);
    match excluded_between(alloc, puts, &hit, like.from, like.upto) {
        Ok(excluded) => Ok(excluded),
        Err(refused) => Err(refused),
    }
}

/// What excludes a put of a hit's key and value.
fn excuse_of(put: &Put, hit: &NumberedCall) -> Excuse
    ensures { result ≡ excuse_of hit.now put.now }
{
    if hit.end < put.start {
        return Excuse::Later;
    }
    match put.over {
        Some(write) => {
            if put.dead < hit.start {
                Excuse::Replaced(write)
            } else {
                Excuse::Expired
            }
        }
        None => Excuse::Expired,
    }
}

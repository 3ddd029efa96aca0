// The calls that matter for a reason.
ghost use Rattle.std.specs.Prelude.{◌≡◌, ◌∷◌, ◌++◌, IfOk, OnOk, take};
ghost use Rattle.std.specs.List.{flat_map};
ghost use Rattle.history_picture.specs.Marks.{crossed_marks, excluded_marks, latest_marks, marks_of, read_marks, side_marks};

use crate::latest::Latest;
use crate::reason::Reason;
use certificate_finder::{CrossedWrites, Excluded, Excuse, Side, UnreadHit};
use std::alloc::{AllocError, Global};

/// How many puts of a hit are named.
const MOST_PUTS: usize = 8;

/// The first eight puts of a hit, which are named.
#[tactic(auto, using(std::proofs::lemmas::List::take_all))]
pub(crate) fn first_eight(puts: &[Excluded]) -> &[Excluded]
    ensures { result.now ≡ take 8 puts.now }
{
    if puts.len() <= MOST_PUTS {
        return puts;
    }
    &puts[..MOST_PUTS]
}

/// How many puts are named that a hit would cross with other writes.
const MOST_READS: usize = 3;

/// The first three of these, which are named.
#[tactic(auto, using(std::proofs::lemmas::List::take_all))]
pub(crate) fn first_three(reads: &[CrossedWrites]) -> &[CrossedWrites]
    ensures { result.now ≡ take 3 reads.now }
{
    if reads.len() <= MOST_READS {
        return reads;
    }
    &reads[..MOST_READS]
}

/// The positions of the calls that matter, the one at the place first.
pub(crate) fn marks(alloc: Global, reason: &Reason) -> Result<Vec<u32>, AllocError>
    ensures { IfOk result (λ marks. marks.items ≡ marks_of reason.now) }
{
    match reason {
        Reason::Interval(position) => Ok(vec![in alloc; *position]?),
        Reason::Hit(hit, puts) => hit_marks(alloc, *hit, puts.as_slice()),
        Reason::Crossed(one, other) => crossed_sides(alloc, one, other),
        Reason::Unread(unread) => unread_marks(alloc, unread),
        Reason::OutOfOrder(_, call, earlier) => Ok(vec![in alloc; *call, *earlier]?),
        Reason::WrongHit(_, hit, latest) => latest_marked(alloc, *hit, *latest),
        Reason::Repeated(_, position) => Ok(vec![in alloc; *position]?),
        Reason::NotAPlace(..) => Ok(Vec::new(alloc)),
        Reason::WrongCount => Ok(Vec::new(alloc)),
    }
}

/// A hit, and the puts that it can't have read with what replaced them.
fn hit_marks(alloc: Global, hit: u32, puts: &[Excluded]) -> Result<Vec<u32>, AllocError>
    ensures { IfOk result (λ marks.
        marks.items ≡ hit ∷ flat_map excluded_marks (take 8 puts.now)) }
{
    let mut marks = vec![in alloc; hit]?;
    for put in first_eight(puts) {
        push_excluded(&mut marks, put)?;
    }
    Ok(marks)
}

/// Appends to the marks a put that was not read, and what replaced it.
fn push_excluded(marks: &mut Vec<u32>, excluded: &Excluded) -> Result<(), AllocError>
    ensures { OnOk result (marks.new.items ≡ marks.old.items ++ excluded_marks excluded.now) }
{
    marks.push(excluded.put)?;
    match excluded.why {
        Excuse::Later => Ok(()),
        Excuse::Expired => Ok(()),
        Excuse::Replaced(write) => {
            marks.push(write)?;
            Ok(())
        }
    }
}

/// A hit, and the puts that it would cross with other writes, with the calls that show it.
fn unread_marks(alloc: Global, unread: &UnreadHit) -> Result<Vec<u32>, AllocError>
    ensures { IfOk result (λ marks.
        marks.items ≡ unread.now.hit ∷ flat_map read_marks (take 3 unread.now.reads.items)) }
{
    let mut marks = vec![in alloc; unread.hit]?;
    for writes in first_three(unread.reads.as_slice()) {
        push_read(&mut marks, writes)?;
    }
    Ok(marks)
}

/// Appends to the marks the calls of a put that would be crossed, and of the other write.
fn push_read(marks: &mut Vec<u32>, writes: &CrossedWrites) -> Result<(), AllocError>
    ensures { OnOk result (marks.new.items ≡ marks.old.items ++ read_marks writes.now) }
{
    push_side(marks, &writes.one)?;
    push_side(marks, &writes.other)
}

/// Appends the calls of a side to the marks.
fn push_side(marks: &mut Vec<u32>, side: &Side) -> Result<(), AllocError>
    ensures { OnOk result (marks.new.items ≡ marks.old.items ++ side_marks side.now) }
{
    marks.push(side.early)?;
    marks.push(side.write)?;
    marks.push(side.late)?;
    Ok(())
}

/// The calls of two crossed sides.
fn crossed_sides(alloc: Global, one: &Side, other: &Side) -> Result<Vec<u32>, AllocError>
    ensures { IfOk result (λ marks. marks.items ≡ crossed_marks one.now other.now) }
{
    Ok(vec![in alloc;
        one.early,
        one.write,
        one.late,
        other.early,
        other.write,
        other.late,
    ]?)
}

/// A hit, and the latest write before it.
fn latest_marked(alloc: Global, hit: u32, latest: Latest) -> Result<Vec<u32>, AllocError>
    ensures { IfOk result (λ marks. marks.items ≡ hit ∷ latest_marks latest) }
{
    match latest {
        Latest::Nothing => Ok(vec![in alloc; hit]?),
        Latest::Other(write) => Ok(vec![in alloc; hit, write]?),
        Latest::Expired(put) => Ok(vec![in alloc; hit, put]?),
    }
}

// All faults of a history.
ghost use Rattle.std.specs.Prelude.{◌≡◌, ◌<◌, ◌^◌, List, All, IfOk, length};
ghost use Rattle.trace_file.specs.declared.call.Call.{Call};
ghost use Rattle.certificate_finder.specs.Faults.{AreFaults, AreFaultsBut};
ghost use Rattle.certificate_finder.specs.Steps.{AreSteps, IsFit};

use crate::crossed::crossed_of;
use crate::faults::Faults;
use crate::finding::MAX_CALLS;
use crate::hits::hit_reads_of;
use crate::numbered_call::NumberedCall;
use crate::numbering::steps_of;
use crate::reversed::reversed_of;
use crate::unread::unread_hits_of;
use crate::wrong_hits::wrong_hits_of;
use std::alloc::{AllocError, Global};
use std::hash::{BuildHasher, BuildHasherDefault, FoldHasher};
use trace_file::History;

/// Finds all that is wrong with a history: each call that ends before it starts, each hit that can have read no put with what
/// excludes its puts and how late it is, two crossed writes of each key that has such, and each hit that several puts fit and that would
/// cross two writes whichever of them it read. Of the puts of a hit it lists the first `most`.
///
/// The hits come by their ends, those of one end in the order of the history. Writes are crossed by themselves and by the hits that
/// can have read one put alone. A hit whose puts are crossed without it is listed too. A history in which nothing is listed may still
/// have no order, if a hit can have read several puts: `find` says so. Its time and memory are those of `find`, and for each hit that
/// is listed 12 or 24 bytes for each put that is listed with it. A hit that several puts fit takes a step for each put that overlaps those. `AllocError` comes if memory was refused, and if there are more than `MAX_CALLS` calls.
pub fn find_faults(alloc: Global, history: &History, most: usize) -> Result<Faults, AllocError>
    ensures { IfOk result (AreFaults history.now most) }
{
    let known: BuildHasherDefault<FoldHasher> = BuildHasherDefault::new();
    match find_faults_with_hasher(alloc, known, history, most) {
        Ok(faults) => Ok(faults),
        Err(refused) => Err(refused),
    }
}

/// The same with keys and values hashed by `hash_builder`, as for `find_with_hasher`.
pub fn find_faults_with_hasher<S: BuildHasher + Drop>(
    alloc: Global,
    hash_builder: S,
    history: &History,
    most: usize,
) -> Result<Faults, AllocError>
    ensures { IfOk result (AreFaults history.now most) }
{
    if history.len() > MAX_CALLS {
        return Err(AllocError);
    }
    let reversed = reversed_of(alloc, history)?;
    let steps = steps_of(alloc, hash_builder, history)?;
    match faults_of(alloc, steps.as_slice(), reversed, most) {
        Ok(faults) => Ok(faults),
        Err(refused) => Err(refused),
    }
}

/// The faults of a history whose calls are in numbers, of which these end before they start.
fn faults_of(
    alloc: Global,
    steps: &[NumberedCall],
    reversed: Vec<u32>,
    most: usize,
) -> Result<Faults, AllocError>
    requires few { length steps.now < 2 ^ 31 }
    requires fit { All IsFit steps.now }
    ensures reversed { IfOk result (λ faults. faults.reversed ≡ reversed) }
    ensures others { IfOk result (λ faults. (history : List Call) → AreSteps history steps.now
        → AreFaultsBut history most faults) }
{
    let reads = hit_reads_of(alloc, steps)?;
    let puts = reads.puts.as_slice();
    let owned = reads.owners.owners.as_slice();
    let wrong = reads.wrong.as_slice();
    let hits = wrong_hits_of(alloc, steps, puts, wrong, most)?;
    let crossed = crossed_of(alloc, steps, owned)?;
    let doubtful = reads.owners.unsure.as_slice();
    let unread = unread_hits_of(alloc, steps, puts, owned, doubtful, most)?;
    Ok(Faults {
        reversed,
        hits,
        crossed,
        unread,
    })
}

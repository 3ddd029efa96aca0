// How many keys faults are about.
ghost use Rattle.std.specs.Prelude.{◌≡◌, IfOk};
ghost use Rattle.judge_run.specs.Listing.{key_count};

use crate::key_word::{first_position, key_at};
use crate::told_fault::ToldFault;
use std::alloc::{AllocError, Global};
use std::collections::HashSet;
use std::hash::BuildHasher;
use trace_file::{History, LentWord};

/// How many keys these faults are about.
pub(crate) fn key_count<S: BuildHasher + Drop>(
    alloc: Global,
    hash_builder: S,
    history: &History,
    faults: &[ToldFault],
) -> Result<usize, AllocError>
    ensures { IfOk result (λ count. count ≡ key_count history.now faults.now) }
{
    let mut keys: HashSet<LentWord<'_>, S> = HashSet::with_hasher(alloc, hash_builder);
    for fault in faults {
        let bytes = key_at(history, first_position(&fault.reason));
        keys.insert(LentWord { bytes })?;
    }
    Ok(keys.len())
}

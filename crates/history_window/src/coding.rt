// The calls of a history in numbers.
ghost use Rattle.std.specs.Prelude.{◌<◌, ◌^◌, IfOk, length};
ghost use Rattle.history_window.specs.Codes.{AreCodes};

use crate::coded_call::CodedCall;
use std::alloc::{AllocError, Global};
use std::collections::HashMap;
use std::hash::BuildHasher;
use trace_file::{History, LentWord, number_word};

/// The calls of a history in numbers.
pub(crate) fn codes_of<S: BuildHasher + Drop>(
    alloc: Global,
    hash_builder: S,
    history: &History,
) -> Result<Vec<CodedCall>, AllocError>
    requires { length history.now < 2 ^ 31 }
    ensures { IfOk result (λ codes. AreCodes history.now codes.items) }
{
    let mut numbers: HashMap<LentWord<'_>, u32, S> = HashMap::with_hasher(alloc, hash_builder);
    let mut codes = Vec::new(alloc);
    for position in 0..history.len() {
        let new = 2 * position as u32;
        let call = history.at(position);
        let key = number_word(&mut numbers, new, call.key)?;
        let word = number_word(&mut numbers, new + 1, call.act.value())?;
        codes.push(CodedCall::of(position as u32, &call, key, word))?;
    }
    Ok(codes)
}

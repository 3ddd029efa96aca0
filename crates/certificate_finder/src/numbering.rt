// Numbers for the keys and the values of a history.
ghost use Rattle.std.specs.Prelude.{◌<◌, ◌^◌, IfOk, length};
ghost use Rattle.certificate_finder.specs.Steps.{AreSteps};

use crate::numbered_call::NumberedCall;
use std::alloc::{AllocError, Global};
use std::collections::HashMap;
use std::hash::BuildHasher;
use trace_file::{History, LentWord, number_word};

/// The calls of a history in numbers: equal numbers exactly at equal keys, and at equal values.
pub(crate) fn steps_of<S: BuildHasher + Drop>(
    alloc: Global,
    hash_builder: S,
    history: &History,
) -> Result<Vec<NumberedCall>, AllocError>
    requires { length history.now < 2 ^ 31 }
    ensures { IfOk result (λ steps. AreSteps history.now steps.items) }
{
    let mut numbers: HashMap<LentWord<'_>, u32, S> = HashMap::with_hasher(alloc, hash_builder);
    let mut steps = Vec::new(alloc);
    for position in 0..history.len() {
        let new = 2 * position as u32;
        let call = history.at(position);
        let key = number_word(&mut numbers, new, call.key)?;
        let value = number_word(&mut numbers, new + 1, call.act.value())?;
        steps.push(NumberedCall::of(&call, key, value))?;
    }
    Ok(steps)
}

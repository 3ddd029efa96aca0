// Numbers for the keys and the values of a history.
ghost use Rattle.std.specs.Prelude.{◌≡◌, ◌≢◌, ◌+◌, ℕ, List, Some, None, unwrap_or, IfOk, OnOk, OnErr};
ghost use Rattle.trace_file.specs.Numbers.{number_at, AreNumbers, KeepsNumbers};

use crate::lent_word::LentWord;
use std::alloc::AllocError;
use std::collections::HashMap;
use std::hash::BuildHasher;

/// The number of a word: that which it has, otherwise the new one, which it has from now on. The numbers that words have are
/// below the new one. Memory is asked for only if the word has no number; if it is refused, the numbers are as they were.
pub fn number_word<'a, S: BuildHasher>(
    numbers: &mut HashMap<LentWord<'a>, u32, S>,
    new: u32,
    bytes: &'a [u8],
) -> Result<u32, AllocError>
    requires { AreNumbers (number_at numbers.old) new }
    ensures number { IfOk result (λ number. number ≡ unwrap_or (number_at numbers.old bytes.now) new) }
    ensures known { IfOk result (λ number. number_at numbers.new bytes.now ≡ Some number) }
    ensures others { (word : List ℕ) → word ≢ bytes.now → number_at numbers.new word ≡ number_at numbers.old word }
    ensures refused { OnErr result ((number_at numbers.old bytes.now ≡ None) × (number_at numbers.new bytes.now ≡ None)) }
    ensures kept { OnOk result (KeepsNumbers (number_at numbers.old) (number_at numbers.new)) }
    ensures numbers { OnOk result (AreNumbers (number_at numbers.new) (new + 1)) }
{
    let word = LentWord { bytes };
    if let Some(known) = numbers.get(&word) {
        return Ok(*known);
    }
    numbers.insert(word, new)?;
    Ok(new)
}

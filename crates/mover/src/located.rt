// Where a store has a key.
ghost use Rattle.std.specs.Prelude.{◌≡◌, ℕ, List, true, IfOk, OnErr};
ghost use Rattle.mover.specs.Get.{answer_of, is_hit};
ghost use Rattle.mover.specs.Timed.{expiry_of, expiry_in_memory, expiry_at, expiry_at_memory};
ghost use Rattle.mover.specs.Touch.{answer_at, has_value};

use crate::answer_kind::AnswerKind;
use klog_index::Entry;
use record_pages::{Answer, MissCause, Tier, Value, ValueBuffer};
use std::alloc::{AllocError, Global};

/// Where a store has the value of a key, which a touch then notes as asked for; or why it has none.
#[derive(Clone, Copy)]
pub(crate) enum Located {
    /// In memory; it expires then.
    Memory { expires: u64 },
    /// In the log: the record of this entry, which expires then.
    Log { entry: Entry, expires: u64 },
    /// On the page of this set: the record in this slot, which expires then.
    Set { set: u32, slot: usize, expires: u64 },
    /// There is no value, and why.
    Miss(MissCause),
}

impl Located {
    /// The answer whose value, if there is one, is in a buffer of the caller's.
    pub(crate) fn kind(&self) -> AnswerKind
        ensures answer { (buffer : List ℕ) → answer_of result buffer ≡ answer_at self.now buffer }
        ensures hit { is_hit result ≡ has_value self.now }
        ensures expires { expiry_of result ≡ expiry_at self.now }
        ensures in_memory { expiry_in_memory result ≡ expiry_at_memory self.now }
    {
        let (tier, expires) = match self {
            Located::Memory { expires } => (Tier::Memory, *expires),
            Located::Log { expires, .. } => (Tier::Log, *expires),
            Located::Set { expires, .. } => (Tier::Set, *expires),
            Located::Miss(cause) => return AnswerKind::Miss(*cause),
        };
        AnswerKind::Hit { tier, expires }
    }

    /// The answer with a copy of the value that this buffer holds, or `AllocError` if memory is refused for it.
    pub(crate) fn answer(&self, alloc: Global, buffer: &ValueBuffer) -> Result<Answer, AllocError>
        ensures answer { IfOk result (λ answer. answer ≡ answer_at self.now buffer.now) }
        ensures short { OnErr result (has_value self.now ≡ true) }
    {
        let tier = match self {
            Located::Memory { .. } => Tier::Memory,
            Located::Log { .. } => Tier::Log,
            Located::Set { .. } => Tier::Set,
            Located::Miss(cause) => return Ok(Answer::Miss(*cause)),
        };
        match Value::new(alloc, buffer.bytes()) {
            Ok(value) => Ok(Answer::Hit(value, tier)),
            Err(_) => Err(AllocError),
        }
    }
}

// Answers as acts.
ghost use Rattle.std.specs.Prelude.{◌≡◌};
ghost use Rattle.record_pages.specs.Bounded.{IsValue};
ghost use Rattle.mover.specs.Get.{answer_of};
ghost use Rattle.trace_file.specs.Calls.{value_of};
ghost use Rattle.trace_file.specs.Lent.{act_shown};
ghost use Rattle.deeds.specs.Sound.{act_of};

use mover::AnswerKind;
use record_pages::{Answer, ValueBuffer};
use trace_file::ActRef;

/// What an answer to a get of a moment does, lent.
pub fn act_lent(answer: &Answer, moment: u64) -> ActRef<'_>
    ensures act { act_shown result ≡ act_of moment answer.now }
    ensures value { IsValue (value_of (act_shown result)) }
{
    match answer {
        Answer::Hit(value, _) => ActRef::Hit(value.bytes(), moment),
        Answer::Miss(_) => ActRef::Miss,
    }
}

/// What a get of a moment does whose value, if it hit, is in the buffer.
pub(crate) fn act_seen(seen: AnswerKind, found: &ValueBuffer, moment: u64) -> ActRef<'_>
    ensures { act_shown result ≡ act_of moment (answer_of seen found.now) }
{
    match seen {
        AnswerKind::Hit { .. } => ActRef::Hit(found.bytes(), moment),
        AnswerKind::Miss(_) => ActRef::Miss,
    }
}
